//! A row on a slot begins, and takes its steps.
ghost use Rattle.std.specs.Prelude.{◌≡◌, ◌<◌, ◌+◌, ◌*◌, ℕ, Bool, length, slice_set, Some, IfOk, IfErr, OnErr};
ghost use Rattle.seize.specs.World.{MayStep, Registers, Enters, Settles, Leaves, Frees};
ghost use Rattle.papaya_raw.specs.Given.TablesNodes.{deferred_word};
ghost use Rattle.run_places.specs.Given.ScenesDeclared.row.SlotRow.{SlotRow};
ghost use Rattle.run_places.specs.Given.ScenesDeclared.row.SlotRow.TheVariants as rows;
ghost use Rattle.run_executor.specs.declared.worker.Work.TheVariants.{OnSlot};
ghost use Rattle.run_places.specs.Given.ScenesDeclared.callers.TheConstants.{SLOTS};
ghost use Rattle.run_executor.specs.Executing.Beginning.{HasNoPlace, IsRefused};
ghost use Rattle.run_executor.specs.Executing.IsThere.{IsThere, PreservesSettings, work_of, worker_of};
ghost use Rattle.run_executor.specs.Executing.OnSlots.{RowBeginsThere, RowStepsThere, row_on};
ghost use Rattle.run_places.specs.Given.ScenesOnSlots.{RowSteps};
ghost use Rattle.run_places.specs.Given.ScenesRows.{uses_after, uses_begun};
ghost use Rattle.run_places.specs.Given.ScenesScene.{Scene, row_of};

use crate::beginning::MOST_CALLERS;
use crate::executor::Executor;
use crate::taking::{TakenRow, put_at, take_row};
use crate::telling::step_telling;
use crate::worker::{Work, Worker};
use papaya_raw::Node;
use run_places::Teller;
use run_places::callers::SLOTS;
use run_places::row::{RowTold, SlotCall, SlotChange, SlotRow, SlotUse};
use seize::rows::{Enter, Leave, Register, Settle, Unregister};
use seize_words::Plain;
use std::alloc::AllocError;

/// Takes a step of a registering.
fn registers<K, V>(
    memory: &mut Teller<Plain<Node<K, V>>>,
    mut register: Register,
) -> (SlotRow, RowTold<Node<K, V>>)
    requires { MayStep deferred_word (Registers register) memory.old.memory }
    ensures { RowSteps K V (rows.Registers register) memory.old.memory memory.new.memory memory.new.changed result }
{
    let progress = step_telling(memory, &mut register);
    let told = RowTold::of_registering(progress);
    (SlotRow::Registers(register), told)
}

/// Enters a slot.
fn enters<K, V>(
    memory: &mut Teller<Plain<Node<K, V>>>,
    mut enter: Enter,
) -> (SlotRow, RowTold<Node<K, V>>)
    requires { MayStep deferred_word (Enters enter) memory.old.memory }
    ensures { RowSteps K V (rows.Enters enter) memory.old.memory memory.new.memory memory.new.changed result }
{
    let progress = step_telling(memory, &mut enter);
    let told = RowTold::of_storing(progress);
    (SlotRow::Enters(enter), told)
}

/// Takes a step of a leaving.
fn leaves<K, V>(
    memory: &mut Teller<Plain<Node<K, V>>>,
    mut leave: Leave,
) -> (SlotRow, RowTold<Node<K, V>>)
    requires { MayStep deferred_word (Leaves leave) memory.old.memory }
    ensures { RowSteps K V (rows.Leaves leave) memory.old.memory memory.new.memory memory.new.changed result }
{
    let settled = step_telling(memory, &mut leave);
    let told = RowTold::of_settling(settled);
    (SlotRow::Leaves(leave), told)
}

/// Takes a step of a flush.
fn flushes<K, V>(
    memory: &mut Teller<Plain<Node<K, V>>>,
    mut settle: Settle,
) -> (SlotRow, RowTold<Node<K, V>>)
    requires { MayStep deferred_word (Settles settle) memory.old.memory }
    ensures { RowSteps K V (rows.Flushes settle) memory.old.memory memory.new.memory memory.new.changed result }
{
    let settled = step_telling(memory, &mut settle);
    let told = RowTold::of_settling(settled);
    (SlotRow::Flushes(settle), told)
}

/// Gives a slot up.
fn frees<K, V>(
    memory: &mut Teller<Plain<Node<K, V>>>,
    mut unregister: Unregister,
) -> (SlotRow, RowTold<Node<K, V>>)
    requires { MayStep deferred_word (Frees unregister) memory.old.memory }
    ensures { RowSteps K V (rows.Frees unregister) memory.old.memory memory.new.memory memory.new.changed result }
{
    let progress = step_telling(memory, &mut unregister);
    let told = RowTold::of_storing(progress);
    (SlotRow::Frees(unregister), told)
}

/// Takes a step of a row.
fn step_row<K, V>(
    memory: &mut Teller<Plain<Node<K, V>>>,
    row: SlotRow,
) -> (SlotRow, RowTold<Node<K, V>>)
    requires { MayStep deferred_word (row_of row) memory.old.memory }
    ensures { RowSteps K V row memory.old.memory memory.new.memory memory.new.changed result }
{
    match row {
        SlotRow::Registers(register) => registers(memory, register),
        SlotRow::Enters(enter) => enters(memory, enter),
        SlotRow::Leaves(leave) => leaves(memory, leave),
        SlotRow::Flushes(settle) => flushes(memory, settle),
        SlotRow::Frees(unregister) => frees(memory, unregister),
    }
}

/// The row after a step of it, unless it has ended.
fn going_on<K, V>(slot: u64, row: SlotRow, told: &RowTold<Node<K, V>>) -> Option<Worker<K, V>>
    ensures { result ≡ worker_of slot (row_on row told.now) }
{
    match told {
        RowTold::Goes | RowTold::Waits | RowTold::Gave(_) => {
            let work = Work::OnSlot { row };
            Some(Worker { slot, work })
        }
        RowTold::Done | RowTold::Registered(_) | RowTold::Refused(_) => None,
    }
}

/// Notes how a slot is used.
pub(crate) fn use_as(slots: &mut Vec<SlotUse>, slot: u64, used: SlotUse)
    ensures { slots.new.items ≡ slice_set slots.old.items slot used }
{
    if (slot as usize) < slots.len() {
        slots[slot as usize] = used;
    }
}

/// Notes how slots are used once this has begun.
fn note_begun(slots: &mut Vec<SlotUse>, slot: u64, called: SlotCall)
    ensures { slots.new.items ≡ uses_begun slot called slots.old.items }
{
    match called {
        SlotCall::Register { .. } | SlotCall::Flush => {}
        _ => use_as(slots, slot, SlotUse::Changing),
    }
}

/// Notes how slots are used after a step of a row.
fn note<T>(slots: &mut Vec<SlotUse>, change: SlotChange, told: &RowTold<T>)
    ensures { slots.new.items ≡ uses_after change told.now slots.old.items }
{
    match change {
        SlotChange::Takes { used } => {
            if let RowTold::Registered(slot) = told {
                use_as(slots, *slot, used);
            }
        }
        SlotChange::Becomes { slot, used } => use_as(slots, slot, used),
        SlotChange::Stays => {}
    }
}

impl<K: Drop, V: Drop, S> Executor<K, V, S> {
    /// Begins what a caller in this slot does with it, and answers with the number of the caller. A registering finds a slot of its own, whichever this one is. On an
    /// error nothing has begun.
    pub fn begin_on_slot(&mut self, slot: u64, called: SlotCall) -> Result<u64, AllocError>
        requires { slot < SLOTS }
        ensures number { IfOk result (λ caller. caller ≡ length self.old.workers.items * SLOTS + slot) }
        ensures leads { IfOk result (λ caller. (same : K → K → Bool) (hash : K → ℕ) (s : Scene K V) → IsThere same hash self.old s → RowBeginsThere same hash called caller s self.old self.new) }
        ensures given { PreservesSettings self.old self.new }
        ensures refused { IfErr result (λ error. IsRefused self.old self.new) }
        ensures only { OnErr result (HasNoPlace self.old) }
    {
        let place = self.workers.len();
        if place >= MOST_CALLERS {
            return Err(AllocError);
        }
        let row = called.begin(slot, self.batch_size);
        let work = Work::OnSlot { row };
        self.workers.push(Some(Worker { slot, work }))?;
        note_begun(&mut self.slots, slot, called);
        Ok(place as u64 * SLOTS + slot)
    }

    /// Takes the next step of the row that a caller has under way on its slot: at most one operation. One that has ended is under way no more.
    pub fn step_on_slot(&mut self, caller: u64) -> RowTold<Node<K, V>>
        requires { (same : K → K → Bool) × (hash : K → ℕ) × (s : Scene K V) × IsThere same hash self.old s × (row : SlotRow) × (work_of self.old caller ≡ Some (OnSlot row)) }
        ensures leads { (same : K → K → Bool) (hash : K → ℕ) (s : Scene K V) → IsThere same hash self.old s → RowStepsThere same hash caller result s self.old self.new }
        ensures given { PreservesSettings self.old self.new }
    {
        let place = (caller / SLOTS) as usize;
        let TakenRow { slot, row } = take_row(&mut self.workers, place);
        let change = row.change();
        let (row, told) = step_row(&mut self.memory, row);
        note(&mut self.slots, change, &told);
        let next = going_on(slot, row, &told);
        put_at(&mut self.workers, place, next);
        told
    }
}

//! Rows on slots begin, and take steps.
ghost use Rattle.std.specs.Prelude.{◌≡◌, ◌<◌, ◌+◌, ◌*◌, ◌++◌, ℕ, Bool, true, List, length, Some, IfOk, IfErr};
ghost use Rattle.run_schedules.specs.Schedules.Moment.{Moment};
ghost use Rattle.run_effects.specs.Effects.Effects.{effects_of, known_after};
ghost use Rattle.run_effects.specs.Effects.Known.{known};
ghost use Rattle.run_effects.specs.declared.acting.Acting.TheVariants.{Row};
ghost use Rattle.run_shows.specs.declared.row.SlotRow.{SlotRow};
ghost use Rattle.run_shows.specs.declared.callers.TheConstants.{SLOTS};
ghost use Rattle.run_executor.specs.declared.worker.Work.TheVariants.{OnSlot};
ghost use Rattle.run_logged.specs.Log.Back.{BringsBack};
ghost use Rattle.run_kept.specs.Sheds.Ended.{has_ended, uses_ended};
ghost use Rattle.run_logged.specs.Log.Goes.{RowGone};
ghost use Rattle.run_logged.specs.Log.OnSlots.{EndsTelling, OnSlotBegins, OnSlotSteps, OnSlotRan, OnSlotComes, OnSlotLast, has_come};
ghost use Rattle.run_logged.specs.Log.Shown.{IsShown};
ghost use Rattle.run_executor.specs.Executing.Beginning.{IsRefused};
ghost use Rattle.run_executor.specs.Executing.IsThere.{IsThere, PreservesSettings, work_of};
ghost use Rattle.run_executor.specs.Executing.OnSlots.{RowBeginsThere, RowStepsThere};
ghost use Rattle.run_shows.specs.Scenes.Scene.{Scene};

use crate::back::keep_row;
use crate::logged::Logged;
use papaya_raw::Node;
use run_effects::acting::Acting;
use run_schedules::effect::Effect;
use run_schedules::ended::Pair;
use run_shows::callers::SLOTS;
use run_shows::row::{RowTold, SlotCall};
use std::alloc::AllocError;

/// Whether a row has ended, or waits.
fn has_come<T>(told: &RowTold<T>) -> bool
    ensures { result ≡ has_come told.now }
{
    match told {
        RowTold::Goes | RowTold::Gave(_) => false,
        RowTold::Waits | RowTold::Done | RowTold::Registered(_) | RowTold::Refused(_) => true,
    }
}

impl<K: Drop, V: Drop, S> Logged<K, V, S> {
    /// Begins what a caller in this slot does with it, and answers with the number of the caller. A registering finds a slot of its own, whichever this one is. On an
    /// error nothing has begun.
    pub fn begin_on_slot(&mut self, slot: u64, called: SlotCall) -> Result<u64, AllocError>
        requires { slot < SLOTS }
        ensures number { IfOk result (λ caller. caller ≡ length self.old.executor.workers.items * SLOTS + slot) }
        ensures leads { IfOk result (λ caller. (same : K → K → Bool) (hash : K → ℕ) (name : ℕ → List ℕ) (m : Moment K V) (s : Scene K V) → IsShown same hash name m self.old s
            → OnSlotBegins same hash name m s called caller self.old self.new) }
        ensures begun { IfOk result (λ caller. (same : K → K → Bool) (hash : K → ℕ) (s : Scene K V) → IsThere same hash self.old.executor s
            → RowBeginsThere same hash called caller s self.old.executor self.new.executor) }
        ensures notes { IfOk result (λ caller. self.new.notes ≡ self.old.notes) }
        ensures given { PreservesSettings self.old.executor self.new.executor }
        ensures refused { IfErr result (λ error. IsRefused self.old.executor self.new.executor × (self.new.notes ≡ self.old.notes)) }
    {
        let caller = self.executor.begin_on_slot(slot, called)?;
        Ok(caller)
    }

    /// Takes the next step of the row that a caller has under way on its slot: at most one operation. What it does is added to the list. It is refused where the
    /// list, or the notes, find no more room: then the executor has gone on, and it is written down no more.
    pub fn step_on_slot(
        &mut self,
        caller: u64,
        effects: &mut Vec<Effect>,
    ) -> Result<RowTold<Node<K, V>>, AllocError>
        requires { (same : K → K → Bool) × (hash : K → ℕ) × (s : Scene K V) × IsThere same hash self.old.executor s × (row : SlotRow) × (work_of self.old.executor caller ≡ Some (OnSlot row)) }
        ensures leads { IfOk result (λ told. OnSlotSteps caller told effects.old.items effects.new.items self.old self.new) }
        ensures steps { IfOk result (λ told. (same : K → K → Bool) (hash : K → ℕ) (s : Scene K V) → IsThere same hash self.old.executor s
            → RowStepsThere same hash caller told s self.old.executor self.new.executor) }
        ensures did { IfOk result (λ told. effects.new.items ≡ effects.old.items ++ effects_of Row (known self.old.notes) self.new.executor.memory.changed) }
        ensures noted { IfOk result (λ told. known self.new.notes ≡ known_after Row self.new.executor.memory.changed (known self.old.notes)) }
        ensures given { PreservesSettings self.old.executor self.new.executor }
    {
        let told = self.executor.step_on_slot(caller);
        self.note(Acting::Row, effects)?;
        Ok(told)
    }

    /// Takes steps of the row that a caller has under way on its slot, until it ends, or waits for a batch that another row has in hand, and answers what the last step
    /// told. What the steps do is added to the list, in their order, and the pairs that they reclaim come back, behind those before. It is refused as a step is; or where there is
    /// no room for a pair that comes back, before the step that might reclaim one is taken.
    pub fn run_on_slot(
        &mut self,
        caller: u64,
        effects: &mut Vec<Effect>,
        back: &mut Vec<Pair<K, V>>,
    ) -> Result<RowTold<Node<K, V>>, AllocError>
        requires { (same : K → K → Bool) × (hash : K → ℕ) × (s : Scene K V) × IsThere same hash self.old.executor s × (row : SlotRow) × (work_of self.old.executor caller ≡ Some (OnSlot row)) }
        ensures comes { IfOk result (λ told. OnSlotComes caller told self.new) }
        ensures last { IfOk result (λ told. OnSlotLast caller told self.old.executor self.new.executor) }
        ensures goes { IfOk result (λ told. RowGone caller told effects.old.items effects.new.items self.old self.new) }
        ensures used { IfOk result (λ told. (row : SlotRow) → work_of self.old.executor caller ≡ Some (OnSlot row) → has_ended told ≡ true
            → self.new.executor.slots.items ≡ uses_ended row told self.old.executor.slots.items) }
        ensures ran { IfOk result (λ told. OnSlotRan effects.old.items effects.new.items self.old self.new) }
        ensures tells { IfOk result (λ told. EndsTelling effects.new.items self.new.executor) }
        ensures back { IfOk result (λ told. BringsBack effects.old.items effects.new.items self.old back.old.items back.new.items) }
        ensures given { PreservesSettings self.old.executor self.new.executor }
    {
        loop {
            back.reserve(1)?;
            let told = self.step_on_slot(caller, effects)?;
            if has_come(&told) {
                return Ok(told);
            }
            keep_row(told, effects.as_slice(), back);
        }
    }
}

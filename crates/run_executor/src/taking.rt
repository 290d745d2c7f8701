//! What is taken out of the place of a caller that has a call under way, before a step of it.
ghost use Rattle.std.specs.Prelude.{◌≡◌, ◌<◌, ℕ, length, slice_index_or, slice_set, Some, None};
ghost use Rattle.run_places.specs.Given.ScenesDeclared.row.SlotRow.{SlotRow};
ghost use Rattle.run_executor.specs.declared.worker.Work.TheVariants.{Making, Ending, OnSlot};
ghost use Rattle.run_places.specs.Given.ResizeDeclared.new_map.NewMap.{NewMap};
ghost use Rattle.papaya_raw.specs.declared.machines.end_map.EndMap.{EndMap};
ghost use Rattle.papaya_raw.specs.declared.machines.machine.Machine.{Machine};
ghost use Rattle.run_executor.specs.Executing.IsThere.{worker_of, worker_with};

use crate::worker::{Work, Worker};
use papaya_raw::machines::{EndMap, Machine, NewMap};
use run_places::row::SlotRow;
use std::mem;

/// A call that was taken out of its place.
#[derive(Drop)]
pub(crate) struct TakenCall<K, V> {
    /// The slot of its caller.
    pub(crate) slot: u64,
    /// The number of its map.
    pub(crate) map: u64,
    /// How far it is.
    pub(crate) machine: Machine<K, V>,
}

/// Takes out who is at a place.
fn take_out<K, V>(workers: &mut Vec<Option<Worker<K, V>>>, place: usize) -> Option<Worker<K, V>>
    requires { place < length workers.old.items }
    ensures before { result ≡ slice_index_or workers.old.items place None }
    ensures after { workers.new.items ≡ slice_set workers.old.items place None }
{
    mem::replace(&mut workers[place], None)
}

/// Puts somebody, or nobody, at a place.
pub(crate) fn put_at<K: Drop, V: Drop>(
    workers: &mut Vec<Option<Worker<K, V>>>,
    place: usize,
    next: Option<Worker<K, V>>,
)
    requires { place < length workers.old.items }
    ensures { workers.new.items ≡ slice_set workers.old.items place next }
{
    workers[place] = next;
}

/// Takes out the call at a place.
pub(crate) fn take_call<K, V>(
    workers: &mut Vec<Option<Worker<K, V>>>,
    place: usize,
) -> TakenCall<K, V>
    requires { (slot map : ℕ) × (machine : Machine K V K) × (slice_index_or workers.old.items place None ≡ worker_with slot map (Some machine)) }
    ensures before { slice_index_or workers.old.items place None ≡ worker_with result.slot result.map (Some result.machine) }
    ensures after { workers.new.items ≡ slice_set workers.old.items place None }
    ensures there { place < length workers.old.items }
{
    let Some(Worker { slot, work }) = take_out(workers, place) else {
        unreachable!()
    };
    match work {
        Work::Call { map, machine } => TakenCall { slot, map, machine },
        Work::Making { .. } | Work::Ending { .. } | Work::OnSlot { .. } => unreachable!(),
    }
}

/// The making of a map that was taken out of its place.
#[derive(Clone, Copy)]
pub(crate) struct TakenMaking {
    /// The slot of its caller.
    pub(crate) slot: u64,
    /// The number of its map.
    pub(crate) map: u64,
    /// How far it is.
    pub(crate) opening: NewMap,
}

/// Takes out the making at a place.
pub(crate) fn take_making<K: Drop, V: Drop>(
    workers: &mut Vec<Option<Worker<K, V>>>,
    place: usize,
) -> TakenMaking
    requires { (slot map : ℕ) × (opening : NewMap) × (slice_index_or workers.old.items place None ≡ worker_of slot (Some (Making map opening))) }
    ensures before { slice_index_or workers.old.items place None ≡ worker_of result.slot (Some (Making result.map result.opening)) }
    ensures after { workers.new.items ≡ slice_set workers.old.items place None }
    ensures there { place < length workers.old.items }
{
    let Some(Worker { slot, work }) = take_out(workers, place) else {
        unreachable!()
    };
    match work {
        Work::Making { map, opening } => TakenMaking { slot, map, opening },
        Work::Call { .. } | Work::Ending { .. } | Work::OnSlot { .. } => unreachable!(),
    }
}

/// The end of a map that was taken out of its place.
#[derive(Clone, Copy)]
pub(crate) struct TakenEnding {
    /// The slot of its caller.
    pub(crate) slot: u64,
    /// How far it is.
    pub(crate) ending: EndMap,
}

/// Takes out the end of a map at a place.
pub(crate) fn take_ending<K: Drop, V: Drop>(
    workers: &mut Vec<Option<Worker<K, V>>>,
    place: usize,
) -> TakenEnding
    requires { (slot : ℕ) × (ending : EndMap) × (slice_index_or workers.old.items place None ≡ worker_of slot (Some (Ending ending))) }
    ensures before { slice_index_or workers.old.items place None ≡ worker_of result.slot (Some (Ending result.ending)) }
    ensures after { workers.new.items ≡ slice_set workers.old.items place None }
    ensures there { place < length workers.old.items }
{
    let Some(Worker { slot, work }) = take_out(workers, place) else {
        unreachable!()
    };
    match work {
        Work::Ending { ending } => TakenEnding { slot, ending },
        Work::Call { .. } | Work::Making { .. } | Work::OnSlot { .. } => unreachable!(),
    }
}

/// A row on a slot that was taken out of its place.
#[derive(Drop)]
pub(crate) struct TakenRow {
    /// The slot of its caller.
    pub(crate) slot: u64,
    /// How far it is.
    pub(crate) row: SlotRow,
}

/// Takes out the row at a place.
pub(crate) fn take_row<K: Drop, V: Drop>(
    workers: &mut Vec<Option<Worker<K, V>>>,
    place: usize,
) -> TakenRow
    requires { (slot : ℕ) × (row : SlotRow) × (slice_index_or workers.old.items place None ≡ worker_of slot (Some (OnSlot row))) }
    ensures before { slice_index_or workers.old.items place None ≡ worker_of result.slot (Some (OnSlot result.row)) }
    ensures after { workers.new.items ≡ slice_set workers.old.items place None }
    ensures there { place < length workers.old.items }
{
    let Some(Worker { slot, work }) = take_out(workers, place) else {
        unreachable!()
    };
    match work {
        Work::OnSlot { row } => TakenRow { slot, row },
        Work::Call { .. } | Work::Making { .. } | Work::Ending { .. } => unreachable!(),
    }
}

//! No slot is in use any more.
ghost use Rattle.std.specs.Prelude.{◌≡◌, ℕ, length, slice_index_or};
ghost use Rattle.run_places.specs.Given.ScenesDeclared.row.SlotUse.TheVariants.{Vacant};
ghost use Rattle.run_executor.specs.Executing.IsThere.{use_at};

use crate::executor::Executor;
use crate::on_slots::use_as;
use run_places::row::SlotUse;

/// Notes of each slot that it is vacant.
fn vacate(slots: &mut Vec<SlotUse>)
    ensures vacant { (t : ℕ) → slice_index_or slots.new.items t Vacant ≡ Vacant }
    ensures long { length slots.new.items ≡ length slots.old.items }
{
    let count = slots.len();
    for slot in 0..count {
        use_as(slots, slot as u64, SlotUse::Vacant);
    }
}

impl<K, V, S> Executor<K, V, S> {
    /// Notes that no slot is in use, as once all was reclaimed.
    pub fn vacate(&mut self)
        ensures vacant { (t : ℕ) → use_at self.new t ≡ Vacant }
        ensures long { length self.new.slots.items ≡ length self.old.slots.items }
        ensures rest { self.new ≡ record self.old { slots = self.new.slots } }
    {
        vacate(&mut self.slots);
    }
}

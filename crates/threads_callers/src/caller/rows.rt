//! A caller is sent to take a slot, to enter, to leave, and to give the slot up.
ghost use Rattle.std.specs.Prelude.{◌≡◌, IfErr, IfOk};
ghost use Rattle.threads_errands.specs.Given.ViewsDeclared.view.SeatWork.TheVariants.{Nothing as NoWork};
ghost use Rattle.seize_views.specs.declared.view.Has.TheVariants.{Nothing};
ghost use Rattle.seize_views.specs.declared.view.SlotView.TheVariants.{Inside, Outside, Rests};

use crate::caller::MapCaller;
use map_tables::Hashes;
use seize_callers::errands::{Enters, Frees, Leaves, Registers};
use seize_words::Fault;

impl<'a, K: Eq, V, S: Hashes<K>> MapCaller<'a, K, V, S> {
    /// Takes the first slot that can be taken.
    pub fn register(&mut self, batch_size: u64) -> Result<u64, Fault>
        requires sized { self.old.blocks.now.words.fixed.batch_size ≡ batch_size }
        requires rests { self.old.seat.view.slot ≡ Rests }
        requires free { self.old.seat.view.work ≡ NoWork }
        ensures taken { IfOk result (λ slot. self.new.seat.view.slot ≡ Outside slot) }
        ensures refused { IfErr result (λ fault. self.new.seat.view.slot ≡ Rests) }
        ensures free { self.new.seat.view.work ≡ NoWork }
        ensures map { self.new.seat.view.map ≡ self.old.seat.view.map }
        ensures calls { self.new.seat.view.calls ≡ self.old.seat.view.calls }
        ensures blocks { self.new.blocks ≡ self.old.blocks }
    {
        let slot = self
            .blocks
            .errand(&mut self.seat, Registers { batch_size })?;
        self.near = self.blocks.beginning(slot);
        Ok(slot)
    }

    /// Opens a section of its slot.
    pub fn enter(&mut self, batch_size: u64, slot: u64)
        requires sized { self.old.blocks.now.words.fixed.batch_size ≡ batch_size }
        requires outside { self.old.seat.view.slot ≡ Outside slot }
        requires free { self.old.seat.view.work ≡ NoWork }
        ensures inside { self.new.seat.view.slot ≡ Inside slot Nothing }
        ensures free { self.new.seat.view.work ≡ NoWork }
        ensures map { self.new.seat.view.map ≡ self.old.seat.view.map }
        ensures calls { self.new.seat.view.calls ≡ self.old.seat.view.calls }
        ensures blocks { self.new.blocks ≡ self.old.blocks }
    {
        self.blocks
            .errand(&mut self.seat, Enters { slot, batch_size });
    }

    /// Gives its slot up.
    pub fn unregister(&mut self, batch_size: u64, slot: u64)
        requires sized { self.old.blocks.now.words.fixed.batch_size ≡ batch_size }
        requires outside { self.old.seat.view.slot ≡ Outside slot }
        requires free { self.old.seat.view.work ≡ NoWork }
        ensures rests { self.new.seat.view.slot ≡ Rests }
        ensures free { self.new.seat.view.work ≡ NoWork }
        ensures map { self.new.seat.view.map ≡ self.old.seat.view.map }
        ensures calls { self.new.seat.view.calls ≡ self.old.seat.view.calls }
        ensures blocks { self.new.blocks ≡ self.old.blocks }
    {
        self.blocks
            .errand(&mut self.seat, Frees { slot, batch_size });
    }
}

impl<'a, K: Eq + Drop, V: Drop, S: Hashes<K>> MapCaller<'a, K, V, S> {
    /// Ends the section: what its slot's list owes is settled.
    pub fn leave(&mut self, batch_size: u64, slot: u64)
        requires sized { self.old.blocks.now.words.fixed.batch_size ≡ batch_size }
        requires inside { self.old.seat.view.slot ≡ Inside slot Nothing }
        requires free { self.old.seat.view.work ≡ NoWork }
        ensures outside { self.new.seat.view.slot ≡ Outside slot }
        ensures free { self.new.seat.view.work ≡ NoWork }
        ensures map { self.new.seat.view.map ≡ self.old.seat.view.map }
        ensures calls { self.new.seat.view.calls ≡ self.old.seat.view.calls }
        ensures blocks { self.new.blocks ≡ self.old.blocks }
    {
        self.blocks
            .errand(&mut self.seat, Leaves { slot, batch_size });
    }
}

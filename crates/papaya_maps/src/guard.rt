//! Guards of a collector that maps share, and the slots that they have.
ghost use Rattle.std.specs.Prelude.{◌≡◌, ◌^◌, true, IfOk, nat_lt};
ghost use Rattle.threads_callers.specs.Given.ViewsDeclared.view.SeatWork.TheVariants.{Nothing as NoWork};
ghost use Rattle.seize_views.specs.declared.view.Has.TheVariants.{Nothing};
ghost use Rattle.seize_views.specs.declared.view.SlotView.TheVariants.{Inside, Outside, Rests};

use map_tables::Hashes;
use seize_words::Fault;
use std::hash::{Hash, RandomState};
use std::marker::PhantomData;
use threads_callers::MapCaller;

/// A slot of a collector, with no section open. It may be sent to a thread.
pub struct CollectorRegistration<'c, K: Eq + Hash + Drop, V: Drop, S: Hashes<K> = RandomState> {
    pub(crate) caller: MapCaller<'c, K, V, S>,
    slot: u64,
    batch_size: u64,
    pub(crate) number: u64,
    ghost outside: { caller.seat.view.slot ≡ Outside slot },
    ghost sized: { caller.blocks.now.words.fixed.batch_size ≡ batch_size },
    ghost free: { caller.seat.view.work ≡ NoWork },
    pub(crate) ghost small: { nat_lt caller.blocks.now.words.fixed.batch_size (2 ^ 64) ≡ true },
}

impl<'c, K: Eq + Hash + Drop, V: Drop, S: Hashes<K>> CollectorRegistration<'c, K, V, S> {
    /// Takes a slot. The faults are `Fault::SlotsUsedUp` and `Fault::Memory`.
    pub(crate) fn begin(
        caller: MapCaller<'c, K, V, S>,
        batch_size: u64,
        number: u64,
    ) -> Result<Self, Fault>
        requires rests { caller.seat.view.slot ≡ Rests }
        requires free { caller.seat.view.work ≡ NoWork }
        requires sized { caller.blocks.now.words.fixed.batch_size ≡ batch_size }
        requires small { nat_lt caller.blocks.now.words.fixed.batch_size (2 ^ 64) ≡ true }
        ensures memory { IfOk result (λ it. it.caller.blocks ≡ caller.entry.blocks) }
        ensures number { IfOk result (λ it. it.number ≡ number) }
    {
        let mut caller = caller;
        let slot = caller.register(batch_size)?;
        Ok(CollectorRegistration {
            caller,
            slot,
            batch_size,
            number,
        })
    }

    /// Returns the number of its collector.
    pub fn number(&self) -> u64
        ensures { result ≡ self.now.number }
    {
        self.number
    }

    /// Opens a section of its slot.
    pub fn enter(self) -> CollectorGuard<'c, K, V, S>
        ensures memory { result.caller.blocks ≡ self.entry.caller.blocks }
        ensures number { result.number ≡ self.entry.number }
    {
        let CollectorRegistration {
            caller,
            slot,
            batch_size,
            number,
        } = self;
        let mut caller = caller;
        caller.enter(batch_size, slot);
        CollectorGuard {
            caller,
            slot,
            batch_size,
            number,
            thread: PhantomData,
        }
    }
}

impl<'c, K: Eq + Hash + Drop, V: Drop, S: Hashes<K>> Drop for CollectorRegistration<'c, K, V, S> {
    fn drop(self) {
        let CollectorRegistration {
            caller,
            slot,
            batch_size,
            number: _,
        } = self;
        let mut caller = caller;
        caller.unregister(batch_size, slot);
        drop(caller);
    }
}

/// A slot of a collector, within a section, on whose thread it stays: so no two threads retire by one slot. What is looked up under it in any map of the collector is lent for as long
/// as the guard and that map are borrowed. As long as it neither ends nor is refreshed, nothing that was removed or replaced meanwhile is reclaimed, whoever did it.
pub struct CollectorGuard<'c, K: Eq + Hash + Drop, V: Drop, S: Hashes<K> = RandomState> {
    pub(crate) caller: MapCaller<'c, K, V, S>,
    pub(crate) slot: u64,
    batch_size: u64,
    pub(crate) number: u64,
    thread: PhantomData<*const V>,
    pub(crate) ghost inside: { caller.seat.view.slot ≡ Inside slot Nothing },
    ghost sized: { caller.blocks.now.words.fixed.batch_size ≡ batch_size },
    ghost free: { caller.seat.view.work ≡ NoWork },
    pub(crate) ghost small: { nat_lt caller.blocks.now.words.fixed.batch_size (2 ^ 64) ≡ true },
}

impl<'c, K: Eq + Hash + Drop, V: Drop, S: Hashes<K>> CollectorGuard<'c, K, V, S> {
    /// Returns the number of its collector.
    pub fn number(&self) -> u64
        ensures { result ≡ self.now.number }
    {
        self.number
    }

    /// Ends its section, and opens another one.
    pub fn refresh(&mut self)
        ensures memory { self.new.caller.blocks ≡ self.old.caller.blocks }
        ensures number { self.new.number ≡ self.old.number }
    {
        self.caller.leave(self.batch_size, self.slot);
        self.caller.enter(self.batch_size, self.slot);
    }

    /// Ends its section, and keeps its slot.
    pub fn leave(self) -> CollectorRegistration<'c, K, V, S>
        ensures memory { result.caller.blocks ≡ self.entry.caller.blocks }
        ensures number { result.number ≡ self.entry.number }
    {
        let CollectorGuard {
            caller,
            slot,
            batch_size,
            number,
            thread: _,
        } = self;
        let mut caller = caller;
        caller.leave(batch_size, slot);
        CollectorRegistration {
            caller,
            slot,
            batch_size,
            number,
        }
    }
}

impl<'c, K: Eq + Hash + Drop, V: Drop, S: Hashes<K>> Drop for CollectorGuard<'c, K, V, S> {
    fn drop(self) {
        drop(self.leave());
    }
}

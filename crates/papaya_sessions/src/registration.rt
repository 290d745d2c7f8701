//! A map, as one of those has it who share it: with a slot of its own, and no section.
ghost use Rattle.std.specs.Prelude.{◌≡◌, ◌^◌, true, IfOk, nat_lt};
ghost use Rattle.papaya_sessions.specs.Sessions.{HasMadeNone};
ghost use Rattle.threads_updates.specs.Given.SeizeViewsDeclared.view.SlotView.TheVariants.{Outside, Rests};

use crate::session::Session;
use map_tables::Hashes;
use seize_words::Fault;
use std::hash::{Hash, RandomState};
use threads_updates::SessionBase as Base;

/// A map, as one of those has it who share it, between sections: it holds a slot, and keeps nothing from being given back. It may be sent to a thread.
pub struct Registration<'m, K: Eq + Hash + Drop, V: Drop, S: Hashes<K> = RandomState> {
    pub(crate) base: Base<'m, K, V, S>,
    pub(crate) number: u64,
    ghost outside: { base.caller.seat.view.slot ≡ Outside base.slot },
    ghost small: { nat_lt base.caller.blocks.now.words.fixed.batch_size (2 ^ 64) ≡ true },
}

impl<'m, K: Eq + Hash + Drop, V: Drop, S: Hashes<K>> Registration<'m, K, V, S> {
    /// Takes a slot, for a map whose collector has this number. The faults are `Fault::SlotsUsedUp` and `Fault::Memory`: there is no registration then.
    pub fn begin(base: Base<'m, K, V, S>, number: u64) -> Result<Self, Fault>
        requires rests { base.caller.seat.view.slot ≡ Rests }
        requires small { nat_lt base.caller.blocks.now.words.fixed.batch_size (2 ^ 64) ≡ true }
        ensures same { IfOk result (λ registration. HasMadeNone base.entry.caller registration.base.caller) }
        ensures number { IfOk result (λ registration. registration.number ≡ number) }
    {
        let mut base = base;
        base.register()?;
        Ok(Registration { base, number })
    }

    /// Returns the number of its map's collector.
    pub fn number(&self) -> u64
        ensures { result ≡ self.now.number }
    {
        self.number
    }

    /// Opens a section of its slot: it is a session from then on.
    pub fn enter(self) -> Session<'m, K, V, S>
        ensures same { HasMadeNone self.entry.base.caller result.base.caller }
        ensures number { result.number ≡ self.entry.number }
    {
        let Registration { base, number } = self;
        let mut base = base;
        base.enter();
        Session { base, number }
    }
}

impl<'m, K: Eq + Hash + Drop, V: Drop, S: Hashes<K>> Drop for Registration<'m, K, V, S> {
    fn drop(self) {
        let Registration { base, number: _ } = self;
        let mut base = base;
        base.unregister();
        drop(base);
    }
}

//! A hash set, lent to threads, each of which may begin sessions on it.
ghost use Rattle.std.specs.Prelude.{◌≡◌, [], IfOk};

mod calls;

use crate::registration::SetRegistration;
use crate::session::SetSession;
use map_tables::Hashes;
use papaya_map::{Pass, SharedMap};
use seize_words::Fault;
use std::hash::{Hash, RandomState};

/// A set, lent: it may go to other threads, and several may have it by reference.
#[derive(Drop)]
pub struct SharedSet<'m, K: Eq + Hash + Drop, S: Hashes<K> = RandomState> {
    map: SharedMap<'m, K, (), S>,
}

impl<'m, K: Eq + Hash + Drop, S: Hashes<K>> SharedSet<'m, K, S> {
    /// The set of the keys of this map.
    pub(crate) fn of(map: SharedMap<'m, K, (), S>) -> Self
        ensures memory { result.map.blocks.now ≡ map.entry.blocks.now }
        ensures map { result.map.seat.now.view.map ≡ map.entry.seat.now.view.map }
        ensures number { result.map.number ≡ map.entry.number }
    {
        SharedSet { map }
    }

    /// Takes a slot, and opens no section of it yet. The faults are `Fault::SlotsUsedUp` and `Fault::Memory`.
    pub fn register(&self) -> Result<SetRegistration<'m, K, S>, Fault>
        ensures memory { IfOk result (λ other. other.registration.base.caller.blocks.now ≡ self.now.map.blocks.now) }
        ensures map { IfOk result (λ other. other.registration.base.caller.seat.view.map ≡ self.now.map.seat.now.view.map) }
        ensures none { IfOk result (λ other. other.registration.base.caller.seat.view.calls ≡ []) }
        ensures number { IfOk result (λ other. other.registration.number ≡ self.now.map.number) }
    {
        let registration = self.map.register()?;
        Ok(SetRegistration::of(registration))
    }

    /// Begins a session on the set. The faults are `Fault::SlotsUsedUp` and `Fault::Memory`.
    pub fn session(&self) -> Result<SetSession<'m, K, S>, Fault>
        ensures memory { IfOk result (λ other. other.session.base.caller.blocks.now ≡ self.now.map.blocks.now) }
        ensures map { IfOk result (λ other. other.session.base.caller.seat.view.map ≡ self.now.map.seat.now.view.map) }
        ensures none { IfOk result (λ other. other.session.base.caller.seat.view.calls ≡ []) }
        ensures number { IfOk result (λ other. other.session.number ≡ self.now.map.number) }
    {
        let session = self.map.session()?;
        Ok(SetSession::of(session))
    }

    /// Makes a pass of the set, which may be sent to a thread: by it elements are looked for under any session of the set.
    pub fn pass(&self) -> Pass<K, (), S>
        ensures memory { result.base.seat.base ≡ self.now.map.blocks.now.words.id.views_name }
        ensures number { result.number ≡ self.now.map.number }
        ensures none { result.base.seat.view.calls ≡ [] }
    {
        self.map.pass()
    }
}

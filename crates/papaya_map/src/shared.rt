//! A hash map, lent to threads, each of which may begin sessions on it.
ghost use Rattle.std.specs.Prelude.{◌≡◌, ◌^◌, [], Some, None, true, IfOk, nat_lt};
ghost use Rattle.papaya_sessions.specs.Given.CallersStanding.{known_by};

mod changing;
mod looking;

use map_tables::{Hashes, Node, Setting};
use papaya_sessions::{
    OfMaps, Pass, Registration, Session, SessionBase as Base, Sleepers, newcomer,
};
use seize_blocks::{Blocks, Seat};
use seize_words::Fault;
use std::hash::{Hash, RandomState};

/// A map, lent: it may go to other threads, and several may have it by reference.
#[derive(Drop)]
pub struct SharedMap<'m, K: Eq + Hash + Drop, V: Drop, S: Hashes<K> = RandomState> {
    pub(crate) blocks: &'m Blocks<Node<K, V>, OfMaps<S>>,
    pub(crate) sleepers: &'m Sleepers,
    pub(crate) hasher: &'m S,
    pub(crate) setting: Setting,
    pub(crate) seat: &'m Seat<Node<K, V>, OfMaps<S>>,
    /// The number of its collector.
    pub(crate) number: u64,
    pub(crate) ghost own: { seat.now.base ≡ blocks.now.words.id.views_name },
    pub(crate) ghost good: { seat.now.view.by ≡ None },
    pub(crate) ghost knows: { known_by seat.now.view ≡ Some (setting, hasher.now) },
    pub(crate) ghost sized: { blocks.now.words.fixed.batch_size ≡ setting.batch_size },
    pub(crate) ghost small: { nat_lt blocks.now.words.fixed.batch_size (2 ^ 64) ≡ true },
}

impl<'m, K: Eq + Hash + Drop, V: Drop, S: Hashes<K>> SharedMap<'m, K, V, S> {
    /// Returns the number of its collector.
    pub fn number(&self) -> u64
        ensures { result ≡ self.now.number }
    {
        self.number
    }

    /// Takes a slot, and opens no section of it yet. The faults are `Fault::SlotsUsedUp` and `Fault::Memory`.
    pub fn register(&self) -> Result<Registration<'m, K, V, S>, Fault>
        ensures memory { IfOk result (λ other. other.base.caller.blocks.now ≡ self.now.blocks.now) }
        ensures map { IfOk result (λ other. other.base.caller.seat.view.map ≡ self.now.seat.now.view.map) }
        ensures none { IfOk result (λ other. other.base.caller.seat.view.calls ≡ []) }
        ensures number { IfOk result (λ other. other.number ≡ self.now.number) }
    {
        let seat = newcomer(self.blocks, self.seat);
        let base = Base::of(self.blocks, self.sleepers, self.hasher, self.setting, seat);
        Registration::begin(base, self.number)
    }

    /// Begins a session on the map. The faults are `Fault::SlotsUsedUp` and `Fault::Memory`.
    pub fn session(&self) -> Result<Session<'m, K, V, S>, Fault>
        ensures memory { IfOk result (λ session. session.base.caller.blocks.now ≡ self.now.blocks.now) }
        ensures map { IfOk result (λ session. session.base.caller.seat.view.map ≡ self.now.seat.now.view.map) }
        ensures none { IfOk result (λ session. session.base.caller.seat.view.calls ≡ []) }
        ensures number { IfOk result (λ session. session.number ≡ self.now.number) }
    {
        let registration = self.register()?;
        Ok(registration.enter())
    }

    /// Makes a pass of the map, which may be sent to a thread: by it keys are looked up under any session of the map.
    pub fn pass(&self) -> Pass<K, V, S>
        ensures memory { result.base.seat.base ≡ self.now.blocks.now.words.id.views_name }
        ensures number { result.number ≡ self.now.number }
        ensures none { result.base.seat.view.calls ≡ [] }
    {
        let seat = newcomer(self.blocks, self.seat);
        let base = Base::of(self.blocks, self.sleepers, self.hasher, self.setting, seat);
        Pass::of(&base, self.number)
    }
}

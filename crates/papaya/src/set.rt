//! A hash set that threads share, as one has it who owns it.
ghost use Rattle.std.specs.Prelude.{◌≡◌, [], true, IfOk};
ghost use Rattle.papaya_map.specs.Given.ReclaimsPromises.{IsReclaimed};
ghost use Rattle.papaya_map.specs.Given.ReclaimsRule.{freed};

use crate::registration::SetRegistration;
use crate::session::SetSession;
use crate::shared::SharedSet;
use map_tables::Hashes;
use papaya_map::HashMap;
use seize_words::Fault;
use std::hash::{Hash, RandomState};

/// A hash set that threads share: the keys of a map whose values are units. It owns its memory, its collector and its hasher.
///
/// Who owns it begins a session, and gives each thread one: `session`, and `SetSession::another`. With the set its elements are dropped.
#[derive(Drop)]
pub struct HashSet<K: Eq + Hash + Drop, S: Hashes<K> = RandomState> {
    pub(crate) map: HashMap<K, (), S>,
}

impl<K: Eq + Hash + Drop, S: Hashes<K>> HashSet<K, S> {
    /// The set of the keys of this map.
    pub(crate) fn of(map: HashMap<K, (), S>) -> Self
        ensures { result.map ≡ map }
    {
        HashSet { map }
    }

    /// Lends the same set to threads: they may begin sessions of their own.
    pub fn shared(&self) -> SharedSet<'_, K, S>
        ensures memory { result.map.blocks.now ≡ self.now.map.home.blocks }
        ensures map { result.map.seat.now.view.map ≡ self.now.map.seat.view.map }
        ensures number { result.map.number ≡ self.now.map.collector.number }
    {
        SharedSet::of(self.map.shared())
    }

    /// Takes a slot of the set, and opens no section of it yet: a thread that comes and goes may keep it. The faults are `Fault::SlotsUsedUp` and `Fault::Memory`.
    pub fn register(&self) -> Result<SetRegistration<'_, K, S>, Fault>
        ensures memory { IfOk result (λ other. other.registration.base.caller.blocks.now ≡ self.now.map.home.blocks) }
        ensures map { IfOk result (λ other. other.registration.base.caller.seat.view.map ≡ self.now.map.seat.view.map) }
        ensures none { IfOk result (λ other. other.registration.base.caller.seat.view.calls ≡ []) }
        ensures number { IfOk result (λ other. other.registration.number ≡ self.now.map.collector.number) }
    {
        let registration = self.map.register()?;
        Ok(SetRegistration::of(registration))
    }

    /// Begins a session on the set, which may be sent to a thread, and from which others are made. The faults are `Fault::SlotsUsedUp` and `Fault::Memory`.
    pub fn session(&self) -> Result<SetSession<'_, K, S>, Fault>
        ensures memory { IfOk result (λ other. other.session.base.caller.blocks.now ≡ self.now.map.home.blocks) }
        ensures map { IfOk result (λ other. other.session.base.caller.seat.view.map ≡ self.now.map.seat.view.map) }
        ensures none { IfOk result (λ other. other.session.base.caller.seat.view.calls ≡ []) }
        ensures number { IfOk result (λ other. other.session.number ≡ self.now.map.collector.number) }
    {
        let session = self.map.session()?;
        Ok(SetSession::of(session))
    }

    /// Reclaims all that waits in the set, as `HashMap::reclaim_all` does. Elements of the set stay.
    pub fn reclaim_all(&mut self) -> bool
        ensures owns { result ≡ true }
        ensures collector { self.new.map.collector ≡ self.old.map.collector }
        ensures hasher { self.new.map.hasher ≡ self.old.map.hasher }
        ensures setting { self.new.map.setting ≡ self.old.map.setting }
        ensures words { self.new.map.home.blocks.words.words ≡ self.old.map.home.blocks.words.words }
        ensures fixed { self.new.map.home.blocks.words.fixed ≡ self.old.map.home.blocks.words.fixed }
        ensures knows { self.new.map.seat.view ≡ freed self.old.map.seat.view }
        ensures empty { IsReclaimed K.eq S.hash self.new.map.home.blocks.words.fixed self.new.map.home.blocks.words.start }
    {
        self.map.reclaim_all()
    }
}

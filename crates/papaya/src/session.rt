//! A set, as one of those has it who share it: with a slot of its own, within a section.
ghost use Rattle.std.specs.Prelude.{◌≡◌, ◌≢◌, [], IfOk, IfErr};
ghost use Rattle.papaya.specs.OneSet.{SetCameToHave, SetCounted, SetGaveUp, SetHad, SetHadRoom, SetHadUnder, SetLookedEmpty, SetWasCleared};
ghost use Rattle.papaya_map.specs.Given.SessionsHomes.{OneSource, home_of};
ghost use Rattle.papaya_map.specs.Given.SessionsOneMap.{WasRefused};
ghost use Rattle.papaya_map.specs.Given.SessionsKept.{KeepsMap};
ghost use Rattle.papaya_map.specs.Given.SessionsSessions.{HasMadeNone};
ghost use Rattle.papaya_map.specs.Given.ActsActs.{Insert, MakeRoom, Remove};
ghost use Rattle.seize_words.specs.declared.fault.Fault.TheVariants.{ForeignGuard};
ghost use Rattle.papaya_map.specs.Given.CallsAnswers.{clears};

mod sweeping;

use map_tables::Hashes;
use papaya_map::{Form, Pass, Session};
use seize_words::{Fault, Refused, RefusedKey};
use std::hash::{Hash, RandomState};
use std::sync::Wait;

/// A set, as one of those has it who share it: a session of the map whose keys are its elements. It may be sent to a thread, and holds a slot, within a section that is open
/// from its beginning to its end. Calls of a `SharedSet` take it as their guard.
#[derive(Drop)]
pub struct SetSession<'m, K: Eq + Hash + Drop, S: Hashes<K> = RandomState> {
    pub(crate) session: Session<'m, K, (), S>,
}

impl<'m, K: Eq + Hash + Drop, S: Hashes<K>> SetSession<'m, K, S> {
    /// The one of this session of its map.
    pub(crate) fn of(session: Session<'m, K, (), S>) -> Self
        ensures caller { result.session.base.caller ≡ session.entry.base.caller }
        ensures number { result.session.number ≡ session.entry.number }
    {
        SetSession { session }
    }

    /// The session of its map.
    pub(crate) fn session(&self) -> &Session<'m, K, (), S>
        ensures { result.now ≡ self.now.session }
    {
        &self.session
    }

    /// Returns the number of its set's collector.
    pub fn number(&self) -> u64
        ensures { result ≡ self.now.session.number }
    {
        self.session.number()
    }

    /// Makes a pass of its set, which may be sent to a thread, and serves any session of that set.
    pub fn pass(&self) -> Pass<K, (), S>
        ensures memory { result.base.seat.base ≡ self.now.session.base.caller.blocks.now.words.id.views_name }
        ensures number { result.number ≡ self.now.session.number }
        ensures none { result.base.seat.view.calls ≡ [] }
    {
        self.session.pass()
    }

    /// Begins one more session on the same set. The faults are `Fault::SlotsUsedUp` and `Fault::Memory`.
    pub fn another(&self) -> Result<SetSession<'m, K, S>, Fault>
        ensures memory { IfOk result (λ other. other.session.base.caller.blocks.now ≡ self.now.session.base.caller.blocks.now) }
        ensures map { IfOk result (λ other. other.session.base.caller.seat.view.map ≡ self.now.session.base.caller.seat.view.map) }
        ensures none { IfOk result (λ other. other.session.base.caller.seat.view.calls ≡ []) }
        ensures number { IfOk result (λ other. other.session.number ≡ self.now.session.number) }
    {
        let session = self.session.another()?;
        Ok(SetSession { session })
    }

    /// Ends its section, and opens another one.
    pub fn refresh(&mut self)
        ensures same { HasMadeNone self.old.session.base.caller self.new.session.base.caller }
        ensures number { self.new.session.number ≡ self.old.session.number }
    {
        self.session.refresh();
    }

    /// Returns whether the set has an element that equals this key.
    pub fn contains<R: Wait, Q: Form<K, S>>(&mut self, rt: &R, key: &Q) -> bool
        ensures keeps { KeepsMap self.old.session self.new.session }
        ensures sought { SetHad K.eq S.hash (Q.stands_for key.now) result self.old.session.base.caller self.new.session.base.caller }
    {
        self.session.contains_key(rt, key)
    }

    /// Returns whether it has one, by a pass. A pass of another set is `Fault::ForeignGuard`, and it is as it was.
    pub fn contains_by<R: Wait, Q: Form<K, S>>(
        &self,
        rt: &R,
        key: &Q,
        pass: &mut Pass<K, (), S>,
    ) -> Result<bool, Fault>
        requires source { OneSource pass.old.number pass.old.base.seat.base (home_of self.now.session.number self.now.session.base.caller) }
        ensures memory { pass.new.base.seat.base ≡ pass.old.base.seat.base }
        ensures number { pass.new.number ≡ pass.old.number }
        ensures foreign { IfErr result (λ fault. (fault ≡ ForeignGuard) × (pass.old.number ≢ self.now.session.number) × (pass.new ≡ pass.old)) }
        ensures own { IfOk result (λ _. pass.old.number ≡ self.now.session.number) }
        ensures one_set { IfOk result (λ there. SetHadUnder K.eq S.hash (Q.stands_for key.now) there self.now.session.base.caller pass.old.base.seat.view pass.new.base.seat.view) }
    {
        self.session.contains_key_by(rt, key, pass)
    }

    /// Puts a key into the set, also in the place of an element that equals it, and answers whether none did. The faults are `Fault::Capacity` and `Fault::Memory`; then the
    /// set has not changed, and the key comes back.
    pub fn insert<R: Wait>(&mut self, rt: &R, key: K) -> Result<bool, RefusedKey<K>>
        ensures keeps { KeepsMap self.old.session self.new.session }
        ensures put { IfOk result (λ new. SetCameToHave K.eq S.hash key new self.old.session.base.caller self.new.session.base.caller) }
        ensures refused { IfErr result (λ r. WasRefused K.eq S.hash (Insert key tt) r.fault self.old.session.base.caller self.new.session.base.caller) }
        ensures back { IfErr result (λ r. r.key ≡ key) }
    {
        match self.session.insert(rt, key, ()) {
            Ok(old) => Ok(old.is_none()),
            Err(
                Refused {
                    fault,
                    key,
                    value: _,
                },
            ) => Err(RefusedKey { fault, key }),
        }
    }

    /// Takes the element out that equals this key, and answers whether there was one. It is dropped once no section that was open before holds it. The faults are
    /// `Fault::Capacity` and `Fault::Memory`; then the set has not changed.
    pub fn remove<R: Wait, Q: Form<K, S>>(&mut self, rt: &R, key: &Q) -> Result<bool, Fault>
        ensures keeps { KeepsMap self.old.session self.new.session }
        ensures taken { IfOk result (λ there. SetGaveUp K.eq S.hash (Q.stands_for key.now) there self.old.session.base.caller self.new.session.base.caller) }
        ensures refused { IfErr result (λ fault. WasRefused K.eq S.hash (Remove (Q.stands_for key.now)) fault self.old.session.base.caller self.new.session.base.caller) }
    {
        match self.session.take(rt, key) {
            Ok(taken) => Ok(taken.is_some()),
            Err(fault) => Err(fault),
        }
    }

    /// Returns how many elements the set has, by its count: of each shard of that what it says at a moment of the call. While other threads change the set, that
    /// may be what it never had at one moment; where nobody does it is how many there are.
    pub fn len(&mut self) -> u64
        ensures keeps { KeepsMap self.old.session self.new.session }
        ensures counted { SetCounted K.eq S.hash result self.old.session.base.caller self.new.session.base.caller }
    {
        self.session.len()
    }

    /// Returns whether the set has no element, by its count.
    pub fn is_empty(&mut self) -> bool
        ensures keeps { KeepsMap self.old.session self.new.session }
        ensures counted { SetLookedEmpty K.eq S.hash result self.old.session.base.caller self.new.session.base.caller }
    {
        self.session.is_empty()
    }

    /// Makes room for so many further elements, so that as many may be put before a table is made. The faults are `Fault::Capacity` and `Fault::Memory`. It changes no element.
    pub fn reserve<R: Wait>(&mut self, rt: &R, additional: u64) -> Result<(), Fault>
        ensures keeps { KeepsMap self.old.session self.new.session }
        ensures reserved { IfOk result (λ _. SetHadRoom K.eq S.hash additional self.old.session.base.caller self.new.session.base.caller) }
        ensures refused { IfErr result (λ fault. WasRefused K.eq S.hash (MakeRoom additional) fault self.old.session.base.caller self.new.session.base.caller) }
    {
        self.session.reserve(rt, additional)
    }

    /// Removes each element that the set has from the beginning of the call to its end; those that others put meanwhile may stay. What was removed is dropped once no section
    /// that was open before holds it. The faults are `Fault::Capacity` and `Fault::Memory`, of a table that this needs first; some elements may be gone then.
    pub fn clear<R: Wait>(&mut self, rt: &R) -> Result<(), Fault>
        ensures keeps { KeepsMap self.old.session self.new.session }
        ensures cleared { IfOk result (λ _. SetWasCleared K.eq S.hash self.old.session.base.caller self.new.session.base.caller) }
        ensures refused { IfErr result (λ fault. WasRefused K.eq S.hash clears fault self.old.session.base.caller self.new.session.base.caller) }
    {
        self.session.clear(rt)
    }
}

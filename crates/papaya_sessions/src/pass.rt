//! Passes and pins: by them threads look keys up under a session that they have by `&`, so that many may at a time.
ghost use Rattle.std.specs.Prelude.{◌≡◌, ◌≢◌, [], IfOk, IfErr, option_map};
ghost use Rattle.papaya_sessions.specs.Homes.{OneSource, home_of};
ghost use Rattle.papaya_sessions.specs.Under.{HasGotPairUnder, HasGotUnder, HasSoughtUnder};
ghost use Rattle.seize_words.specs.declared.fault.Fault.TheVariants.{ForeignGuard};

use crate::session::Session;
use map_tables::Hashes;
use seize_words::Fault;
use std::hash::{Hash, RandomState};
use std::sync::Wait;
use threads_updates::{Form, MapPassSeat as Seat, SessionBase as Base};

/// A pass of a map. It holds no slot, and rests between two calls; it may go to another thread, and outlive the sessions that it was under.
#[derive(Drop)]
pub struct Pass<K: Eq + Hash + Drop, V: Drop, S: Hashes<K> = RandomState> {
    pub(crate) base: Seat<K, V, S>,
    number: u64,
}

impl<K: Eq + Hash + Drop, V: Drop, S: Hashes<K>> Pass<K, V, S> {
    /// Makes one more of the memory of this one who shares a map, whose collector has this number.
    pub fn of(base: &Base<'_, K, V, S>, number: u64) -> Self
        ensures memory { result.base.seat.base ≡ base.now.caller.blocks.now.words.id.views_name }
        ensures number { result.number ≡ number }
        ensures none { result.base.seat.view.calls ≡ [] }
    {
        Pass {
            base: base.pass(),
            number,
        }
    }

    /// Returns the number of its map's collector.
    pub fn number(&self) -> u64
        ensures { result ≡ self.now.number }
    {
        self.number
    }
}

/// Returns the value of a pair that is lent, if one is.
fn value_of<'g, K, V>(found: Option<(&'g K, &'g V)>) -> Option<&'g V>
    ensures { option_map (λ value. value.now) result ≡ option_map (λ pair. pair.1.now) found.entry }
{
    match found {
        Some((_, value)) => Some(value),
        None => None,
    }
}

/// A map, as one of those has it who look keys up under a session that is lent to them. What it has found is lent for as long as the session is, whatever the pin does then. It
/// may be sent to a thread, and any number of them may be under a session at a time.
#[derive(Drop)]
pub struct HashMapRef<'g, 'm, K: Eq + Hash + Drop, V: Drop, S: Hashes<K> = RandomState> {
    session: &'g Session<'m, K, V, S>,
    pass: Pass<K, V, S>,
    ghost own: { pass.base.seat.base ≡ session.now.base.caller.blocks.now.words.id.views_name },
}

impl<'m, K: Eq + Hash + Drop, V: Drop, S: Hashes<K>> Session<'m, K, V, S> {
    /// Makes a pass of its map, which may be sent to a thread, and serves any session of that map.
    pub fn pass(&self) -> Pass<K, V, S>
        ensures memory { result.base.seat.base ≡ self.now.base.caller.blocks.now.words.id.views_name }
        ensures number { result.number ≡ self.now.number }
        ensures none { result.base.seat.view.calls ≡ [] }
    {
        Pass::of(&self.base, self.number)
    }

    /// Looks a key up by a pass, and lends its pair, if the map has one, for as long as the session is borrowed, whatever the pass does then, and whoever replaces or
    /// removes the pair meanwhile. How many steps that takes is up to the others. A pass of another map is `Fault::ForeignGuard`, and it is as it was.
    pub fn get_key_value_by<'g, R: Wait, Q: Form<K, S>>(
        &'g self,
        rt: &R,
        key: &Q,
        pass: &mut Pass<K, V, S>,
    ) -> Result<Option<(&'g K, &'g V)>, Fault>
        requires source { OneSource pass.old.number pass.old.base.seat.base (home_of self.now.number self.now.base.caller) }
        ensures memory { pass.new.base.seat.base ≡ pass.old.base.seat.base }
        ensures number { pass.new.number ≡ pass.old.number }
        ensures foreign { IfErr result (λ fault. (fault ≡ ForeignGuard) × (pass.old.number ≢ self.now.number) × (pass.new ≡ pass.old)) }
        ensures own { IfOk result (λ _. pass.old.number ≡ self.now.number) }
        ensures got { IfOk result (λ found. HasGotPairUnder K.eq S.hash (Q.stands_for key.now) self.now.base.caller (option_map (λ pair. (pair.0.now, pair.1.now)) found)
            pass.old.base.seat.view pass.new.base.seat.view) }
    {
        if pass.number() != self.number {
            return Err(Fault::ForeignGuard);
        }
        Ok(self.base.find_by(rt, key, &mut pass.base))
    }

    /// Looks a key up as `get_key_value_by` does, and lends the value of its pair, if the map has one.
    pub fn get_by<'g, R: Wait, Q: Form<K, S>>(
        &'g self,
        rt: &R,
        key: &Q,
        pass: &mut Pass<K, V, S>,
    ) -> Result<Option<&'g V>, Fault>
        requires source { OneSource pass.old.number pass.old.base.seat.base (home_of self.now.number self.now.base.caller) }
        ensures memory { pass.new.base.seat.base ≡ pass.old.base.seat.base }
        ensures number { pass.new.number ≡ pass.old.number }
        ensures foreign { IfErr result (λ fault. (fault ≡ ForeignGuard) × (pass.old.number ≢ self.now.number) × (pass.new ≡ pass.old)) }
        ensures own { IfOk result (λ _. pass.old.number ≡ self.now.number) }
        ensures got { IfOk result (λ found. HasGotUnder K.eq S.hash (Q.stands_for key.now) self.now.base.caller (option_map (λ value. value.now) found)
            pass.old.base.seat.view pass.new.base.seat.view) }
    {
        let found = self.get_key_value_by(rt, key, pass)?;
        Ok(value_of(found))
    }

    /// Returns whether the map has a pair of this key, by a pass. A pass of another map is `Fault::ForeignGuard`, and it is as it was.
    pub fn contains_key_by<R: Wait, Q: Form<K, S>>(
        &self,
        rt: &R,
        key: &Q,
        pass: &mut Pass<K, V, S>,
    ) -> Result<bool, Fault>
        requires source { OneSource pass.old.number pass.old.base.seat.base (home_of self.now.number self.now.base.caller) }
        ensures memory { pass.new.base.seat.base ≡ pass.old.base.seat.base }
        ensures number { pass.new.number ≡ pass.old.number }
        ensures foreign { IfErr result (λ fault. (fault ≡ ForeignGuard) × (pass.old.number ≢ self.now.number) × (pass.new ≡ pass.old)) }
        ensures own { IfOk result (λ _. pass.old.number ≡ self.now.number) }
        ensures sought { IfOk result (λ there. HasSoughtUnder K.eq S.hash (Q.stands_for key.now) self.now.base.caller there pass.old.base.seat.view pass.new.base.seat.view) }
    {
        let found = self.get_key_value_by(rt, key, pass)?;
        Ok(found.is_some())
    }

    /// Makes a pin of its map, under it.
    pub fn pin(&self) -> HashMapRef<'_, 'm, K, V, S>
        ensures session { result.session.now ≡ self.now }
        ensures none { result.pass.base.seat.view.calls ≡ [] }
    {
        HashMapRef {
            session: self,
            pass: self.pass(),
        }
    }
}

impl<'g, 'm, K: Eq + Hash + Drop, V: Drop, S: Hashes<K>> HashMapRef<'g, 'm, K, V, S> {
    /// Returns the session under which it looks keys up.
    pub fn session(&self) -> &'g Session<'m, K, V, S>
        ensures { result.now ≡ self.now.session.now }
    {
        self.session
    }

    /// Looks a key up, and lends its pair, if the map has one, for as long as the session is lent, whoever replaces or removes the pair meanwhile. How many steps that takes
    /// is up to the others.
    pub fn get_key_value<R: Wait, Q: Form<K, S>>(
        &mut self,
        rt: &R,
        key: &Q,
    ) -> Option<(&'g K, &'g V)>
        ensures session { self.new.session ≡ self.old.session }
        ensures got { HasGotPairUnder K.eq S.hash (Q.stands_for key.now) self.old.session.now.base.caller (option_map (λ pair. (pair.0.now, pair.1.now)) result)
            self.old.pass.base.seat.view self.new.pass.base.seat.view }
    {
        let session = self.session;
        session.base.find_by(rt, key, &mut self.pass.base)
    }

    /// Looks a key up as `get_key_value` does, and lends the value of its pair, if the map has one.
    pub fn get<R: Wait, Q: Form<K, S>>(&mut self, rt: &R, key: &Q) -> Option<&'g V>
        ensures session { self.new.session ≡ self.old.session }
        ensures got { HasGotUnder K.eq S.hash (Q.stands_for key.now) self.old.session.now.base.caller (option_map (λ value. value.now) result)
            self.old.pass.base.seat.view self.new.pass.base.seat.view }
    {
        let found = self.get_key_value(rt, key);
        value_of(found)
    }

    /// Returns whether the map has a pair of this key.
    pub fn contains_key<R: Wait, Q: Form<K, S>>(&mut self, rt: &R, key: &Q) -> bool
        ensures session { self.new.session ≡ self.old.session }
        ensures sought { HasSoughtUnder K.eq S.hash (Q.stands_for key.now) self.old.session.now.base.caller result self.old.pass.base.seat.view self.new.pass.base.seat.view }
    {
        let found = self.get_key_value(rt, key);
        found.is_some()
    }
}

//! Pins of a set: a session that is lent, with a pass of its own, so that looking asks for nothing.
ghost use Rattle.std.specs.Prelude.{◌≡◌, option_map};
ghost use Rattle.papaya.specs.OneSet.{SetHadUnder, SetLentUnder};

use crate::session::SetSession;
use map_tables::Hashes;
use papaya_map::{Form, HashMapRef};
use std::hash::{Hash, RandomState};
use std::sync::Wait;

/// Returns the element of a pair that is lent, if one is.
pub(crate) fn element_of<'g, K>(found: Option<(&'g K, &'g ())>) -> Option<&'g K>
    ensures { option_map (λ key. key.now) result ≡ option_map (λ pair. pair.0.now) found.entry }
{
    match found {
        Some((key, _)) => Some(key),
        None => None,
    }
}

/// A set, as one of those has it who look for elements under a session that is lent to them. It may be sent to a thread, and any number of them may be under a session at a
/// time.
#[derive(Drop)]
pub struct HashSetRef<'g, 'm, K: Eq + Hash + Drop, S: Hashes<K> = RandomState> {
    session: &'g SetSession<'m, K, S>,
    pin: HashMapRef<'g, 'm, K, (), S>,
}

impl<'m, K: Eq + Hash + Drop, S: Hashes<K>> SetSession<'m, K, S> {
    /// Makes a pin of its set, under it.
    pub fn pin(&self) -> HashSetRef<'_, 'm, K, S>
        ensures session { (result.session.now ≡ self.now) × (result.pin.session.now ≡ self.now.session) }
    {
        HashSetRef {
            session: self,
            pin: self.session().pin(),
        }
    }
}

impl<'g, 'm, K: Eq + Hash + Drop, S: Hashes<K>> HashSetRef<'g, 'm, K, S> {
    /// Returns the session under which it looks for elements.
    pub fn session(&self) -> &'g SetSession<'m, K, S>
        ensures { result.now ≡ self.now.session.now }
    {
        self.session
    }

    /// Looks for the element that equals this key, and lends it, if the set has one, for as long as the session is lent, whoever takes it out meanwhile.
    pub fn get<R: Wait, Q: Form<K, S>>(&mut self, rt: &R, key: &Q) -> Option<&'g K>
        ensures session { (self.new.session ≡ self.old.session) × (self.new.pin.session ≡ self.old.pin.session) }
        ensures one_set { SetLentUnder K.eq S.hash (Q.stands_for key.now) (option_map (λ element. element.now) result) self.old.pin.session.now.base.caller
            self.old.pin.pass.base.seat.view self.new.pin.pass.base.seat.view }
    {
        let found = self.pin.get_key_value(rt, key);
        element_of(found)
    }

    /// Returns whether the set has an element that equals this key.
    pub fn contains<R: Wait, Q: Form<K, S>>(&mut self, rt: &R, key: &Q) -> bool
        ensures session { (self.new.session ≡ self.old.session) × (self.new.pin.session ≡ self.old.pin.session) }
        ensures one_set { SetHadUnder K.eq S.hash (Q.stands_for key.now) result self.old.pin.session.now.base.caller self.old.pin.pass.base.seat.view self.new.pin.pass.base.seat.view }
    {
        self.pin.contains_key(rt, key)
    }
}

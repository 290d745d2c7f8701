//! Walks by steps over a set: a session lists clones of its elements, and lends those that equal listed keys, one after another.
ghost use Rattle.std.specs.Prelude.{◌≡◌, ◌<◌, IfErr, IfOk, IfSome, option_map};
ghost use Rattle.std.specs.Vec.Iter.{into_iter_items, into_iter_len};
ghost use Rattle.papaya.specs.OneSet.{SetGoesOn};
ghost use Rattle.papaya_map.specs.Given.SessionsKept.{KeepsMap};
ghost use Rattle.papaya_map.specs.Given.SessionsWalked.{HasListed, WasNotListed};

use crate::pin::element_of;
use crate::session::SetSession;
use map_tables::Hashes;
use papaya_map::{Form, Walk};
use seize_words::Fault;
use std::alloc::Global;
use std::hash::{Hash, RandomState};
use std::sync::Wait;

/// A walk over the elements that equal listed keys, which go by forms of them. What it lends is lent for as long as its session is, whatever the walk does then.
#[derive(Drop)]
pub struct SetWalk<'g, 'm, K: Eq + Hash + Drop, Q: Drop, S: Hashes<K> = RandomState> {
    walk: Walk<'g, 'm, K, (), Q, S>,
}

impl<'m, K: Eq + Hash + Clone + Drop, S: Hashes<K>> SetSession<'m, K, S> {
    /// Lists the elements of the set, as clones of those that a walk tells: each that is there from the beginning of the call to its end once, and others that were there at a moment
    /// of it. The faults are `Fault::Capacity` and `Fault::Memory`, of a table that this needs first, and `Fault::Memory`, where there was none for the list.
    pub fn elements<R: Wait>(&mut self, rt: &R, alloc: Global) -> Result<Vec<K>, Fault>
        ensures keeps { KeepsMap self.old.session self.new.session }
        ensures listed { IfOk result (λ elements. HasListed K.eq S.hash K.is_clone elements.items self.old.session.base.caller self.new.session.base.caller) }
        ensures refused { IfErr result (λ fault. WasNotListed K.eq S.hash fault self.old.session.base.caller self.new.session.base.caller) }
    {
        self.session.keys(rt, alloc)
    }
}

impl<'m, K: Eq + Hash + Drop, S: Hashes<K>> SetSession<'m, K, S> {
    /// Begins a walk over the elements that equal these keys, or those for which these forms stand, in this order.
    pub fn walk<Q: Form<K, S> + Drop>(&self, keys: Vec<Q>) -> SetWalk<'_, 'm, K, Q, S>
        ensures session { result.walk.pin.session.now ≡ self.now.session }
        ensures keys { into_iter_items result.walk.keys ≡ keys.items }
    {
        SetWalk {
            walk: self.session().walk(keys),
        }
    }
}

impl<'g, 'm, K: Eq + Hash + Drop, Q: Form<K, S> + Drop, S: Hashes<K>> SetWalk<'g, 'm, K, Q, S> {
    /// Looks for the element that equals the next key, and the keys after it where the set has none, and lends the first one that it has, or none, if it has come to the end of the
    /// list.
    pub fn next<R: Wait>(&mut self, rt: &R) -> Option<&'g K>
        ensures session { self.new.walk.pin.session ≡ self.old.walk.pin.session }
        ensures fewer { IfSome result (λ _. into_iter_len self.new.walk.keys < into_iter_len self.old.walk.keys) }
        ensures next { SetGoesOn K.eq S.hash Q.stands_for self.old.walk.pin.session.now.base.caller (option_map (λ element. element.now) result)
            (into_iter_items self.old.walk.keys) self.old.walk.pin.pass.base.seat.view (into_iter_items self.new.walk.keys) self.new.walk.pin.pass.base.seat.view }
    {
        let found = self.walk.next(rt);
        element_of(found)
    }
}

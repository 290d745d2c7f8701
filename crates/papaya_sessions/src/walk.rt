//! Walks by steps: a session lists clones of the keys or of the values that a walk tells, and lends the pairs of listed keys, one after another.
ghost use Rattle.std.specs.Prelude.{◌≡◌, ◌<◌, ◌∷◌, ◌++◌, [], false, IfErr, IfOk, IfSome, OnOk, option_map};
ghost use Rattle.std.specs.Vec.Iter.{into_iter_items, into_iter_len};
ghost use Rattle.papaya_sessions.specs.Kept.{KeepsMap};
ghost use Rattle.papaya_sessions.specs.Walked.{GoesOn, HasListed, HasListedValues, PutsClone, WasNotListed};
ghost use Rattle.seize_words.specs.declared.fault.Fault.TheVariants.{Memory};

use crate::pass::HashMapRef;
use crate::session::Session;
use map_tables::Hashes;
use seize_words::Fault;
use std::alloc::{AllocError, Global};
use std::hash::{Hash, RandomState};
use std::sync::Wait;
use std::vec::IntoIter;
use threads_sweeps::Onlooker;
use threads_updates::Form;

/// Clones of those of which a walk has told so far, and whether memory was refused to one: of keys, where it looks on itself.
#[derive(Drop)]
struct Listing<T> {
    items: Vec<T>,
    refused: bool,
}

/// Puts a clone of this one after these.
fn put_clone<T: Clone + Drop>(items: &mut Vec<T>, one: &T) -> Result<(), AllocError>
    ensures put { OnOk result ((own : T) × T.is_clone one.now own × (items.new.items ≡ items.old.items ++ (own ∷ []))) }
{
    let own = one.clone()?;
    items.push(own)?;
    Ok(())
}

impl<T: Clone + Drop> Listing<T> {
    /// Lists one more, as long as memory was refused to none.
    fn lists(&mut self, one: &T)
        ensures { PutsClone T.is_clone one.now self.old.refused self.old.items.items self.new.refused self.new.items.items }
    {
        if self.refused {
            return;
        }
        match put_clone(&mut self.items, one) {
            Ok(()) => {}
            Err(_) => self.refused = true,
        }
    }
}

/// Returns those that are listed, or `Fault::Memory`, where that was refused to one.
fn listed<T: Drop>(told: Listing<T>) -> Result<Vec<T>, Fault>
    ensures all { IfOk result (λ items. (told.refused ≡ false) × (items.items ≡ told.items.items)) }
    ensures fault { IfErr result (λ fault. fault ≡ Memory) }
{
    let Listing { items, refused } = told;
    if refused {
        Err(Fault::Memory)
    } else {
        Ok(items)
    }
}

impl<K: Clone + Drop, V> Onlooker<K, V> for Listing<K> {
    ghost may_see = { λ listed. Unit {0} };

    ghost has_seen = { λ listed key value n. PutsClone K.is_clone key listed.refused listed.items.items n.refused n.items.items };

    fn sees(&mut self, key: &K, _: &V) {
        self.lists(key);
    }
}

/// Looks on for values.
#[derive(Drop)]
struct ListingValues<V> {
    values: Listing<V>,
}

impl<K, V: Clone + Drop> Onlooker<K, V> for ListingValues<V> {
    ghost may_see = { λ listed. Unit {0} };

    ghost has_seen = { λ listed key value n. PutsClone V.is_clone value listed.values.refused listed.values.items.items n.values.refused n.values.items.items };

    fn sees(&mut self, _: &K, value: &V) {
        self.values.lists(value);
    }
}

impl<'m, K: Eq + Hash + Clone + Drop, V: Drop, S: Hashes<K>> Session<'m, K, V, S> {
    /// Lists the keys of the map, as clones of those of the pairs that a walk tells: of each pair that is there from the beginning of the call to its end once, and of others that
    /// were there at a moment of it. The faults are `Fault::Capacity` and `Fault::Memory`, of a table that this needs first, and `Fault::Memory`, where there was none for the list.
    pub fn keys<R: Wait>(&mut self, rt: &R, alloc: Global) -> Result<Vec<K>, Fault>
        ensures keeps { KeepsMap self.old self.new }
        ensures listed { IfOk result (λ keys. HasListed K.eq S.hash K.is_clone keys.items self.old.base.caller self.new.base.caller) }
        ensures refused { IfErr result (λ fault. WasNotListed K.eq S.hash fault self.old.base.caller self.new.base.caller) }
    {
        let none = Listing {
            items: Vec::new(alloc),
            refused: false,
        };
        let (end, told) = self.shows_to(rt, none);
        match end {
            Ok(()) => listed(told),
            Err(fault) => Err(fault),
        }
    }
}

impl<'m, K: Eq + Hash + Drop, V: Clone + Drop, S: Hashes<K>> Session<'m, K, V, S> {
    /// Lists the values of the map, as clones of those of the pairs of which `keys` lists the keys, with the same faults.
    pub fn values<R: Wait>(&mut self, rt: &R, alloc: Global) -> Result<Vec<V>, Fault>
        ensures keeps { KeepsMap self.old self.new }
        ensures listed { IfOk result (λ values. HasListedValues K.eq S.hash V.is_clone values.items self.old.base.caller self.new.base.caller) }
        ensures refused { IfErr result (λ fault. WasNotListed K.eq S.hash fault self.old.base.caller self.new.base.caller) }
    {
        let none = ListingValues {
            values: Listing {
                items: Vec::new(alloc),
                refused: false,
            },
        };
        let (end, told) = self.shows_to(rt, none);
        match end {
            Ok(()) => listed(told.values),
            Err(fault) => Err(fault),
        }
    }
}

/// A walk over the pairs of listed keys, which go by forms of them. What it lends is lent for as long as its session is, whatever the walk does then; it may end before it has come
/// to all of them.
#[derive(Drop)]
pub struct Walk<'g, 'm, K: Eq + Hash + Drop, V: Drop, Q: Drop, S: Hashes<K> = RandomState> {
    pin: HashMapRef<'g, 'm, K, V, S>,
    keys: IntoIter<Q>,
}

impl<'m, K: Eq + Hash + Drop, V: Drop, S: Hashes<K>> Session<'m, K, V, S> {
    /// Begins a walk over the pairs of these keys, or of those for which these forms stand, in this order.
    pub fn walk<Q: Form<K, S> + Drop>(&self, keys: Vec<Q>) -> Walk<'_, 'm, K, V, Q, S>
        ensures session { result.pin.session.now ≡ self.now }
        ensures keys { into_iter_items result.keys ≡ keys.items }
        ensures none { result.pin.pass.base.seat.view.calls ≡ [] }
    {
        Walk {
            pin: self.pin(),
            keys: keys.into_iter(),
        }
    }
}

impl<'g, 'm, K: Eq + Hash + Drop, V: Drop, Q: Form<K, S> + Drop, S: Hashes<K>> Walk<
    'g,
    'm,
    K,
    V,
    Q,
    S,
> {
    /// Looks the next key up, and those after it where the map has no pair of that, and lends the pair of the first one that it has, or none, if it has come to the end of the list.
    pub fn next<R: Wait>(&mut self, rt: &R) -> Option<(&'g K, &'g V)>
        ensures session { self.new.pin.session ≡ self.old.pin.session }
        ensures fewer { IfSome result (λ _. into_iter_len self.new.keys < into_iter_len self.old.keys) }
        ensures next { GoesOn K.eq S.hash Q.stands_for self.old.pin.session.now.base.caller (option_map (λ pair. (pair.0.now, pair.1.now)) result)
            (into_iter_items self.old.keys) self.old.pin.pass.base.seat.view (into_iter_items self.new.keys) self.new.pin.pass.base.seat.view }
    {
        while let Some(key) = self.keys.next() {
            if let Some(pair) = self.pin.get_key_value(rt, &key) {
                return Some(pair);
            }
        }
        None
    }
}

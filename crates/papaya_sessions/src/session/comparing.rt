//! A session compares its map with that of another one.
ghost use Rattle.std.specs.Prelude.{◌≡◌, IfErr, IfOk};
ghost use Rattle.papaya_sessions.specs.Compared.{ComparesOnce, HasCompared, HasComparedMaps, HasComparedPair, WasNotCompared};
ghost use Rattle.papaya_sessions.specs.Kept.{KeepsMap};
ghost use Rattle.papaya_sessions.specs.OneMap.{WasRefused};
ghost use Rattle.threads_sweeps.specs.Swept.{walks};
ghost use Rattle.threads_updates.specs.Given.OwnedOwned.{hashed_by};

use super::Session;
use crate::pass::HashMapRef;
use map_tables::Hashes;
use seize_words::Fault;
use std::hash::{BuildHasher, Hash};
use std::sync::Wait;
use threads_sweeps::Onlooker;

/// A pin of the other map, in which each pair that a walk shows is looked for, until one is not there with an equal value.
#[derive(Drop)]
struct Compares<'c, 'g, 'o, R, K: Eq + Hash + Drop, V: Drop, T: Hashes<K>> {
    rt: &'c R,
    pin: HashMapRef<'g, 'o, K, V, T>,
    alike: bool,
}

/// Returns whether a map has an equal value at this key.
fn has_equal<R: Wait, K: Eq + Hash + Drop, V: PartialEq + Drop, T: BuildHasher>(
    rt: &R,
    pin: &mut HashMapRef<'_, '_, K, V, T>,
    key: &K,
    value: &V,
) -> bool
    ensures session { pin.new.session ≡ pin.old.session }
    ensures compared { HasComparedPair K.eq (hashed_by T.Hasher.finish T.Hasher.write T.build_hasher K.hash_input) V.eq pin.old.session.now.base.caller (key.now, value.now) result
        pin.old.pass.base.seat.view pin.new.pass.base.seat.view }
{
    match pin.get(rt, key) {
        Some(there) => value == there,
        None => false,
    }
}

impl<'c, 'g, 'o, R: Wait, K: Eq + Hash + Drop, V: PartialEq + Drop, T: BuildHasher> Onlooker<K, V>
    for Compares<'c, 'g, 'o, R, K, V, T> {
    ghost may_see = { λ c. Unit {0} };

    ghost has_seen = { λ c key value n. (n.pin.session ≡ c.pin.session) × ComparesOnce K.eq (hashed_by T.Hasher.finish T.Hasher.write T.build_hasher K.hash_input) V.eq
        c.pin.session.now.base.caller (key, value) c.alike c.pin.pass.base.seat.view n.alike n.pin.pass.base.seat.view };

    fn sees(&mut self, key: &K, value: &V) {
        if self.alike {
            self.alike = has_equal(self.rt, &mut self.pin, key, value);
        }
    }
}

/// Returns whether each pair that a walk of this session tells is in the map of that one, with an equal value.
fn all_there<R: Wait, K: Eq + Hash + Drop, V: PartialEq + Drop, S: Hashes<K>, T: BuildHasher>(
    session: &mut Session<'_, K, V, S>,
    rt: &R,
    other: &Session<'_, K, V, T>,
) -> Result<bool, Fault>
    ensures keeps { KeepsMap session.old session.new }
    ensures compared { IfOk result (λ alike. HasCompared K.eq S.hash (hashed_by T.Hasher.finish T.Hasher.write T.build_hasher K.hash_input) V.eq alike
        session.old.base.caller session.new.base.caller other.now.base.caller) }
    ensures refused { IfErr result (λ fault. WasRefused K.eq S.hash walks fault session.old.base.caller session.new.base.caller) }
{
    let compares = Compares {
        rt,
        pin: other.pin(),
        alike: true,
    };
    let (end, told) = session.shows_to(rt, compares);
    match end {
        Ok(()) => Ok(told.alike),
        Err(fault) => Err(fault),
    }
}

impl<'m, K: Eq + Hash + Drop, V: PartialEq + Drop, S: Hashes<K>> Session<'m, K, V, S> {
    /// Returns whether both maps have as many pairs, by their counts, and each pair that a walk of this one tells is in the other one, with an equal value. While others change
    /// the maps that may be so of no one moment. The faults are `Fault::Capacity` and `Fault::Memory`, of a table that the walk needs first; no pair has changed.
    pub fn same<'o, R: Wait, T: BuildHasher>(
        &mut self,
        rt: &R,
        other: &mut Session<'o, K, V, T>,
    ) -> Result<bool, Fault>
        ensures keeps { KeepsMap self.old self.new }
        ensures other { KeepsMap other.old other.new }
        ensures compared { IfOk result (λ alike. HasComparedMaps K.eq S.hash (hashed_by T.Hasher.finish T.Hasher.write T.build_hasher K.hash_input) V.eq alike
            self.old.base.caller self.new.base.caller other.old.base.caller other.new.base.caller) }
        ensures refused { IfErr result (λ fault. WasNotCompared K.eq S.hash (hashed_by T.Hasher.finish T.Hasher.write T.build_hasher K.hash_input) fault
            self.old.base.caller self.new.base.caller other.old.base.caller other.new.base.caller) }
    {
        let count = self.len();
        let there = other.len();
        if count != there {
            return Ok(false);
        }
        all_there(self, rt, other)
    }
}

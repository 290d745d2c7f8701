//! What changes of a map for one owner answer: values that borrow the map, and lend what the change met. The map can be used again once its answer has
//! ended, which is at its last use.
ghost use Rattle.std.specs.Prelude.{◌≡◌, Some, IsTrue, is_some, option_map};
ghost use Rattle.std.specs.Option.{option_copied};

use crate::map::HashMap;
use seize_words::{Drops, Receiver};
use std::hash::{BuildHasher, Hash};

/// A pair was stored, perhaps in the place of another one.
#[derive(Drop)]
pub struct Replaced<'a, K: Eq + Hash, V, S: BuildHasher, R: Receiver<(K, V)> = Drops> {
    pub(crate) map: &'a mut HashMap<K, V, S, R>,
}

impl<'a, K: Eq + Hash, V, S: BuildHasher, R: Receiver<(K, V)>> Replaced<'a, K, V, S, R> {
    /// Returns the value that was replaced, if the key was there.
    pub fn value(&self) -> Option<&V>
        ensures { option_copied result ≡ option_map (λ x. x.1) self.now.map.now.taken }
    {
        match self.map.taken() {
            Some((_, value)) => Some(value),
            None => None,
        }
    }
}

/// A value was replaced, if its key is there.
#[derive(Drop)]
pub struct Updated<'a, K: Eq + Hash, V, S: BuildHasher, R: Receiver<(K, V)> = Drops> {
    pub(crate) map: &'a mut HashMap<K, V, S, R>,
}

impl<'a, K: Eq + Hash, V, S: BuildHasher, R: Receiver<(K, V)>> Updated<'a, K, V, S, R> {
    /// Returns the new value, if the key is there.
    pub fn value(&self) -> Option<&V>
        ensures { option_copied result ≡ option_map (λ x. x.1) self.now.map.now.met }
    {
        match self.map.met() {
            Some((_, value)) => Some(value),
            None => None,
        }
    }

    /// Returns the value that it replaced.
    pub fn old(&self) -> Option<&V>
        ensures { option_copied result ≡ option_map (λ x. x.1) self.now.map.now.taken }
    {
        match self.map.taken() {
            Some((_, value)) => Some(value),
            None => None,
        }
    }
}

/// A pair is at the key now: the one that was there, or one that was stored.
#[derive(Drop)]
pub struct Present<'a, K: Eq + Hash, V, S: BuildHasher, R: Receiver<(K, V)> = Drops> {
    pub(crate) map: &'a mut HashMap<K, V, S, R>,
}

impl<'a, K: Eq + Hash, V, S: BuildHasher, R: Receiver<(K, V)>> Present<'a, K, V, S, R> {
    /// Returns its value.
    pub fn value(&self) -> &V
        requires { IsTrue (is_some self.now.map.now.met) }
        ensures { Some result.now ≡ option_map (λ x. x.1) self.now.map.now.met }
    {
        match self.map.met() {
            Some((_, value)) => value,
            None => unreachable!(),
        }
    }
}

/// A value was not stored, since its key has one.
pub struct OccupiedError<'a, K: Eq + Hash, V, S: BuildHasher, R: Receiver<(K, V)> = Drops> {
    pub(crate) map: &'a mut HashMap<K, V, S, R>,
    pub(crate) not_inserted: Option<V>,
}

impl<K: Eq + Hash, V: Drop, S: BuildHasher, R: Receiver<(K, V)>> Drop
    for OccupiedError<'_, K, V, S, R> {
    fn drop(self)
        ensures { self.exit.0.now ≡ self.entry.map.now }
    {
        let OccupiedError {
            map: _,
            not_inserted: _,
        } = self;
    }
}

impl<'a, K: Eq + Hash, V: Drop, S: BuildHasher, R: Receiver<(K, V)>> OccupiedError<'a, K, V, S, R> {
    /// Returns the value that the key has.
    pub fn current(&self) -> &V
        requires { IsTrue (is_some self.now.map.now.met) }
        ensures { Some result.now ≡ option_map (λ x. x.1) self.now.map.now.met }
    {
        match self.map.met() {
            Some((_, value)) => value,
            None => unreachable!(),
        }
    }

    /// Returns the value that was not stored, if it was not taken back before.
    pub fn take_back(&mut self) -> Option<V>
        ensures same { (self.new.map.ghost_name ≡ self.old.map.ghost_name) × (self.new.map.now ≡ self.old.map.now) }
        ensures back { result ≡ self.old.not_inserted }
    {
        self.not_inserted.take()
    }
}

/// A pair was removed.
#[derive(Drop)]
pub struct Removed<'a, K: Eq + Hash, V, S: BuildHasher, R: Receiver<(K, V)> = Drops> {
    pub(crate) map: &'a mut HashMap<K, V, S, R>,
}

impl<'a, K: Eq + Hash, V, S: BuildHasher, R: Receiver<(K, V)>> Removed<'a, K, V, S, R> {
    /// Returns its value.
    pub fn value(&self) -> &V
        requires { IsTrue (is_some self.now.map.now.taken) }
        ensures { Some result.now ≡ option_map (λ x. x.1) self.now.map.now.taken }
    {
        match self.map.taken() {
            Some((_, value)) => value,
            None => unreachable!(),
        }
    }
}

/// A computing has left the map as it was, for a reason of its own.
pub struct Aborted<'a, K: Eq + Hash, V, S: BuildHasher, T, R: Receiver<(K, V)> = Drops> {
    pub(crate) map: &'a mut HashMap<K, V, S, R>,
    pub(crate) why: Option<T>,
}

impl<K: Eq + Hash, V, S: BuildHasher, R: Receiver<(K, V)>, T: Drop> Drop
    for Aborted<'_, K, V, S, T, R> {
    fn drop(self)
        ensures { self.exit.0.now ≡ self.entry.map.now }
    {
        let Aborted { map: _, why: _ } = self;
    }
}

impl<'a, K: Eq + Hash, V, S: BuildHasher, R: Receiver<(K, V)>, T: Drop> Aborted<'a, K, V, S, T, R> {
    /// Returns the reason, if it was not taken before.
    pub fn take(&mut self) -> Option<T>
        ensures same { (self.new.map.ghost_name ≡ self.old.map.ghost_name) × (self.new.map.now ≡ self.old.map.now) }
        ensures why { result ≡ self.old.why }
    {
        self.why.take()
    }
}

/// What a computing has done.
#[derive(Drop)]
pub enum Compute<'a, K: Eq + Hash, V, S: BuildHasher, T, R: Receiver<(K, V)> = Drops> {
    /// A value was stored for a key that was not there.
    Inserted(Present<'a, K, V, S, R>),
    /// The value of a key was replaced.
    Updated(Updated<'a, K, V, S, R>),
    /// The pair of a key was removed.
    Removed(Removed<'a, K, V, S, R>),
    /// Nothing has changed.
    Aborted(Aborted<'a, K, V, S, T, R>),
}

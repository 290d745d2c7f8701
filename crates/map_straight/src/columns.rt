//! Walks over the keys of a map, and over its values.
ghost use Rattle.std.specs.Prelude.{◌≡◌, ⊤};
ghost use Rattle.std.specs.Iterator.{YieldsFirstRef, item_count};
ghost use Rattle.map_straight.specs.Shown.Coming.{can_go_on};
ghost use Rattle.map_straight.specs.Shown.Columns.{keys_to_come, values_to_come};

use crate::pairs::Pairs;
use std::alloc::AllocError;

/// The keys of a map, one after another.
#[derive(Drop)]
pub struct Keys<'a, K, V> {
    /// Its pairs that are still to come.
    pub pairs: Pairs<'a, K, V>,
}

impl<'a, K, V> Clone for Keys<'a, K, V> {
    ghost is_clone = { λ keys copy. copy ≡ keys };

    ghost is_infallible = { λ _. ⊤ };

    fn clone(&self) -> Result<Self, AllocError> {
        Ok(Keys {
            pairs: self.pairs.clone()?,
        })
    }
}

impl<'a, K, V> Iterator for Keys<'a, K, V> {
    type Item = &'a K;

    ghost can_next = { λ it. can_go_on it.pairs };

    ghost next_gives = { YieldsFirstRef keys_to_come };

    ghost remaining = { item_count keys_to_come };

    fn next(&mut self) -> Option<&'a K> {
        match self.pairs.next() {
            Some((key, _)) => Some(key),
            None => None,
        }
    }
}

/// The values of a map, one after another.
#[derive(Drop)]
pub struct Values<'a, K, V> {
    /// Its pairs that are still to come.
    pub pairs: Pairs<'a, K, V>,
}

impl<'a, K, V> Clone for Values<'a, K, V> {
    ghost is_clone = { λ values copy. copy ≡ values };

    ghost is_infallible = { λ _. ⊤ };

    fn clone(&self) -> Result<Self, AllocError> {
        Ok(Values {
            pairs: self.pairs.clone()?,
        })
    }
}

impl<'a, K, V> Iterator for Values<'a, K, V> {
    type Item = &'a V;

    ghost can_next = { λ it. can_go_on it.pairs };

    ghost next_gives = { YieldsFirstRef values_to_come };

    ghost remaining = { item_count values_to_come };

    fn next(&mut self) -> Option<&'a V> {
        match self.pairs.next() {
            Some((_, value)) => Some(value),
            None => None,
        }
    }
}

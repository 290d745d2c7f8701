//! A fixed number of words.
ghost use Rattle.std.specs.Prelude.{◌≡◌, IsSome, slice_get, slice_set, replicate};

use std::marker::Model;

/// A fixed number of words.
#[derive(Drop)]
pub struct Words<const N: usize> {
    items: [u64; N],
}

impl<const N: usize> Model for Words<N> {
    ghost use Rattle.std.specs.Prelude.{ℕ, List};

    ghost Value = { List ℕ };

    ghost view = { λ words. words.items };
}

impl<const N: usize> Words<N> {
    /// Makes words that are each 0.
    pub fn zeros() -> Self
        ensures { result ≡ replicate N 0 }
    {
        Words { items: [0; N] }
    }

    /// Returns the word of a place.
    pub fn get(&self, place: u64) -> u64
        requires { IsSome (slice_get self.now place) }
        ensures { slice_get self.now place ≡ Some result }
    {
        let words: &[u64] = &self.items;
        words[place as usize]
    }

    /// Writes the word of a place.
    pub fn set(&mut self, place: u64, word: u64)
        requires { IsSome (slice_get self.old place) }
        ensures { self.new ≡ slice_set self.old place word }
    {
        let words: &mut [u64] = &mut self.items;
        words[place as usize] = word;
    }
}

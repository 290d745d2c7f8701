//! Rows of words, as many as are asked for.
ghost use Rattle.std.specs.Prelude.{◌≡◌, [], IsSome, IfOk, slice_get, slice_set, replicate};

use std::alloc::{AllocError, Global};
use std::marker::Model;

/// A row of words.
#[derive(Drop)]
pub struct WordArray {
    items: Vec<u64>,
}

impl Model for WordArray {
    ghost use Rattle.std.specs.Prelude.{ℕ, List};

    ghost Value = { List ℕ };

    ghost view = { λ row. row.items.items };
}

impl WordArray {
    /// Makes an array of no word. It takes no memory.
    pub fn none(alloc: Global) -> Self
        ensures { result ≡ [] }
    {
        WordArray {
            items: Vec::new(alloc),
        }
    }

    /// Makes as many words, each 0.
    pub fn zeros(alloc: Global, count: u64) -> Result<Self, AllocError>
        ensures { IfOk result (λ row. row ≡ replicate count 0) }
    {
        Ok(WordArray {
            items: Vec::from_elem(alloc, 0, count as usize)?,
        })
    }

    /// Returns the word of a place.
    pub fn get(&self, place: u64) -> u64
        requires { IsSome (slice_get self.now place) }
        ensures { slice_get self.now place ≡ Some result }
    {
        self.items[place as usize]
    }

    /// Writes the word of a place.
    pub fn set(&mut self, place: u64, word: u64)
        requires { IsSome (slice_get self.old place) }
        ensures { self.new ≡ slice_set self.old place word }
    {
        self.items[place as usize] = word;
    }
}

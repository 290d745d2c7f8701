//! How many there are of each number.
ghost use Rattle.std.specs.Prelude.{◌≡◌, ◌==◌, ◌+◌, ◌<◌, ◌≤◌, ◌^◌, ℕ, List, length, slice_index, OnOk, if◌then◌else◌};

use std::alloc::{AllocError, Global};
use std::marker::Model;

/// A count for each number from 0 on.
#[derive(Drop)]
pub struct NumberCounts {
    counts: Vec<usize>,
}

impl Model for NumberCounts {
    ghost Value = { List ℕ };

    ghost view = { λ t. t.counts.items };
}

impl NumberCounts {
    /// Begins with none.
    pub fn new(alloc: Global) -> Self
        ensures { (number : ℕ) → slice_index result number ≡ 0 }
    {
        NumberCounts {
            counts: Vec::new(alloc),
        }
    }

    /// Returns how many there are of a number.
    pub fn of(&self, number: u64) -> usize
        ensures { result ≡ slice_index self.now number }
    {
        self.counts.get(number as usize).copied().unwrap_or(0)
    }

    /// Makes room for the count of a number.
    pub fn reach(&mut self, number: u64) -> Result<(), AllocError>
        ensures room { OnOk result (number < length self.new) }
        ensures same { (other : ℕ) → slice_index self.new other ≡ slice_index self.old other }
    {
        while self.counts.len() <= number as usize {
            self.counts.push(0)?;
        }
        Ok(())
    }

    /// Counts one more of this number.
    pub fn add(&mut self, number: u64)
        requires room { number < length self.old }
        requires few { slice_index self.old number + 1 < 2 ^ 64 }
        ensures room { length self.new ≡ length self.old }
        ensures more { (other : ℕ) → slice_index self.new other ≡ (if number == other then 1 else 0) + slice_index self.old other }
    {
        self.counts[number as usize] += 1;
    }

    /// Counts so many less of this number.
    pub fn lessen(&mut self, number: u64, by: usize)
        requires { by ≤ slice_index self.old number }
        ensures { (other : ℕ) → (if number == other then by else 0) + slice_index self.new other ≡ slice_index self.old other }
    {
        if by > 0 {
            self.counts[number as usize] -= by;
        }
    }

    /// Counts none any more.
    pub fn clear(&mut self)
        ensures { (number : ℕ) → slice_index self.new number ≡ 0 }
    {
        self.counts.clear();
    }
}

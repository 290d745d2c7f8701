//! The numbers that tell collectors apart.
ghost use Rattle.std.specs.Prelude.{◌≡◌, ◌≤◌, ◌^◌, ◌-◌};
ghost use Rattle.seize.specs.Ids.{given, following, NeverTwice};

use seize_words::Fault;
use std::marker::Model;

/// A source of numbers, each given once. Contracts see it as the number that it gives next.
#[derive(Debug, Drop)]
pub struct IdSource {
    upcoming: u64,
}

impl Model for IdSource {
    ghost use Rattle.std.specs.Prelude.{ℕ};

    ghost Value = { ℕ };

    ghost view = { λ source. source.upcoming };
}

impl IdSource {
    /// Makes a source that gives 1, 2, and so on.
    pub fn new() -> Self
        ensures { result ≡ 1 }
    {
        IdSource { upcoming: 1 }
    }

    /// Makes a source that gives this number, the one after it, and so on.
    pub fn starting_at(first: u64) -> Self
        requires some { 1 ≤ first }
        requires within { first ≤ 2 ^ 64 - 2 }
        ensures { result ≡ first }
    {
        IdSource { upcoming: first }
    }

    /// Returns the next number. After 2^64 - 2 it is refused as `Fault::CollectorsUsedUp`, and nothing changes.
    pub fn next(&mut self) -> Result<u64, Fault>
        ensures answer { result ≡ given self.old }
        ensures after { self.new ≡ following self.old }
    {
        let number = self.upcoming;
        if number < u64::MAX {
            self.upcoming = number + 1;
            Ok(number)
        } else {
            Err(Fault::CollectorsUsedUp)
        }
    }
}

/// However often one source is asked, no two of its answers are the same number.
pub fn no_number_is_given_twice()
    ensures { NeverTwice }
{}

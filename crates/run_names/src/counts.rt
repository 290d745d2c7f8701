//! How many there are of each name.
ghost use Rattle.std.specs.Prelude.{◌≡◌, ◌+◌, ◌<◌, ◌≤◌, ◌^◌, ℕ, List, OnErr, OnOk};
ghost use Rattle.run_names.specs.Presence.Counts.{count_in};
ghost use Rattle.run_names.specs.Presence.Places.{IsElsewhere};

use run_schedules::token::Token;
use std::alloc::{AllocError, Global};
use std::collections::HashMap;

/// A count for each name.
#[derive(Drop)]
pub struct Counts {
    by_name: HashMap<Vec<u8>, usize>,
}

impl Counts {
    /// Begins with none.
    pub fn new(alloc: Global) -> Self
        ensures { (name : List ℕ) → count_in name result ≡ 0 }
    {
        Counts {
            by_name: HashMap::new(alloc),
        }
    }

    /// Returns how many there are of a name.
    pub fn of(&self, name: &Token) -> usize
        ensures { result ≡ count_in name.now self.now }
    {
        match self.by_name.get(name.as_bytes()) {
            Some(count) => *count,
            None => 0,
        }
    }

    /// Counts one more of this name. On an error there is not.
    pub fn add(&mut self, alloc: Global, name: &Token) -> Result<(), AllocError>
        requires { count_in name.now self.old + 1 < 2 ^ 64 }
        ensures here { OnOk result (count_in name.now self.new ≡ count_in name.now self.old + 1) }
        ensures others { OnOk result ((other : List ℕ) → IsElsewhere name.now other → count_in other self.new ≡ count_in other self.old) }
        ensures err { OnErr result ((other : List ℕ) → count_in other self.new ≡ count_in other self.old) }
    {
        if let Some(count) = self.by_name.get_mut(name.as_bytes()) {
            *count += 1;
            return Ok(());
        }
        let name = Vec::from_slice(alloc, name.as_bytes())?;
        self.by_name.insert(name, 1)?;
        Ok(())
    }

    /// Counts one less of this name.
    pub fn lessen(&mut self, name: &Token)
        requires { 1 ≤ count_in name.now self.old }
        ensures here { count_in name.now self.new + 1 ≡ count_in name.now self.old }
        ensures others { (other : List ℕ) → IsElsewhere name.now other → count_in other self.new ≡ count_in other self.old }
    {
        if let Some(count) = self.by_name.get_mut(name.as_bytes()) {
            *count -= 1;
        }
    }
}

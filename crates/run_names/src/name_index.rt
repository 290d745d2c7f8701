//! Places of a list, by names.
ghost use Rattle.std.specs.Prelude.{◌≡◌, ℕ, List, Some, None, OnOk, OnErr};
ghost use Rattle.run_names.specs.Presence.Places.{IsElsewhere, place_of};

use run_schedules::token::Token;
use std::alloc::{AllocError, Global};
use std::collections::HashMap;

/// Where the item of each name stands.
#[derive(Drop)]
pub struct NameIndex {
    by_name: HashMap<Vec<u8>, usize>,
}

impl NameIndex {
    /// Begins where no name leads anywhere.
    pub fn new(alloc: Global) -> Self
        ensures { (name : List ℕ) → place_of name result ≡ None }
    {
        NameIndex {
            by_name: HashMap::new(alloc),
        }
    }

    /// Returns the place of this name.
    pub fn get(&self, name: &Token) -> Option<usize>
        ensures { result ≡ place_of name.now self.now }
    {
        self.by_name.get(name.as_bytes()).copied()
    }

    /// This name leads to this place, and the others lead where they did. On an error each does.
    pub fn put(&mut self, alloc: Global, name: &Token, place: usize) -> Result<(), AllocError>
        ensures here { OnOk result (place_of name.now self.new ≡ Some place) }
        ensures others { (other : List ℕ) → IsElsewhere name.now other → place_of other self.new ≡ place_of other self.old }
    {
        let name = Vec::from_slice(alloc, name.as_bytes())?;
        self.by_name.insert(name, place)?;
        Ok(())
    }

    /// This name leads nowhere.
    pub fn remove(&mut self, name: &Token)
        ensures { (other : List ℕ) → IsElsewhere name.now other → place_of other self.new ≡ place_of other self.old }
    {
        self.by_name.remove(name.as_bytes());
    }

    /// Removes all names.
    pub fn clear(&mut self)
        ensures { (name : List ℕ) → place_of name self.new ≡ None }
    {
        self.by_name.clear();
    }
}

//! The numbers of the pairs of each map, by one pass over all pairs.
ghost use Rattle.std.specs.Prelude.{◌≡◌, ◌==◌, ◌<◌, ◌++◌, ◌∷◌, ℕ, [], Some, length, IfOk, OnOk, if◌then◌else◌};
ghost use Rattle.run_effects.specs.Tallies.ByMap.{numbers_in};
ghost use Rattle.run_effects.specs.Tallies.Tally.{is_there, numbers_at, passes};

use crate::tally::Whereabouts;
use std::alloc::{AllocError, Global};

/// The numbers of the pairs of each map, ascending.
#[derive(Drop)]
pub struct ByMap {
    /// By the number of the map.
    lists: Vec<Vec<u64>>,
}

impl ByMap {
    /// Sorts these pairs by their maps.
    pub fn of(alloc: Global, pairs: &[Whereabouts]) -> Result<Self, AllocError>
        ensures { IfOk result (λ by_map. (map : ℕ) → numbers_in map by_map ≡ numbers_at (passes (Some map)) 0 pairs.now) }
    {
        let mut by_map = ByMap {
            lists: Vec::new(alloc),
        };
        for place in 0..pairs.len() {
            by_map.note(alloc, place as u64, pairs[place])?;
        }
        Ok(by_map)
    }

    /// Returns the numbers of the pairs of a map.
    pub fn pairs_of(&self, alloc: Global, map: u64) -> Result<Vec<u64>, AllocError>
        ensures { IfOk result (λ pairs. pairs.items ≡ numbers_in map self.now) }
    {
        match self.lists.get(map as usize) {
            Some(pairs) => Vec::from_slice(alloc, pairs.as_slice()),
            None => Ok(Vec::new(alloc)),
        }
    }

    /// A pair is there.
    fn note(&mut self, alloc: Global, pair: u64, there: Whereabouts) -> Result<(), AllocError>
        ensures { OnOk result ((map : ℕ) → numbers_in map self.new ≡ if is_there map there then numbers_in map self.old ++ pair ∷ [] else numbers_in map self.old) }
    {
        match there {
            Whereabouts::InMap(map) => self.add(alloc, map, pair),
            _ => Ok(()),
        }
    }

    /// A map has one more pair.
    fn add(&mut self, alloc: Global, map: u64, pair: u64) -> Result<(), AllocError>
        ensures { OnOk result ((other : ℕ) → numbers_in other self.new ≡ if other == map then numbers_in other self.old ++ pair ∷ [] else numbers_in other self.old) }
    {
        self.reach(alloc, map)?;
        self.lists[map as usize].push(pair)?;
        Ok(())
    }

    /// Makes room for the list of a map. Each has the pairs that it had.
    fn reach(&mut self, alloc: Global, map: u64) -> Result<(), AllocError>
        ensures room { OnOk result (map < length self.new.lists.items) }
        ensures same { (other : ℕ) → numbers_in other self.new ≡ numbers_in other self.old }
    {
        while self.lists.len() <= map as usize {
            self.lists.push(Vec::new(alloc))?;
        }
        Ok(())
    }
}

//! Pairs in an order, of which each is found by its number in one step.
ghost use Rattle.std.specs.Prelude.{◌≡◌, ◌==◌, ◌<◌, ◌∷◌, ◌++◌, [], None, find, length, slice_index_or, IfOk, OnOk, OnErr, ℕ};
ghost use Rattle.std.specs.Option.{option_copied};

use crate::ended::Pair;
use std::alloc::{AllocError, Global};
use std::marker::Model;

/// A list of pairs. Clauses see the list; beside it stands, for each number, the place of the first pair that has it.
#[derive(Drop)]
pub struct PairList<K, V> {
    pairs: Vec<Pair<K, V>>,
    places: Vec<Option<usize>>,
}

impl<K, V> Model for PairList<K, V> {
    ghost use Rattle.std.specs.Prelude.{List};
    ghost use Rattle.run_schedules.specs.declared.ended.Pair.{Pair};
    ghost use Rattle.run_schedules.specs.Runs.PairPlaces.{ArePlaces};

    ghost Value = { List (Pair K V) };

    ghost view = { λ l. l.pairs.items };

    ghost invariant = { λ l. ArePlaces l.pairs.items l.places.items };
}

/// Makes room for the place of a number. No number gets another place, also on an error.
fn reach(places: &mut Vec<Option<usize>>, number: usize) -> Result<(), AllocError>
    ensures same { (n : ℕ) → slice_index_or places.new.items n None ≡ slice_index_or places.old.items n None }
    ensures ok { OnOk result (number < length places.new.items) }
{
    while places.len() <= number {
        places.push(None)?;
    }
    Ok(())
}

impl<K, V> PairList<K, V> {
    /// Makes a list of no pair.
    pub fn new(alloc: Global) -> Self
        ensures { result ≡ [] }
    {
        PairList {
            pairs: Vec::new(alloc),
            places: Vec::new(alloc),
        }
    }

    /// Returns the pairs, in their order.
    pub fn as_slice(&self) -> &[Pair<K, V>]
        ensures { result.now ≡ self.now }
    {
        self.pairs.as_slice()
    }

    /// Returns how many pairs there are.
    pub fn len(&self) -> usize
        ensures { result ≡ length self.now }
    {
        self.pairs.len()
    }

    /// Returns the first pair of this number.
    pub fn find(&self, number: u64) -> Option<&Pair<K, V>>
        ensures { option_copied result ≡ find (λ p. p.number == number) self.now }
    {
        match self.places.get(number as usize) {
            Some(Some(place)) => Some(&self.pairs[*place]),
            _ => None,
        }
    }
}

impl<K: Drop, V: Drop> PairList<K, V> {
    /// Puts a pair behind the others. On an error the list is as it was.
    pub fn push(&mut self, pair: Pair<K, V>) -> Result<(), AllocError>
        ensures ok { OnOk result (self.new ≡ self.old ++ pair ∷ []) }
        ensures err { OnErr result (self.new ≡ self.old) }
    {
        let number = pair.number as usize;
        let place = self.pairs.len();
        reach(&mut self.places, number)?;
        self.pairs.push(pair)?;
        if self.places[number].is_none() {
            self.places[number] = Some(place);
        }
        Ok(())
    }

    /// Returns the list of these pairs.
    pub fn of(alloc: Global, pairs: Vec<Pair<K, V>>) -> Result<Self, AllocError>
        ensures { IfOk result (λ list. list ≡ pairs.items) }
    {
        let mut list = PairList::new(alloc);
        for pair in pairs {
            list.push(pair)?;
        }
        Ok(list)
    }
}

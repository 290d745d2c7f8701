//! Room for further pairs in a map for one owner. It begins with a refresh, as a change does.
ghost use Rattle.std.specs.Prelude.{◌≡◌, ◌⊎◌, [], Err, None, IfErr, OnOk, length};
ghost use Rattle.std.specs.List.Sorted.{IsPermutation};
ghost use Rattle.owner_asks.specs.Given.LateFaults.{IsRoom};
ghost use Rattle.map_straight.specs.Given.ReservesReserve.{needed};
ghost use Rattle.owner_asks.specs.Given.OwnedRooms.{NeedTooMany};
ghost use Rattle.map_straight.specs.Shown.Chain.{CannotGrow, FirstHas};
ghost use Rattle.seize_words.specs.declared.fault.Fault.TheVariants.{Capacity};
ghost use Rattle.owner_rests.specs.ShowsPairs.Maps.{Keeps, LastTook};

use crate::map::HashMap;
use owner_rests::Last;
use seize_words::{Fault, Receiver};
use std::hash::{BuildHasher, Hash};

impl<K: Eq + Hash + Drop, V: Drop, S: BuildHasher, R: Receiver<(K, V)>> HashMap<K, V, S, R> {
    /// Makes room for so many further pairs beside those that it has: its first table has the places that they need. No pair changes, only
    /// their order may. The faults are `Fault::Capacity`, always where that is too many, and else where no table can follow the map's last one, and `Fault::Memory`.
    pub fn reserve(&mut self, additional: u64) -> Result<(), Fault>
        ensures pairs { IsPermutation self.new.pairs self.old.pairs }
        ensures room { OnOk result (FirstHas (needed additional (length self.old.pairs)) self.new.tables) }
        ensures fault { IfErr result IsRoom }
        ensures capacity { IfErr result (λ fault. fault ≡ Capacity → CannotGrow self.new.tables ⊎ NeedTooMany additional (length self.old.pairs)) }
        ensures refused { NeedTooMany additional (length self.old.pairs) → result ≡ Err Capacity }
        ensures last { LastTook self.new None None }
        ensures hasher { self.new.hasher ≡ self.old.hasher }
        ensures keeps { Keeps [] self.old self.new }
    {
        self.resting.last = Last::NONE;
        owner_rests::reserve(
            &mut self.resting.memory,
            self.resting.setting,
            &self.hasher,
            additional,
        )
    }
}

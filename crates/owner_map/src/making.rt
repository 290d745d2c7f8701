//! How a map for one owner is made.
ghost use Rattle.std.specs.Prelude.{◌≡◌, [], None, IfOk, IfErr, OnOk};
ghost use Rattle.seize_words.specs.declared.fault.Fault.TheVariants.{Memory};
ghost use Rattle.owner_asks.specs.Given.OwnedRooms.{tables_for};
ghost use Rattle.owner_rests.specs.Given.{AreTooMany, IsUnmade};
ghost use Rattle.owner_rests.specs.ShowsPairs.Maps.{LastTook};

use crate::map::{HashMap, Resting};
use owner_rests::Last;
use seize_model::register;
use seize_words::{Fault, Plain};
use std::alloc::Global;
use std::hash::{BuildHasher, Hash};
use std::marker::PhantomData;

impl<K: Eq + Hash + Drop, V: Drop, S: BuildHasher + Default + Drop> HashMap<K, V, S> {
    /// Makes a map with no pair, and with no table yet. The only fault is `Fault::Memory`.
    pub fn new(alloc: Global) -> Result<Self, Fault>
        ensures pairs { IfOk result (λ map. map.pairs ≡ []) }
        ensures last { IfOk result (λ map. LastTook map None None) }
        ensures held { IfOk result (λ map. map.held ≡ []) }
        ensures tables { IfOk result (λ map. map.tables ≡ []) }
        ensures fault { IfErr result (λ fault. fault ≡ Memory) }
        ensures hasher { IfOk result (λ map. S.is_default map.hasher) }
    {
        HashMap::with_hasher(alloc, S::default())
    }

    /// Makes a map with no pair, and with a first table that has the places for so many. The faults are `Fault::Capacity`, just where that is too many, and
    /// `Fault::Memory`.
    pub fn with_capacity(alloc: Global, capacity: u64) -> Result<Self, Fault>
        ensures pairs { IfOk result (λ map. map.pairs ≡ []) }
        ensures last { IfOk result (λ map. LastTook map None None) }
        ensures held { IfOk result (λ map. map.held ≡ []) }
        ensures tables { IfOk result (λ map. map.tables ≡ tables_for capacity) }
        ensures few { OnOk result (AreTooMany capacity → ⊥) }
        ensures fault { IfErr result (IsUnmade capacity) }
        ensures hasher { IfOk result (λ map. S.is_default map.hasher) }
    {
        HashMap::with_capacity_and_hasher(alloc, capacity, S::default())
    }
}

impl<K: Eq + Hash + Drop, V: Drop, S: BuildHasher + Drop> HashMap<K, V, S> {
    /// Makes a map with no pair, with no table yet, and with this hasher. The only fault is `Fault::Memory`.
    pub fn with_hasher(alloc: Global, hasher: S) -> Result<Self, Fault>
        ensures pairs { IfOk result (λ map. map.pairs ≡ []) }
        ensures last { IfOk result (λ map. LastTook map None None) }
        ensures held { IfOk result (λ map. map.held ≡ []) }
        ensures tables { IfOk result (λ map. map.tables ≡ []) }
        ensures fault { IfErr result (λ fault. fault ≡ Memory) }
        ensures hasher { IfOk result (λ map. map.hasher ≡ hasher) }
    {
        HashMap::with_capacity_and_hasher(alloc, 0, hasher)
    }

    /// Makes a map with no pair, with a first table that has the places for so many, and with this hasher. The faults are `Fault::Capacity`, just where that is
    /// too many, and `Fault::Memory`.
    pub fn with_capacity_and_hasher(alloc: Global, capacity: u64, hasher: S) -> Result<Self, Fault>
        ensures pairs { IfOk result (λ map. map.pairs ≡ []) }
        ensures last { IfOk result (λ map. LastTook map None None) }
        ensures held { IfOk result (λ map. map.held ≡ []) }
        ensures tables { IfOk result (λ map. map.tables ≡ tables_for capacity) }
        ensures few { OnOk result (AreTooMany capacity → ⊥) }
        ensures fault { IfErr result (IsUnmade capacity) }
        ensures hasher { IfOk result (λ map. map.hasher ≡ hasher) }
    {
        let places = owner_rests::places_for(capacity)?;
        let mut memory = Plain::new(alloc, 1)?;
        let slot = register(&mut memory, true)?;
        let setting = owner_rests::begin(&mut memory, slot, places, &hasher)?;
        Ok(HashMap {
            resting: Resting {
                memory,
                setting,
                last: Last::NONE,
            },
            hasher,
            receiver: PhantomData,
        })
    }
}

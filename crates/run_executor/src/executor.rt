//! The memory, the maps in it, and the callers that have something under way.
ghost use Rattle.std.specs.Prelude.{◌≡◌, ℕ, Bool, [], IfOk};
ghost use Rattle.run_executor.specs.Executing.IsThere.{IsThere};
ghost use Rattle.run_places.specs.Given.ScenesScene.{at_first};

use crate::worker::Worker;
use papaya_raw::{Node, Setting};
use run_places::Teller;
use run_places::callers::SLOTS;
use run_places::row::SlotUse;
use seize_words::Plain;
use std::alloc::{AllocError, Global};

/// The memory, the maps in it, and the callers that have something under way.
#[derive(Drop)]
pub struct Executor<K, V, S> {
    /// The memory, which tells what its last operation has changed.
    pub memory: Teller<Plain<Node<K, V>>>,
    /// Gives each key its hash.
    pub hasher: S,
    /// From so many blocks on a batch of the collector is tried.
    pub batch_size: u64,
    /// How many roots there are.
    pub roots: u64,
    /// With what calls of a map work, by the number of the map, while it stands.
    pub maps: Vec<Option<Setting>>,
    /// The callers by their places. A place is used once.
    pub workers: Vec<Option<Worker<K, V>>>,
    /// How each slot is used.
    pub slots: Vec<SlotUse>,
}

impl<K: Drop, V: Drop, S: Drop> Executor<K, V, S> {
    /// Makes an executor with no map and no caller, and with as many roots.
    pub fn new(alloc: Global, hasher: S, batch_size: u64, roots: u64) -> Result<Self, AllocError>
        ensures stands { IfOk result (λ executor. (same : K → K → Bool) (hash : K → ℕ) → IsThere same hash executor (at_first roots)) }
        ensures given { IfOk result (λ executor. (executor.hasher ≡ hasher) × (executor.batch_size ≡ batch_size) × (executor.roots ≡ roots)) }
        ensures maps { IfOk result (λ executor. executor.maps.items ≡ []) }
    {
        Ok(Executor {
            memory: Teller::new(Plain::new(alloc, roots)?),
            hasher,
            batch_size,
            roots,
            maps: Vec::new(alloc),
            workers: Vec::new(alloc),
            slots: Vec::from_elem(alloc, SlotUse::Vacant, SLOTS as usize)?,
        })
    }
}

//! The beginning of a call, and of the making of a map.
ghost use Rattle.std.specs.Prelude.{◌≡◌, ◌<◌, ◌+◌, ◌*◌, ℕ, Bool, length, IfOk, IfErr, OnErr};
ghost use Rattle.run_places.specs.Given.ScenesDeclared.callers.TheConstants.{SLOTS};
ghost use Rattle.run_executor.specs.Executing.Beginning.{BeginsThere, HasNoNumber, HasNoPlace, IsRefused};
ghost use Rattle.run_executor.specs.Executing.IsThere.{IsThere, PreservesSettings, StaysGiven};
ghost use Rattle.run_executor.specs.Executing.MakingBegins.{MakingBegins};
ghost use Rattle.run_places.specs.Given.ScenesScene.{Scene};

use crate::executor::Executor;
use crate::worker::{Work, Worker};
use papaya_raw::Setting;
use papaya_raw::machines::{Machine, NewMap};
use run_places::callers::SLOTS;
use std::alloc::AllocError;

/// So many callers there can be. For each further one there is no memory.
pub(crate) const MOST_CALLERS: usize = 1 << 32;

impl<K: Drop, V: Drop, S> Executor<K, V, S> {
    /// Begins a call on the map of this number, for a caller in this slot, and answers with the number of the caller. On an error nothing has changed, and
    /// the call is dropped.
    pub fn begin(&mut self, slot: u64, map: u64, machine: Machine<K, V>) -> Result<u64, AllocError>
        requires { slot < SLOTS }
        ensures number { IfOk result (λ caller. caller ≡ length self.old.workers.items * SLOTS + slot) }
        ensures leads { IfOk result (λ caller. (same : K → K → Bool) (hash : K → ℕ) (s : Scene K V) → IsThere same hash self.old s → BeginsThere same hash map machine caller s self.old self.new) }
        ensures given { PreservesSettings self.old self.new }
        ensures refused { IfErr result (λ error. IsRefused self.old self.new) }
        ensures only { OnErr result (HasNoPlace self.old) }
    {
        let place = self.workers.len();
        if place >= MOST_CALLERS {
            return Err(AllocError);
        }
        let work = Work::Call { map, machine };
        self.workers.push(Some(Worker { slot, work }))?;
        Ok(place as u64 * SLOTS + slot)
    }

    /// Begins to make a map with this setting, and with a first table of so many places, for a caller in this slot. The map gets the number that comes next. It
    /// answers with the number of the caller. On an error nothing has begun.
    pub fn begin_making(
        &mut self,
        slot: u64,
        given: Setting,
        places: u64,
    ) -> Result<u64, AllocError>
        requires { slot < SLOTS }
        ensures number { IfOk result (λ caller. caller ≡ length self.old.workers.items * SLOTS + slot) }
        ensures leads { IfOk result (λ caller. (same : K → K → Bool) (hash : K → ℕ) (s : Scene K V) → IsThere same hash self.old s → MakingBegins same hash given places caller s self.old self.new) }
        ensures numbers { IfOk result (λ caller. length self.new.maps.items ≡ length self.old.maps.items + 1) }
        ensures given { StaysGiven self.old self.new }
        ensures refused { IfErr result (λ error. IsRefused self.old self.new) }
        ensures only { OnErr result (HasNoNumber self.old) }
    {
        let place = self.workers.len();
        if place >= MOST_CALLERS {
            return Err(AllocError);
        }
        let map = self.maps.len() as u64;
        let opening = NewMap::new(given, self.roots, places);
        let work = Work::Making { map, opening };
        self.maps.push(None)?;
        self.workers.push(Some(Worker { slot, work }))?;
        Ok(place as u64 * SLOTS + slot)
    }
}

//! A step of the making of a map.
ghost use Rattle.std.specs.Prelude.{◌≡◌, ◌<◌, ℕ, Bool, length};
ghost use Rattle.run_executor.specs.Executing.IsThere.{IsThere, PreservesSettings, worker_of};
ghost use Rattle.run_executor.specs.Executing.Making.{MakesThere, making_on, maps_on};
ghost use Rattle.run_places.specs.Given.ScenesScene.{IsMaking, Scene};

use crate::executor::Executor;
use crate::taking::{TakenMaking, put_at, take_making};
use crate::telling::step_telling;
use crate::worker::{Work, Worker};
use papaya_raw::Setting;
use papaya_raw::machines::NewMap;
use run_places::callers::SLOTS;
use seize::Advance;

/// The making of a map after a step of it, unless it has ended.
fn going_on<K, V>(
    slot: u64,
    map: u64,
    opening: NewMap,
    progress: Advance<Setting>,
) -> Option<Worker<K, V>>
    ensures { result ≡ worker_of slot (making_on map opening progress) }
{
    match progress {
        Advance::Goes | Advance::Waits => {
            let work = Work::Making { map, opening };
            Some(Worker { slot, work })
        }
        Advance::Done(_) | Advance::Refused(_) => None,
    }
}

/// Keeps the setting of a map that was made.
fn keep(maps: &mut Vec<Option<Setting>>, map: u64, progress: Advance<Setting>)
    requires { map < length maps.old.items }
    ensures { maps.new.items ≡ maps_on map progress maps.old.items }
{
    if let Advance::Done(setting) = progress {
        maps[map as usize] = Some(setting);
    }
}

impl<K: Drop, V: Drop, S> Executor<K, V, S> {
    /// Takes the next step of the making of a map that a caller has under way: at most one operation. One that has ended is under way no more, and its map
    /// stands, unless it was refused.
    pub fn step_making(&mut self, caller: u64) -> Advance<Setting>
        requires { (same : K → K → Bool) × (hash : K → ℕ) × (s : Scene K V) × IsThere same hash self.old s × IsMaking s caller }
        ensures leads { (same : K → K → Bool) (hash : K → ℕ) (s : Scene K V) → IsThere same hash self.old s → MakesThere same hash caller result s self.old self.new }
        ensures numbers { length self.new.maps.items ≡ length self.old.maps.items }
        ensures given { PreservesSettings self.old self.new }
    {
        let place = (caller / SLOTS) as usize;
        let TakenMaking {
            slot,
            map,
            mut opening,
        } = take_making(&mut self.workers, place);
        let progress = step_telling(&mut self.memory, &mut opening);
        let next = going_on(slot, map, opening, progress);
        put_at(&mut self.workers, place, next);
        keep(&mut self.maps, map, progress);
        progress
    }
}

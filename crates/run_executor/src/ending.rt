//! The beginning of the end of a map, and a step of it.
ghost use Rattle.std.specs.Prelude.{◌≡◌, ◌<◌, ◌+◌, ◌*◌, ℕ, Bool, length, slice_index_or, slice_set, Some, None, IfOk, IfErr, OnErr};
ghost use Rattle.papaya_raw.specs.Given.TablesDeclared.setting.Setting.{Setting};
ghost use Rattle.run_places.specs.Given.ScenesDeclared.callers.TheConstants.{SLOTS};
ghost use Rattle.run_executor.specs.Executing.Beginning.{HasNoPlace, IsRefused};
ghost use Rattle.run_executor.specs.Executing.Ending.{EndingBegins, EndsThere, ending_on};
ghost use Rattle.run_executor.specs.Executing.IsThere.{IsThere, PreservesSettings, worker_of};
ghost use Rattle.run_places.specs.Given.ScenesScene.{IsEnding, Scene};

use crate::beginning::MOST_CALLERS;
use crate::executor::Executor;
use crate::taking::{TakenEnding, put_at, take_ending};
use crate::telling::step_telling;
use crate::worker::{Work, Worker};
use papaya_raw::machines::EndMap;
use papaya_raw::{Node, Setting};
use run_places::callers::SLOTS;
use seize::rows::Settled;
use std::alloc::AllocError;

/// The setting of the map of this number, which stands.
fn setting_of(maps: &Vec<Option<Setting>>, map: u64) -> Setting
    requires { (setting : Setting) × (slice_index_or maps.now.items map None ≡ Some setting) }
    ensures { slice_index_or maps.now.items map None ≡ Some result }
{
    let Some(setting) = maps[map as usize] else {
        unreachable!()
    };
    setting
}

/// From then on no map stands under this number.
fn forget(maps: &mut Vec<Option<Setting>>, map: u64)
    requires { map < length maps.old.items }
    ensures { maps.new.items ≡ slice_set maps.old.items map None }
{
    maps[map as usize] = None;
}

/// The end of a map after a step of it, unless it is over.
fn going_on<K, V>(slot: u64, ending: EndMap, told: &Settled<Node<K, V>>) -> Option<Worker<K, V>>
    ensures { result ≡ worker_of slot (ending_on ending told.now) }
{
    match told {
        Settled::Done => None,
        _ => {
            let work = Work::Ending { ending };
            Some(Worker { slot, work })
        }
    }
}

impl<K: Drop, V: Drop, S> Executor<K, V, S> {
    /// Begins to end the map of this number, which stands, for a caller in this slot, and answers with the number of the caller. Nobody is to have a call on the
    /// map. From then on none stands under that number. On an error nothing has changed.
    pub fn begin_ending(&mut self, slot: u64, map: u64) -> Result<u64, AllocError>
        requires slot { slot < SLOTS }
        requires stands { (setting : Setting) × (slice_index_or self.old.maps.items map None ≡ Some setting) }
        ensures number { IfOk result (λ caller. caller ≡ length self.old.workers.items * SLOTS + slot) }
        ensures leads { IfOk result (λ caller. (same : K → K → Bool) (hash : K → ℕ) (s : Scene K V) → IsThere same hash self.old s → EndingBegins same hash map caller s self.old self.new) }
        ensures given { PreservesSettings self.old self.new }
        ensures refused { IfErr result (λ error. IsRefused self.old self.new) }
        ensures only { OnErr result (HasNoPlace self.old) }
    {
        let place = self.workers.len();
        if place >= MOST_CALLERS {
            return Err(AllocError);
        }
        let setting = setting_of(&self.maps, map);
        let ending = EndMap::new(setting, false);
        let work = Work::Ending { ending };
        self.workers.push(Some(Worker { slot, work }))?;
        forget(&mut self.maps, map);
        Ok(place as u64 * SLOTS + slot)
    }

    /// Takes the next step of the end of a map that a caller has under way: at most one operation. One that is over is under way no more.
    pub fn step_ending(&mut self, caller: u64) -> Settled<Node<K, V>>
        requires { (same : K → K → Bool) × (hash : K → ℕ) × (s : Scene K V) × IsThere same hash self.old s × IsEnding s caller }
        ensures leads { (same : K → K → Bool) (hash : K → ℕ) (s : Scene K V) → IsThere same hash self.old s → EndsThere same hash caller result s self.old self.new }
        ensures given { PreservesSettings self.old self.new }
    {
        let place = (caller / SLOTS) as usize;
        let TakenEnding { slot, mut ending } = take_ending(&mut self.workers, place);
        let told = step_telling(&mut self.memory, &mut ending);
        let next = going_on(slot, ending, &told);
        put_at(&mut self.workers, place, next);
        told
    }
}

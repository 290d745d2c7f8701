//! Maps are made.
ghost use Rattle.std.specs.Prelude.{◌≡◌, ◌≤◌, ◌^◌, ℕ, Bool, List, is_none, length, IfOk};
ghost use Rattle.run_schedules.specs.Schedules.Entry.{Entry};
ghost use Rattle.run_schedules.specs.Schedules.Terms.{Terms};
ghost use Rattle.run_schedules.specs.declared.event.Event.TheVariants as event;
ghost use Rattle.play_scheduler.specs.Mapping.{MayMap, PlaysMaking, IsGivenFor, numbers_made};
ghost use Rattle.run_executor.specs.Named.Seen.{number_named};
ghost use Rattle.play_scheduler.specs.Quiet.{BusyIsSilent};
ghost use Rattle.play_scheduler.specs.Works.{WorksOnMap};
ghost use Rattle.run_executor.specs.Executing.IsThere.{StaysGiven};

use papaya_raw::{Counter, ResizeMode, Setting};
use play_scheduler::played::Played;
use play_scheduler::scheduler::Scheduler;
use play_scheduler::{NamedMap, places_for};
use run_schedules::outcome::Outcome;
use run_schedules::token::Token;
use seize::Advance;
use seize_words::Fault;
use std::alloc::AllocError;

/// Whether a map of this name can be made: none has it.
fn may_make<K: Drop, V: Drop, S>(scheduler: &Scheduler<K, V, S>, map: &Token) -> bool
    ensures { result ≡ is_none (number_named map.now scheduler.now.maps) }
{
    scheduler.number_of(map).is_none()
}

/// With what a map begins that is to have so many places at first.
fn setting_for<K: Drop, V: Drop, S>(
    scheduler: &Scheduler<K, V, S>,
    mode: ResizeMode,
    places: u64,
) -> Setting
    requires { scheduler.now.setup.processors ≤ 2 ^ 63 }
    ensures { IsGivenFor mode places scheduler.now result }
{
    Setting {
        slot: 0,
        batch_size: scheduler.logged.executor.batch_size,
        root: 0,
        mode,
        counter: 0,
        mask: Counter::new(scheduler.setup.processors).mask,
        initial: places.max(1),
    }
}

/// Makes a map, with the first root that is free, if its mode and its capacity have no fault, and none of its name is there. On an error nothing is said of the state after
/// it: lists or notes of the run found no memory.
pub fn make_map<K: Drop, V: Drop, S>(
    scheduler: &mut Scheduler<K, V, S>,
    map: Token,
    mode: ResizeMode,
    capacity: u64,
) -> Result<Played<V>, AllocError>
    requires { (same : K → K → Bool) × (hash : K → ℕ) × (terms : Terms) × (log : List (Entry K V)) × MayMap same hash terms log (event.MakeMap map mode capacity) scheduler.old }
    ensures steps { IfOk result (λ played. played.steps ≡ 0) }
    ensures quiet { IfOk result (λ played. BusyIsSilent played.outcome played.effects.items) }
    ensures plays { IfOk result (λ played. (same : K → K → Bool) (hash : K → ℕ) → PlaysMaking same hash (event.MakeMap map mode capacity) played scheduler.old scheduler.new) }
    ensures numbers { IfOk result (λ played. length scheduler.new.logged.executor.maps.items ≡ numbers_made played.outcome (length scheduler.old.logged.executor.maps.items)) }
    ensures works { IfOk result (λ played. WorksOnMap played scheduler.old scheduler.new map mode capacity) }
    ensures given { StaysGiven scheduler.old.logged.executor scheduler.new.logged.executor }
{
    scheduler.is_mapped = true;
    let places = match places_for(mode, capacity) {
        Err(fault) => return Ok(scheduler.quietly(Outcome::Refused(fault))),
        Ok(places) => places,
    };
    if !may_make(scheduler, &map) {
        return Ok(scheduler.busy());
    }
    if scheduler.logged.executor.roots == 0 {
        return Ok(scheduler.quietly(Outcome::Refused(Fault::RootsUsedUp)));
    }
    let given = setting_for(scheduler, mode, places);
    let number = scheduler.logged.executor.maps.len() as u64;
    let mut effects = scheduler.no_effects();
    let caller = scheduler.logged.begin_making(0, given, places)?;
    let told = scheduler.logged.run_making(caller, number, &mut effects)?;
    match told {
        Advance::Done(_) => {
            scheduler.maps.push(NamedMap { name: map, number })?;
            Ok(Played {
                outcome: Outcome::Done,
                steps: 0,
                effects,
            })
        }
        Advance::Refused(fault) => Ok(Played {
            outcome: Outcome::Refused(fault),
            steps: 0,
            effects,
        }),
        Advance::Goes | Advance::Waits => unreachable!(),
    }
}

//! Maps end.
ghost use Rattle.std.specs.Prelude.{◌≡◌, ℕ, Bool, IfOk};
ghost use Rattle.run_schedules.specs.declared.event.Event.TheVariants as event;
ghost use Rattle.play_scheduler.specs.Back.{GivesBack};
ghost use Rattle.play_scheduler.specs.Mapping.{PlaysEnding};
ghost use Rattle.play_scheduler.specs.Played.{MayPlay};
ghost use Rattle.play_scheduler.specs.Quiet.{BusyIsSilent};
ghost use Rattle.play_scheduler.specs.Works.{WorksOnEnd};
ghost use Rattle.run_executor.specs.Executing.IsThere.{PreservesSettings};

use play_scheduler::played::Played;
use play_scheduler::scheduler::Scheduler;
use run_schedules::ended::Pair;
use run_schedules::outcome::Outcome;
use run_schedules::token::Token;
use std::alloc::AllocError;

/// Ends a map on which no call is under way: the pairs that are still in it are reclaimed, and then its tables. What waits behind these waits behind its root from then on.
/// On an error nothing is said of the state after it: lists or notes of the run found no memory.
pub fn end_map<K: Drop, V: Drop, S>(
    scheduler: &mut Scheduler<K, V, S>,
    map: &Token,
    back: &mut Vec<Pair<K, V>>,
) -> Result<Played<V>, AllocError>
    requires { (same : K → K → Bool) × (hash : K → ℕ) × MayPlay same hash (event.EndMap map.now) scheduler.old }
    ensures steps { IfOk result (λ played. played.steps ≡ 0) }
    ensures quiet { IfOk result (λ played. BusyIsSilent played.outcome played.effects.items) }
    ensures plays { IfOk result (λ played. (same : K → K → Bool) (hash : K → ℕ) → PlaysEnding same hash (event.EndMap map.now) played scheduler.old scheduler.new) }
    ensures works { IfOk result (λ played. WorksOnEnd played scheduler.old scheduler.new map.now) }
    ensures back { IfOk result (λ played. (same : K → K → Bool) (hash : K → ℕ) → GivesBack same hash (event.EndMap map.now) played scheduler.old back.old.items back.new.items) }
    ensures given { PreservesSettings scheduler.old.logged.executor scheduler.new.logged.executor }
{
    let Some(number) = scheduler.number_of(map) else {
        return Ok(scheduler.busy());
    };
    if scheduler.calls.are_on(number) {
        return Ok(scheduler.busy());
    }
    let mut effects = scheduler.no_effects();
    let caller = scheduler.logged.begin_end(0, number)?;
    scheduler
        .logged
        .run_end(caller, number, &mut effects, back)?;
    scheduler.maps.remove(map);
    Ok(Played {
        outcome: Outcome::Done,
        steps: 0,
        effects,
    })
}

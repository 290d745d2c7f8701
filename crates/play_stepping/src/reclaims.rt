//! Everything is reclaimed, and the collector ends.
ghost use Rattle.std.specs.Prelude.{◌≡◌, ◌<◌, ℕ, nat_lt, Bool, List, IfOk, OnOk};
ghost use Rattle.run_schedules.specs.Runs.Present.{nobody};
ghost use Rattle.run_schedules.specs.Schedules.Moment.{Moment};
ghost use Rattle.run_schedules.specs.declared.event.Event.TheVariants as event;
ghost use Rattle.play_scheduler.specs.Given.LoggedBack.{AllBringsBack};
ghost use Rattle.play_scheduler.specs.Given.LoggedGoes.{ReclaimingGone};
ghost use Rattle.play_scheduler.specs.Given.LoggedReclaims.{ReclaimingRan};
ghost use Rattle.play_scheduler.specs.Given.LoggedShown.{IsShown};
ghost use Rattle.run_executor.specs.ReclaimsAll.Reclaiming.{MayReclaim, NobodyHas};
ghost use Rattle.run_executor.specs.Given.EffectsKnown.{known};
ghost use Rattle.play_scheduler.specs.AllWorks.{WorksOnAll};
ghost use Rattle.play_scheduler.specs.Back.{GivesAllBack};
ghost use Rattle.play_scheduler.specs.Reclaiming.{MayReclaimAll, PlaysGiving, are_gone};
ghost use Rattle.play_scheduler.specs.Quiet.{BusyIsSilent};
ghost use Rattle.run_executor.specs.Executing.IsThere.{PreservesSettings};
ghost use Rattle.play_scheduler.specs.Given.ScenesScene.{Scene};

use play_scheduler::played::Played;
use play_scheduler::scheduler::Scheduler;
use run_schedules::effect::Effect;
use run_schedules::ended::Pair;
use run_schedules::outcome::Outcome;
use std::alloc::AllocError;

/// Whether nobody is there but guards that were forgotten, and no call is under way.
fn are_gone<K: Drop, V: Drop, S>(scheduler: &Scheduler<K, V, S>) -> bool
    ensures { result ≡ are_gone scheduler.now.there scheduler.now.calls }
{
    scheduler.there.is_left() && scheduler.calls.is_empty()
}

/// Everything that waits is reclaimed, and nobody is there any more.
fn give_all_back<K: Drop, V: Drop, S>(
    scheduler: &mut Scheduler<K, V, S>,
    effects: &mut Vec<Effect>,
    back: &mut Vec<Pair<K, V>>,
) -> Result<(), AllocError>
    requires { (same : K → K → Bool) × (hash : K → ℕ) × (name : ℕ → List ℕ) × (m : Moment K V) × (s : Scene K V) × (lists : ℕ → List ℕ) × IsShown same hash name m scheduler.old.logged s
        × NobodyHas scheduler.old.logged.executor × MayReclaim scheduler.old.logged.executor s lists (nat_lt 0 (known scheduler.old.logged.notes).buckets) }
    ensures ran { OnOk result (ReclaimingRan (nat_lt 0 (known scheduler.old.logged.notes).buckets) effects.old.items effects.new.items scheduler.old.logged scheduler.new.logged) }
    ensures gone { OnOk result (ReclaimingGone (nat_lt 0 (known scheduler.old.logged.notes).buckets) effects.old.items effects.new.items scheduler.old.logged scheduler.new.logged) }
    ensures back { OnOk result (AllBringsBack (nat_lt 0 (known scheduler.old.logged.notes).buckets) effects.old.items effects.new.items scheduler.old.logged back.old.items back.new.items) }
    ensures rest { OnOk result (scheduler.new ≡ record scheduler.old { logged = scheduler.new.logged; there = nobody }) }
    ensures given { PreservesSettings scheduler.old.logged.executor scheduler.new.logged.executor }
{
    let taken = scheduler.logged.notes.buckets() > 0;
    scheduler.logged.run_reclaiming(taken, effects, back)?;
    scheduler.there.clear();
    Ok(())
}

/// Reclaims everything that waits, and gives up each slot, where nobody is there but guards that were forgotten, and no call is under way. On an error nothing
/// is said of the state after it.
pub fn reclaim_all<K: Drop, V: Drop, S>(
    scheduler: &mut Scheduler<K, V, S>,
    back: &mut Vec<Pair<K, V>>,
) -> Result<Played<V>, AllocError>
    requires { (same : K → K → Bool) × (hash : K → ℕ) × MayReclaimAll same hash event.ReclaimAll scheduler.old }
    ensures steps { IfOk result (λ played. played.steps ≡ 0) }
    ensures quiet { IfOk result (λ played. BusyIsSilent played.outcome played.effects.items) }
    ensures plays { IfOk result (λ played. (same : K → K → Bool) (hash : K → ℕ) → PlaysGiving same hash event.ReclaimAll played scheduler.old scheduler.new) }
    ensures works { IfOk result (λ played. WorksOnAll played scheduler.old scheduler.new) }
    ensures back { IfOk result (λ played. (same : K → K → Bool) (hash : K → ℕ) → GivesAllBack same hash event.ReclaimAll played scheduler.old back.old.items back.new.items) }
    ensures given { PreservesSettings scheduler.old.logged.executor scheduler.new.logged.executor }
{
    if !are_gone(scheduler) {
        return Ok(scheduler.busy());
    }
    let mut effects = scheduler.no_effects();
    give_all_back(scheduler, &mut effects, back)?;
    Ok(Played {
        outcome: Outcome::Done,
        steps: 0,
        effects,
    })
}

/// Ends the collector, where no map is there, either: all that waits is reclaimed. On an error nothing is said of the state after it.
pub fn close<K: Drop, V: Drop, S>(
    scheduler: &mut Scheduler<K, V, S>,
    back: &mut Vec<Pair<K, V>>,
) -> Result<Played<V>, AllocError>
    requires { (same : K → K → Bool) × (hash : K → ℕ) × MayReclaimAll same hash event.Close scheduler.old }
    ensures steps { IfOk result (λ played. played.steps ≡ 0) }
    ensures quiet { IfOk result (λ played. BusyIsSilent played.outcome played.effects.items) }
    ensures plays { IfOk result (λ played. (same : K → K → Bool) (hash : K → ℕ) → PlaysGiving same hash event.Close played scheduler.old scheduler.new) }
    ensures works { IfOk result (λ played. WorksOnAll played scheduler.old scheduler.new) }
    ensures back { IfOk result (λ played. (same : K → K → Bool) (hash : K → ℕ) → GivesAllBack same hash event.Close played scheduler.old back.old.items back.new.items) }
    ensures given { PreservesSettings scheduler.old.logged.executor scheduler.new.logged.executor }
{
    if !are_gone(scheduler) {
        return Ok(scheduler.busy());
    }
    if !scheduler.maps.is_empty() {
        return Ok(scheduler.busy());
    }
    let mut effects = scheduler.no_effects();
    give_all_back(scheduler, &mut effects, back)?;
    scheduler.is_closed = true;
    Ok(Played {
        outcome: Outcome::Done,
        steps: 0,
        effects,
    })
}

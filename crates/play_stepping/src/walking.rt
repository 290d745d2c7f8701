//! Walks show their pairs, one by one.
ghost use Rattle.std.specs.Prelude.{◌≡◌, ◌↔◌, ℕ, true, IfOk};
ghost use Rattle.run_schedules.specs.declared.event.Event.TheVariants as event;
ghost use Rattle.play_scheduler.specs.Played.{MayPlay};
ghost use Rattle.play_stepping.specs.EventSteps.Stepping.{IsPlaced, MayWalk, PlaysNextAt, TookNext, WalkComes};
ghost use Rattle.run_executor.specs.Executing.IsThere.{PreservesSettings};

use crate::stepping::{come_to, way_of};
use crate::{Played, Scheduler};
use papaya_raw::machines::Progress;
use papaya_raw::{Hashes, Node};
use run_schedules::effect::Effect;
use run_schedules::token::Token;
use std::alloc::AllocError;
use std::hash::Hash;

/// Whether a step says no more than that its call goes on.
fn just_goes<K, V>(progress: &Progress<Node<K, V>>) -> bool
    ensures { progress.now ≡ Progress.Goes ↔ result ≡ true }
{
    matches!(progress, Progress::Goes)
}

/// The walk of this name, which was asked for its next pair, takes steps until one tells more than that it goes on. What they do is added to the list.
fn walk_on<K: Eq + Hash + Drop, V: Drop, S: Hashes<K>>(
    scheduler: &mut Scheduler<K, V, S>,
    caller: &Token,
    effects: &mut Vec<Effect>,
) -> Result<(Progress<Node<K, V>>, u64), AllocError>
    requires { MayWalk K.eq (S.hash scheduler.old.logged.executor.hasher) caller.now scheduler.old }
    ensures comes { IfOk result (λ come. (place : ℕ) → IsPlaced caller.now place scheduler.old.calls
        → WalkComes K.eq (S.hash scheduler.old.logged.executor.hasher) place come.1 come.0 effects.old.items effects.new.items scheduler.old scheduler.new) }
    ensures given { PreservesSettings scheduler.old.logged.executor scheduler.new.logged.executor }
{
    let (number, map) = way_of(&scheduler.calls, caller);
    for steps in 1..u64::MAX {
        let progress = scheduler.logged.step(number, map, false, effects)?;
        if !just_goes(&progress) {
            return Ok((progress, steps));
        }
    }
    unreachable!()
}

/// Returns the next pair of the caller's walk, or that there is none.
pub fn next<K: Eq + Hash + Drop, V: Drop, S: Hashes<K>>(
    scheduler: &mut Scheduler<K, V, S>,
    caller: &Token,
) -> Result<Played<V>, AllocError>
    requires { MayPlay K.eq (S.hash scheduler.old.logged.executor.hasher) (event.Next caller.now) scheduler.old }
    ensures plays { IfOk result (λ played. PlaysNextAt K.eq (S.hash scheduler.old.logged.executor.hasher) caller.now played scheduler.old scheduler.new) }
    ensures took { IfOk result (λ played. TookNext K.eq (S.hash scheduler.old.logged.executor.hasher) caller.now played scheduler.old scheduler.new) }
    ensures given { PreservesSettings scheduler.old.logged.executor scheduler.new.logged.executor }
{
    let Some(number) = scheduler.ready_number(caller) else {
        return Ok(scheduler.busy());
    };
    scheduler.logged.next(number);
    let mut effects = scheduler.no_effects();
    let come = walk_on(scheduler, caller, &mut effects)?;
    let outcome = come_to(scheduler, caller, come.0);
    Ok(Played {
        outcome,
        steps: come.1,
        effects,
    })
}

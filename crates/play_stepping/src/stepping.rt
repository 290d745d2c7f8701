//! Calls take steps, one or many.
ghost use Rattle.std.specs.Prelude.{◌≡◌, ◌≤◌, ℕ, [], IfOk};
ghost use Rattle.run_schedules.specs.declared.event.Event.TheVariants as event;
ghost use Rattle.run_executor.specs.Given.EffectsKnown.{known};
ghost use Rattle.play_scheduler.specs.Given.LoggedCalling.{MakesNoMore};
ghost use Rattle.play_scheduler.specs.Played.{MayPlay};
ghost use Rattle.run_schedules.specs.Runs.Stopped.{most_steps};
ghost use Rattle.play_stepping.specs.EventSteps.Stepping.{HasCaller, IsCaller, IsPlaced, IsStepped, MayGo, MayStep, MayTake, PlaysOnAt, StepsCome, TakenAs, TookSteps, TookWhole};
ghost use Rattle.run_sweeps.specs.Says.{callers_then, outcome_of};
ghost use Rattle.run_executor.specs.Named.Telling.{continues};
ghost use Rattle.run_executor.specs.declared.caller.NamedCaller.{NamedCaller};
ghost use Rattle.run_executor.specs.Executing.IsThere.{PreservesSettings};

use crate::{Played, Scheduler};
use papaya_raw::machines::Progress;
use papaya_raw::{Hashes, Node};
use run_executor::caller::Stands;
use run_executor::callers::Callers;
use run_executor::saying::{answer_of, number_by};
use run_schedules::call::Call;
use run_schedules::effect::Effect;
use run_schedules::outcome::Outcome;
use run_schedules::token::Token;
use std::alloc::AllocError;
use std::hash::Hash;

/// A call may take so many steps at once.
const MOST_STEPS: u64 = 1_000_000;

/// Whether a call goes on by itself.
fn goes_on<V>(outcome: &Outcome<V>) -> bool
    ensures { result ≡ continues outcome.now }
{
    matches!(outcome, Outcome::Goes)
}

/// The number of the call of this name, and that of its map.
pub(crate) fn way_of<V: Drop>(calls: &Callers<V>, caller: &Token) -> (u64, u64)
    requires { HasCaller caller.now calls.now }
    ensures { (place : ℕ) (called : NamedCaller V) → IsCaller caller.now place called calls.now → result ≡ (called.number, called.map) }
{
    let Some(called) = calls.get(caller) else {
        unreachable!()
    };
    (called.number, called.map)
}

/// How far the call of this name is.
fn far_of<V: Drop>(calls: &Callers<V>, caller: &Token) -> Stands
    requires { HasCaller caller.now calls.now }
    ensures { (place : ℕ) (called : NamedCaller V) → IsCaller caller.now place called calls.now → result ≡ called.stands }
{
    let Some(called) = calls.get(caller) else {
        unreachable!()
    };
    called.stands
}

/// The call of this name has come to this. A walk that has shown a pair is ready.
pub(crate) fn come_to<K: Drop, V: Drop, S>(
    scheduler: &mut Scheduler<K, V, S>,
    caller: &Token,
    progress: Progress<Node<K, V>>,
) -> Outcome<V>
    requires { HasCaller caller.now scheduler.old.calls }
    ensures outcome { (place : ℕ) (called : NamedCaller V) → IsCaller caller.now place called scheduler.old.calls
        → result ≡ outcome_of (known scheduler.old.logged.notes) called.kind called.value progress }
    ensures calls { (place : ℕ) (called : NamedCaller V) → IsCaller caller.now place called scheduler.old.calls
        → scheduler.new.calls ≡ callers_then (known scheduler.old.logged.notes) place called progress scheduler.old.calls }
    ensures rest { scheduler.new ≡ record scheduler.old { calls = scheduler.new.calls } }
{
    match progress {
        Progress::Goes | Progress::Gave(_) => {
            scheduler.calls.stand(caller, Stands::Goes);
            Outcome::Goes
        }
        Progress::Unstored(node) => {
            scheduler.calls.keep(caller, node);
            Outcome::Goes
        }
        Progress::Waits => {
            scheduler.calls.stand(caller, Stands::Goes);
            Outcome::Waits
        }
        Progress::Asks(word) => {
            let question = word.map(|word| number_by(&scheduler.logged.notes, word));
            scheduler.calls.stand(caller, Stands::Asks(question));
            Outcome::Asks(question)
        }
        Progress::Ready => {
            scheduler.calls.stand(caller, Stands::Ready);
            Outcome::Ready
        }
        Progress::Pair(word) => {
            scheduler.calls.stand(caller, Stands::Ready);
            Outcome::Shows(number_by(&scheduler.logged.notes, word))
        }
        Progress::Done(said) => {
            let Some((kind, value)) = scheduler.calls.remove(caller) else {
                unreachable!()
            };
            Outcome::Answered(answer_of(&scheduler.logged.notes, kind, value, said))
        }
        Progress::Refused(fault) => {
            scheduler.calls.remove(caller);
            Outcome::Refused(fault)
        }
    }
}

/// The call of this name takes one step. A growth that it asks for may be refused. What it does is added to the list.
fn take_step<K: Eq + Hash + Drop, V: Drop, S: Hashes<K>>(
    scheduler: &mut Scheduler<K, V, S>,
    caller: &Token,
    refuse: bool,
    effects: &mut Vec<Effect>,
) -> Result<Outcome<V>, AllocError>
    requires { MayStep K.eq (S.hash scheduler.old.logged.executor.hasher) caller.now scheduler.old }
    ensures stepped { IfOk result (λ outcome. (place : ℕ) → IsPlaced caller.now place scheduler.old.calls
        → IsStepped K.eq (S.hash scheduler.old.logged.executor.hasher) place outcome effects.old.items effects.new.items scheduler.old scheduler.new) }
    ensures refused { IfOk result (λ outcome. MakesNoMore refuse effects.old.items effects.new.items) }
    ensures given { PreservesSettings scheduler.old.logged.executor scheduler.new.logged.executor }
{
    let (number, map) = way_of(&scheduler.calls, caller);
    let progress = scheduler.logged.step(number, map, refuse, effects)?;
    Ok(come_to(scheduler, caller, progress))
}

/// The call of this name, which goes on, takes at most so many steps, while it does. Growths that it asks for may be refused. What they do is added to the list.
fn go_on<K: Eq + Hash + Drop, V: Drop, S: Hashes<K>>(
    scheduler: &mut Scheduler<K, V, S>,
    caller: &Token,
    most: u64,
    refuse: bool,
    effects: &mut Vec<Effect>,
) -> Result<(Outcome<V>, u64), AllocError>
    requires some { 1 ≤ most }
    requires goes { MayGo K.eq (S.hash scheduler.old.logged.executor.hasher) caller.now scheduler.old }
    ensures comes { IfOk result (λ come. (place : ℕ) → IsPlaced caller.now place scheduler.old.calls
        → StepsCome K.eq (S.hash scheduler.old.logged.executor.hasher) place most come.1 come.0 effects.old.items effects.new.items scheduler.old scheduler.new) }
    ensures refused { IfOk result (λ come. MakesNoMore refuse effects.old.items effects.new.items) }
    ensures given { PreservesSettings scheduler.old.logged.executor scheduler.new.logged.executor }
{
    for steps in 1..most {
        let outcome = take_step(scheduler, caller, refuse, effects)?;
        if !goes_on(&outcome) {
            return Ok((outcome, steps));
        }
    }
    let outcome = take_step(scheduler, caller, refuse, effects)?;
    Ok((outcome, most))
}

/// The call of this name takes at most so many steps, while it goes on. Growths that it asks for may be refused.
fn take_steps<K: Eq + Hash + Drop, V: Drop, S: Hashes<K>>(
    scheduler: &mut Scheduler<K, V, S>,
    caller: &Token,
    most: u64,
    refuse: bool,
) -> Result<Played<V>, AllocError>
    requires some { 1 ≤ most }
    requires stands { MayTake K.eq (S.hash scheduler.old.logged.executor.hasher) caller.now scheduler.old }
    ensures taken { IfOk result (λ played. (place : ℕ) → IsPlaced caller.now place scheduler.old.calls
        → TakenAs K.eq (S.hash scheduler.old.logged.executor.hasher) place most played scheduler.old scheduler.new) }
    ensures refused { IfOk result (λ played. MakesNoMore refuse [] played.effects.items) }
    ensures given { PreservesSettings scheduler.old.logged.executor scheduler.new.logged.executor }
{
    match far_of(&scheduler.calls, caller) {
        Stands::Asks(question) => return Ok(scheduler.quietly(Outcome::Asks(question))),
        Stands::Ready => return Ok(scheduler.quietly(Outcome::Ready)),
        Stands::Goes => {}
    }
    let mut effects = scheduler.no_effects();
    let come = go_on(scheduler, caller, most, refuse, &mut effects)?;
    Ok(Played {
        outcome: come.0,
        steps: come.1,
        effects,
    })
}

/// Takes one step of the caller's call. Its growth may be refused.
pub fn step<K: Eq + Hash + Drop, V: Drop, S: Hashes<K>>(
    scheduler: &mut Scheduler<K, V, S>,
    caller: &Token,
    refuse: bool,
) -> Result<Played<V>, AllocError>
    requires { MayPlay K.eq (S.hash scheduler.old.logged.executor.hasher) (event.Step caller.now refuse) scheduler.old }
    ensures plays { IfOk result (λ played. PlaysOnAt K.eq (S.hash scheduler.old.logged.executor.hasher) (event.Step caller.now refuse) played scheduler.old scheduler.new) }
    ensures took { IfOk result (λ played. TookSteps K.eq (S.hash scheduler.old.logged.executor.hasher) 1 caller.now played scheduler.old scheduler.new) }
    ensures refused { IfOk result (λ played. MakesNoMore refuse [] played.effects.items) }
    ensures given { PreservesSettings scheduler.old.logged.executor scheduler.new.logged.executor }
{
    if scheduler.calls.has(caller) {
        take_steps(scheduler, caller, 1, refuse)
    } else {
        Ok(scheduler.busy())
    }
}

/// Steps of the caller's call while it goes on. The first growth that it asks for may be refused.
pub fn go<K: Eq + Hash + Drop, V: Drop, S: Hashes<K>>(
    scheduler: &mut Scheduler<K, V, S>,
    caller: &Token,
    refuse: bool,
) -> Result<Played<V>, AllocError>
    requires { MayPlay K.eq (S.hash scheduler.old.logged.executor.hasher) (event.Go caller.now refuse) scheduler.old }
    ensures plays { IfOk result (λ played. PlaysOnAt K.eq (S.hash scheduler.old.logged.executor.hasher) (event.Go caller.now refuse) played scheduler.old scheduler.new) }
    ensures took { IfOk result (λ played. TookSteps K.eq (S.hash scheduler.old.logged.executor.hasher) most_steps caller.now played scheduler.old scheduler.new) }
    ensures refused { IfOk result (λ played. MakesNoMore refuse [] played.effects.items) }
    ensures given { PreservesSettings scheduler.old.logged.executor scheduler.new.logged.executor }
{
    if scheduler.calls.has(caller) {
        take_steps(scheduler, caller, MOST_STEPS, refuse)
    } else {
        Ok(scheduler.busy())
    }
}

/// Begins a call of the caller without a name, and goes on with it.
pub fn one_call<K: Eq + Hash + Drop, V: Drop, S: Hashes<K>>(
    scheduler: &mut Scheduler<K, V, S>,
    guard: Token,
    map: &Token,
    call: Call<K, V>,
) -> Result<Played<V>, AllocError>
    requires { MayPlay K.eq (S.hash scheduler.old.logged.executor.hasher) (event.OneCall guard map.now call) scheduler.old }
    ensures plays { IfOk result (λ played. PlaysOnAt K.eq (S.hash scheduler.old.logged.executor.hasher) (event.OneCall guard map.now call) played scheduler.old scheduler.new) }
    ensures took { IfOk result (λ played. TookWhole K.eq (S.hash scheduler.old.logged.executor.hasher) guard map.now call played scheduler.old scheduler.new) }
    ensures given { PreservesSettings scheduler.old.logged.executor scheduler.new.logged.executor }
{
    let own = Token::copy_of(scheduler.maps.alloc(), b"-")?;
    let nameless = Token::copy_of(scheduler.maps.alloc(), b"-")?;
    if scheduler.begins(own, guard, map, call)? {
        take_steps(scheduler, &nameless, MOST_STEPS, false)
    } else {
        Ok(scheduler.busy())
    }
}

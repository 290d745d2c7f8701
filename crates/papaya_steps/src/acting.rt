//! On which map an event acts, and which single events it is of: known before it happens, but for what it comes to.
ghost use Rattle.std.specs.Prelude.{◌≡◌, IfOk};
ghost use Rattle.run_schedules.specs.Schedules.Entry.{is_busy};
ghost use Rattle.papaya_steps.specs.WholeRuns.Acting.{acting_of, called_map, map_acted, traced};

use crate::Scheduler;
use run_schedules::event::Event;
use run_schedules::outcome::Outcome;
use run_schedules::token::Token;
use seize_words::Fault;
use std::alloc::AllocError;

/// Which single events an event is of.
#[derive(Clone, Copy)]
pub enum Traced {
    /// Itself.
    Whole,
    /// A call begins.
    Begins,
    /// A call begins, and takes steps.
    Runs,
    /// A call takes steps.
    Steps,
}

/// On which map an event acts.
#[derive(Clone, Copy)]
pub enum ActedOn {
    /// On this one, or on none, whatever it comes to.
    On(Option<u64>),
    /// On the first, if there is one, where the event is in turn, and else on the second.
    Calls(Option<u64>, Option<u64>),
    /// On the second, if there is one, and else on the map of the first number, if it is made.
    Makes(u64, Option<u64>),
}

/// Returns whether an event was out of turn.
pub fn is_busy<V>(outcome: &Outcome<V>) -> bool
    ensures { result ≡ is_busy outcome.now }
{
    matches!(outcome, Outcome::Refused(Fault::Busy))
}

/// Returns which single events an event is of, if it is in turn.
pub fn traced_as<K, V>(event: &Event<K, V>) -> Traced
    ensures { result ≡ traced event.now }
{
    match event {
        Event::Begin { .. } => Traced::Begins,
        Event::OneCall { .. } => Traced::Runs,
        Event::Step { .. } | Event::Go { .. } | Event::Next { .. } => Traced::Steps,
        _ => Traced::Whole,
    }
}

/// The number of the map that the call of this name is on.
fn called_map<K: Drop, V: Drop, S>(scheduler: &Scheduler<K, V, S>, caller: &Token) -> Option<u64>
    ensures { result ≡ called_map caller.now scheduler.now }
{
    match scheduler.calls.get(caller) {
        Some(called) => Some(called.map),
        None => None,
    }
}

/// Returns on which map an event is to act.
pub fn acting_of<K: Drop, V: Drop, S>(
    scheduler: &Scheduler<K, V, S>,
    event: &Event<K, V>,
) -> Result<ActedOn, AllocError>
    ensures { IfOk result (λ acting. acting ≡ acting_of event.now scheduler.now) }
{
    match event {
        Event::Step { caller, .. } => Ok(ActedOn::On(called_map(scheduler, caller))),
        Event::Go { caller, .. } => Ok(ActedOn::On(called_map(scheduler, caller))),
        Event::Next { caller } => Ok(ActedOn::On(called_map(scheduler, caller))),
        Event::OneCall { map, .. } => {
            let nameless = Token::copy_of(scheduler.maps.alloc(), b"-")?;
            Ok(ActedOn::Calls(scheduler.number_of(map), called_map(scheduler, &nameless)))
        }
        Event::MakeMap { map, .. } => Ok(ActedOn::Makes(
            scheduler.logged.executor.maps.len() as u64,
            scheduler.number_of(map),
        )),
        Event::EndMap { map } => Ok(ActedOn::On(scheduler.number_of(map))),
        _ => Ok(ActedOn::On(None)),
    }
}

impl ActedOn {
    /// Returns on which map it acts that came to this.
    pub fn map<V>(self, outcome: &Outcome<V>) -> Option<u64>
        ensures { result ≡ map_acted self outcome.now }
    {
        match self {
            ActedOn::On(map) => map,
            ActedOn::Calls(begun, other) => {
                if is_busy(outcome) {
                    other
                } else {
                    begun.or(other)
                }
            }
            ActedOn::Makes(made, other) => match outcome {
                Outcome::Done => other.or(Some(made)),
                _ => other,
            },
        }
    }
}

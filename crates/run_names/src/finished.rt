//! What a crew has come to.
ghost use Rattle.std.specs.Prelude.{◌≡◌, ◌↔◌, List, false, IfSome, IsTrue, IfNone};
ghost use Rattle.std.specs.List.{AllByRecursion};
ghost use Rattle.run_names.specs.Crews.Crew.{HoldsJust, held_by, held_first, same_applied, same_list};
ghost use Rattle.run_names.specs.declared.kept.Applied.{Applied};

use crate::driver::DriverOf;
use crate::kept::{Applied, KeptEvent};
use crate::name::CrewName;
use crate::runner::Runner;

/// The schedule that a crew kept, and its run.
#[derive(Drop)]
pub struct FinishedOf<E, U> {
    /// The events, each with the number of its driver.
    pub schedule: Vec<KeptEvent<E>>,
    /// Their run.
    pub run: U,
}

/// Whether an event with what it came to is the one that a driver lists.
fn is_listed<E, R: Runner<E>>(
    kept: &KeptEvent<E>,
    outcome: &R::Outcome,
    listed: &Applied<E, R::Outcome>,
) -> bool
    ensures { result ≡ same_applied R.same_event R.same_outcome (record { event = kept.now.event; outcome = outcome.now }) listed.now }
{
    R::is_same_event(&kept.event, &listed.event) && R::is_same_outcome(outcome, &listed.outcome)
}

/// What is left of a driver's list behind an event of the schedule, or none where it lists another one there.
fn left_after<'l, E, R: Runner<E>>(
    kept: &KeptEvent<E>,
    outcome: &R::Outcome,
    number: u64,
    list: &'l [Applied<E, R::Outcome>],
) -> Option<&'l [Applied<E, R::Outcome>]>
    ensures other { IfNone result ((later : List (Applied E R.Outcome)) → same_list R.same_event R.same_outcome (held_first number kept.now outcome.now later) list.now ≡ false) }
    ensures rest { IfSome result (λ rest. (later : List (Applied E R.Outcome)) → same_list R.same_event R.same_outcome (held_first number kept.now outcome.now later) list.now ≡ same_list R.same_event R.same_outcome later rest.now) }
{
    if kept.driver == number {
        let Some((listed, rest)) = list.split_first() else {
            return None;
        };
        if is_listed::<E, R>(kept, outcome, listed) {
            Some(rest)
        } else {
            None
        }
    } else {
        Some(list)
    }
}

/// Whether a schedule holds of this driver just its list.
fn holds_just<E, R: Runner<E>>(
    schedule: &[KeptEvent<E>],
    outcomes: &[R::Outcome],
    number: u64,
    list: &[Applied<E, R::Outcome>],
) -> bool
    ensures { result ≡ same_list R.same_event R.same_outcome (held_by number schedule.now outcomes.now) list.now }
{
    let mut left = list;
    let mut schedule = schedule;
    let mut outcomes = outcomes;
    while let Some((kept, later)) = schedule.split_first() {
        let Some((outcome, others)) = outcomes.split_first() else {
            return left.is_empty();
        };
        let Some(rest) = left_after::<E, R>(kept, outcome, number, left) else {
            return false;
        };
        left = rest;
        schedule = later;
        outcomes = others;
    }
    left.is_empty()
}

/// Whether a schedule holds of each of these drivers just its list.
pub(crate) fn agree<E, R: Runner<E>, N: CrewName>(
    schedule: &[KeptEvent<E>],
    outcomes: &[R::Outcome],
    drivers: &[DriverOf<E, R::Outcome, N>],
) -> bool
    ensures { IsTrue result ↔ AllByRecursion (HoldsJust R.same_event R.same_outcome schedule.now outcomes.now) drivers.now }
{
    let mut left = drivers;
    while let Some((driver, others)) = left.split_first() {
        if holds_just::<E, R>(schedule, outcomes, driver.number(), driver.list()) {
            left = others;
        } else {
            return false;
        }
    }
    true
}

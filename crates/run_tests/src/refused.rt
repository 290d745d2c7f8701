//! Events that are refused memory at one growth after another, and happen again.
use crate::Told;
use crate::rows::{MapRow, MapTry, Then};
use crate::steps::Made::{Get, Insert};
use crate::steps::Step::{self, Enter, Go, Make, Register, Says};
use crate::steps::{ABSENT, DONE, GOES, NO_MEMORY, SLOT, Shown, found, shown};
use papaya_raw::ResizeMode;
use papaya_steps::running::run_refusing;
use run_schedules::key_hash::KeyHash;
use run_schedules::setup::Setup;
use std::alloc::{AllocError, Global};

const SETUP: Setup = Setup {
    batch_size: 1,
    processors: 1,
    roots: 1,
};

/// An event, how many growths it may ask for, and what it is to come to.
type Planned = (Step, u64, Shown);

/// Whether the events come to what they are to.
fn plays(alloc: Global, hasher: KeyHash, planned: &[Planned]) -> Told<bool> {
    let mut events = Vec::new(alloc);
    let mut requests = Vec::new(alloc);
    for (step, left, _) in planned {
        events.push(step.event(alloc)?)?;
        requests.push(*left)?;
    }
    let run = run_refusing(
        alloc,
        SETUP,
        hasher,
        events,
        Vec::new(alloc),
        requests.as_slice(),
    )?;
    let mut is_so = run.outcomes.len() == planned.len();
    for ((_, _, comes_to), outcome) in planned.iter().zip(run.outcomes.iter()) {
        is_so = shown(outcome) == *comes_to && is_so;
    }
    Ok(is_so)
}

/// Makes the map and fills it: the pair of key k has the number k + 1.
fn filling(alloc: Global, row: &MapRow, mode: ResizeMode) -> Result<Vec<Planned>, AllocError> {
    let mut planned = Vec::new(alloc);
    planned.push((Register, u64::MAX, SLOT))?;
    planned.push((Make(mode, row.capacity), u64::MAX, DONE))?;
    planned.push((Enter, u64::MAX, DONE))?;
    for key in 0..row.keys {
        planned.push((Step::Call(Insert(key, 0)), u64::MAX, ABSENT))?;
    }
    Ok(planned)
}

/// What a key has.
fn had(key: u64, keys: u64, then: Then) -> Shown {
    match then {
        Then::Empty => ABSENT,
        Then::Lacks(gone) if gone == key => ABSENT,
        Then::Has(changed, number) if changed == key => found(number),
        _ if key < keys => found(key + 1),
        _ => ABSENT,
    }
}

/// The keys of the map, and the next one, have what they are to have.
fn add_lookups(planned: &mut Vec<Planned>, keys: u64, then: Then) -> Result<(), AllocError> {
    if let Then::Unseen = then {
        return Ok(());
    }
    for key in 0..=keys {
        planned.push((Step::Call(Get(key)), u64::MAX, had(key, keys, then)))?;
    }
    Ok(())
}

/// A call asks and is told, and comes to this, where it may ask for so many growths.
fn add_call(
    planned: &mut Vec<Planned>,
    tried: &MapTry,
    growths: u64,
    comes_to: Shown,
) -> Result<(), AllocError> {
    let (call, asks, _, _, _) = *tried;
    let mut step = Step::Call(call);
    for (question, told) in asks {
        planned.push((step, u64::MAX, *question))?;
        planned.push((Says(*told), u64::MAX, GOES))?;
        step = Go;
    }
    planned.push((step, growths, comes_to))?;
    Ok(())
}

/// Refuses memory at the first growth of a call, then at the second, and so on, through all that it asks for. Tells whether the pairs are as before, and the same call
/// afterwards comes to what it is to, and so does a call that is refused none.
fn refused_at_each(alloc: Global, row: &MapRow, mode: ResizeMode, tried: &MapTry) -> Told<bool> {
    let (_, _, comes_to, then, most) = *tried;
    let mut is_so = true;
    for growths in 0..most {
        let mut planned = filling(alloc, row, mode)?;
        add_call(&mut planned, tried, growths, NO_MEMORY)?;
        add_lookups(&mut planned, row.keys, Then::Same)?;
        add_call(&mut planned, tried, u64::MAX, comes_to)?;
        add_lookups(&mut planned, row.keys, then)?;
        is_so = plays(alloc, row.by, planned.as_slice())? && is_so;
    }
    let mut planned = filling(alloc, row, mode)?;
    add_call(&mut planned, tried, most, comes_to)?;
    add_lookups(&mut planned, row.keys, then)?;
    Ok(plays(alloc, row.by, planned.as_slice())? && is_so)
}

/// Tells whether this is so of each call of a row.
pub(crate) fn calls(alloc: Global, row: &MapRow) -> Told<bool> {
    let mut is_so = true;
    for mode in row.modes {
        for tried in row.tries {
            is_so = refused_at_each(alloc, row, *mode, tried)? && is_so;
        }
    }
    Ok(is_so)
}

/// Tells whether a registration and a map are refused, and made again.
pub(crate) fn makings(alloc: Global, mode: ResizeMode) -> Told<bool> {
    let planned = [
        (Make(mode, 6), 0, NO_MEMORY),
        (Make(mode, 6), 1, NO_MEMORY),
        (Make(mode, 6), 2, DONE),
        (Register, 0, NO_MEMORY),
        (Register, u64::MAX, SLOT),
    ];
    plays(alloc, KeyHash::Key, planned.as_slice())
}

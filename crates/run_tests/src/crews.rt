//! Two drivers on two threads; and drivers that list what did not happen so.
ghost use Rattle.std.specs.Prelude.{◌≡◌};

use crate::Told;
use crate::wrong::{Wrong, apply_wrongly};
use papaya_steps::{
    Call, CrewName, CrewOf, Driver, Event, Fault, Finished, KeyHash, OneKey, Outcome, ResizeMode,
    Run, Runner, Scheduled, Setup, Token, run,
};
use run_effects::outcomes;
use run_names::kept::events_again;
use std::alloc::{AllocError, Global};
use std::marker::Brand;
use std::sync::Wait;
use std::sync::ledger::Blank;
use std::thread::{Threads, for_each_mut};

const SETUP: Setup = Setup {
    batch_size: 1,
    processors: 1,
    roots: 1,
};

/// How many keys each driver stores pairs of.
const KEYS: u64 = 20;

type Ours = Scheduled<u64, u64, KeyHash>;

/// What the driver of this number does at this place: both store pairs of the same keys, each under a guard of its own.
fn event(alloc: Global, number: u64, place: u64) -> Result<Event<u64, u64>, AllocError> {
    let guard = Token::copy_of(alloc, if number == 0 { b"g" } else { b"h" })?;
    let map = Token::copy_of(alloc, b"m")?;
    Ok(match place {
        0 => Event::MakeMap {
            map,
            mode: ResizeMode::Incremental(1),
            capacity: 0,
        },
        1 => Event::Own { guard },
        2 => Event::DropGuard { guard },
        _ => Event::OneCall {
            guard,
            map,
            call: Call::On(OneKey::Insert(place, number)),
        },
    })
}

/// A driver applies its events, and drops its guard last.
fn apply_all<R: Runner<Event<u64, u64>, Outcome = Outcome<u64>>, N: CrewName, W: Wait>(
    rt: &W,
    alloc: Global,
    crew: &CrewOf<Event<u64, u64>, R, N>,
    driver: &mut Driver<u64, u64, N>,
) -> Result<(), Fault> {
    let number = driver.number();
    for nth in 0..KEYS + 3 {
        let place = match nth {
            0 | 1 => nth,
            _ => KEYS + 4 - nth,
        };
        driver.apply(rt, alloc, crew, event(alloc, number, place)?)?;
    }
    Ok(())
}

/// The drivers apply their events, each on a thread.
fn drive<
    R: Runner<Event<u64, u64>, Outcome = Outcome<u64>> + Send,
    N: CrewName + Send + Sync,
    W: Threads + Wait + Sync,
>(
    rt: &W,
    alloc: Global,
    crew: &CrewOf<Event<u64, u64>, R, N>,
    drivers: &mut [Driver<u64, u64, N>],
) {
    let work = |_: usize, driver: &mut Driver<u64, u64, N>| {
        let _ = apply_all(rt, alloc, crew, driver);
    };
    for_each_mut(rt, drivers, 2, &work);
}

/// Two drivers apply their events to a crew of theirs.
fn by_two<
    R: Runner<Event<u64, u64>, Outcome = Outcome<u64>, Run = Run<u64, u64>> + Send,
    N: CrewName + Send + Sync,
    W: Threads + Wait + Sync,
>(
    rt: &W,
    alloc: Global,
    setup: Setup,
    hasher: R::Hasher,
    blank: Blank,
) -> Result<Option<Finished<u64, u64>>, Fault>
where
    R::Hasher: Drop,
    requires copies { R.can_copy }
    requires setup { setup ≡ N.setup }
    requires name { blank.name ≡ N.name }
    requires parts { blank.parts ≡ N.parts }
    requires two { blank.parts ≡ 2 }
{
    let none = Vec::new(alloc);
    let (crew, mut drivers) = CrewOf::<_, R, N>::new(alloc, setup, hasher, none, 2, blank)?;
    drive(rt, alloc, &crew, drivers.as_mut_slice());
    crew.finish(alloc, drivers)
}

/// The same, by a ledger of its own.
fn two<W: Threads + Wait + Sync>(
    rt: &W,
    alloc: Global,
) -> Result<Option<Finished<u64, u64>>, Fault> {
    by_two::<Ours, Brand, W>(rt, alloc, SETUP, KeyHash::Key, Blank::new(2))
}

/// Whether the two runs came to the same, event by event.
fn came_to_the_same(one: &Run<u64, u64>, other: &Run<u64, u64>) -> bool {
    let mut is_so = one.outcomes.len() == other.outcomes.len();
    for (outcome, again) in one.outcomes.iter().zip(other.outcomes.iter()) {
        is_so = outcomes::same(outcome, again) && is_so;
    }
    is_so
        && one.steps.as_slice() == other.steps.as_slice()
        && one.effects.as_slice() == other.effects.as_slice()
        && one.trace.len() == other.trace.len()
}

/// Whether the same pairs were given back and kept.
fn has_the_same(one: &Run<u64, u64>, other: &Run<u64, u64>) -> bool {
    let mut is_so = one.given_back.len() == other.given_back.len()
        && one.kept.len() == other.kept.len();
    let pairs = one
        .given_back
        .as_slice()
        .iter()
        .chain(one.kept.as_slice().iter());
    let others = other
        .given_back
        .as_slice()
        .iter()
        .chain(other.kept.as_slice().iter());
    for (pair, again) in pairs.zip(others) {
        let same = pair.number == again.number
            && pair.key == again.key
            && pair.value == again.value;
        is_so = same && is_so;
    }
    is_so
}

/// Whether the same is left at the ends of the two runs.
fn left_the_same(one: &Run<u64, u64>, other: &Run<u64, u64>) -> bool {
    let mut is_so = has_the_same(one, other) && one.maps.len() == other.maps.len();
    for (map, again) in one.maps.iter().zip(other.maps.iter()) {
        let same = map.name.is(&again.name) && map.pairs.as_slice() == again.pairs.as_slice();
        is_so = same && is_so;
    }
    is_so
        && one.waiting.as_slice() == other.waiting.as_slice()
        && (one.tables, one.stored, one.live) == (other.tables, other.stored, other.live)
}

/// Tells whether two threads come to the run of the kept schedule.
pub(crate) fn meet<W: Threads + Wait + Sync>(rt: &W, alloc: Global) -> Told<bool> {
    let Some(finished) = two(rt, alloc)? else {
        return Ok(false);
    };
    let again = events_again::<_, Ours>(alloc, finished.schedule.as_slice())?;
    let run = run(alloc, SETUP, KeyHash::Key, again, Vec::new(alloc))?;
    let many = finished.schedule.len() == 46 && finished.run.stored == 40;
    Ok(many && came_to_the_same(&finished.run, &run) && left_the_same(&finished.run, &run))
}

/// One driver makes a map, as it says, or wrongly: whether the crew finds that they agree.
fn by_one<
    R: Runner<Event<u64, u64>, Outcome = Outcome<u64>, Run = Run<u64, u64>> + Drop,
    N: CrewName,
    W: Wait,
>(
    rt: &W,
    alloc: Global,
    setup: Setup,
    hasher: R::Hasher,
    blank: Blank,
    wrong: Wrong,
) -> Result<bool, Fault>
where
    R::Hasher: Drop,
    requires copies { R.can_copy }
    requires setup { setup ≡ N.setup }
    requires name { blank.name ≡ N.name }
    requires parts { blank.parts ≡ N.parts }
    requires one { blank.parts ≡ 1 }
{
    let none = Vec::new(alloc);
    let (crew, mut drivers) = CrewOf::<_, R, N>::new(alloc, setup, hasher, none, 1, blank)?;
    let Some(driver) = drivers.pop() else {
        unreachable!()
    };
    let driver = apply_wrongly(rt, alloc, &crew, driver, wrong)?;
    drivers.push(driver)?;
    Ok(crew.finish(alloc, drivers)?.is_some())
}

/// The same, by a ledger of its own.
fn one<W: Wait>(rt: &W, alloc: Global, wrong: Wrong) -> Result<bool, Fault> {
    by_one::<Ours, Brand, W>(rt, alloc, SETUP, KeyHash::Key, Blank::new(1), wrong)
}

/// Tells whether a driver that lists what it did not apply is found, and no other one.
pub(crate) fn finds_the_wrong<W: Wait>(rt: &W, alloc: Global) -> Told<bool> {
    let right = one(rt, alloc, Wrong::Nothing)?;
    Ok(right && !one(rt, alloc, Wrong::Event)? && !one(rt, alloc, Wrong::Outcome)?)
}

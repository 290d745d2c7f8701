//! Four threads store, remove and refresh in one run, each by a driver of a crew; then what is left at its end is printed.
ghost use Rattle.std.specs.Prelude.{◌≡◌};

use papaya_steps::{
    Call, Crew, CrewName, CrewOf, Driver, Event, Fault, KeyHash, OneKey, Outcome, ResizeMode, Run,
    Runner, Setup, Token,
};
use std::alloc::Global;
use std::io;
use std::sync::Wait;
use std::sync::ledger::Blank;
use std::thread::{Threads, for_each_mut};

/// What a driver does at this place, under a guard of its own and on keys of its own. The first driver to come makes the map.
fn event(alloc: Global, number: u64, place: u64) -> Result<Event<u64, u64>, Fault> {
    let guard = Token::copy_of(alloc, &[b'a' + (number % 4) as u8])?;
    let map = Token::copy_of(alloc, b"m")?;
    let key = number % 4 * 100 + place / 4;
    let call = Call::On(match place % 4 {
        2 => OneKey::Remove(key / 2 * 2),
        _ => OneKey::Insert(key, place),
    });
    Ok(match place {
        0 => Event::MakeMap {
            map,
            mode: ResizeMode::Blocking,
            capacity: 0,
        },
        1 => Event::Own { guard },
        43 => Event::DropGuard { guard },
        44 => Event::ReclaimAll,
        _ if place % 4 == 3 => Event::Refresh { guard },
        _ => Event::OneCall { guard, map, call },
    })
}

/// Each driver does its part, on a thread of its own.
fn drive<R: Runner<Event<u64, u64>, Outcome = Outcome<u64>> + Send, N: CrewName + Send + Sync>(
    rt: &(impl Threads + Wait + Sync),
    alloc: Global,
    crew: &CrewOf<Event<u64, u64>, R, N>,
    drivers: &mut [Driver<u64, u64, N>],
) {
    let work = |_: usize, driver: &mut Driver<u64, u64, N>| {
        for place in 0..45 {
            if let Ok(event) = event(alloc, driver.number(), place) {
                let _ = driver.apply(rt, alloc, crew, event);
            }
        }
    };
    for_each_mut(rt, drivers, 4, &work);
}

/// The run to which four drivers apply their events.
fn by_four<N: CrewName + Send + Sync>(
    rt: &(impl Threads + Wait + Sync),
    alloc: Global,
    blank: Blank,
) -> Result<Option<Run<u64, u64>>, Fault>
    requires { (N.setup ≡ record { batch_size = 1; processors = 4; roots = 1 }) × (blank.name ≡ N.name) × (blank.parts ≡ N.parts) × (blank.parts ≡ 4) }
{
    let setup = Setup {
        batch_size: 1,
        processors: 4,
        roots: 1,
    };
    let none = Vec::new(alloc);
    let (crew, mut drivers) = Crew::<_, _, _, N>::new(alloc, setup, KeyHash::Key, none, 4, blank)?;
    drive(rt, alloc, &crew, drivers.as_mut_slice());
    Ok(crew.finish(alloc, drivers)?.map(|done| done.run))
}

/// Four drivers apply their events to one run, and it is told what is left.
pub(crate) fn run<R: Threads + Wait + Sync + Print>(rt: &R, alloc: Global) -> io::Result<()> {
    let mut pairs = Vec::new(alloc);
    if let Ok(Some(run)) = by_four::<std::marker::Brand>(rt, alloc, Blank::new(4)) {
        for pair in run.kept.as_slice() {
            pairs.push((pair.key, pair.value))?;
        }
        println!(rt; "stored {} tables {}", run.stored, run.tables)?;
    }
    pairs.sort()?;
    println!(rt; "map m {pairs:?}")
}

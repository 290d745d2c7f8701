//! Wrong drivers: one that hands on another event than it lists, and one that invents what its event came to.
use papaya_steps::{
    Applied, CrewName, CrewOf, Driver, DriverOf, Event, Fault, Outcome, ResizeMode, Runner, Token,
};
use run_effects::events;
use std::alloc::{AllocError, Global};
use std::sync::Wait;

/// What a driver does wrongly.
#[derive(Clone, Copy)]
pub enum Wrong {
    /// It lists what it hands on, as what this came to.
    Nothing,
    /// It hands on another event.
    Event,
    /// It invents what its event came to.
    Outcome,
}

fn make(alloc: Global) -> Result<Event<u64, u64>, AllocError> {
    Ok(Event::MakeMap {
        map: Token::copy_of(alloc, b"m")?,
        mode: ResizeMode::Incremental(1),
        capacity: 0,
    })
}

/// Lets a driver make a map, as it lists, or wrongly.
pub fn apply_wrongly<R: Runner<Event<u64, u64>, Outcome = Outcome<u64>>, N: CrewName, W: Wait>(
    rt: &W,
    alloc: Global,
    crew: &CrewOf<Event<u64, u64>, R, N>,
    driver: Driver<u64, u64, N>,
    wrong: Wrong,
) -> Result<Driver<u64, u64, N>, Fault> {
    let (number, mut list, mut share) = driver.into_parts();
    list.reserve(1)?;
    let event = make(alloc)?;
    let handed = match wrong {
        Wrong::Event => Event::ReclaimAll,
        _ => events::copy_of(alloc, &event)?,
    };
    let (kept, _) = crew.happens(rt, alloc, &mut share, number, handed)?;
    let Applied {
        event: _,
        outcome: told,
    } = kept;
    let outcome = match wrong {
        Wrong::Outcome => Outcome::Goes,
        _ => told,
    };
    list.push_reserved(Applied { event, outcome });
    Ok(DriverOf::of(number, list, share))
}

//! Reading the event on a map that a line says, or of a caller.
ghost use Rattle.std.specs.Prelude.{◌≡◌, Ok, option_copied};
ghost use Rattle.reclaimed_script.specs.Words.{words_left};
ghost use Rattle.reclaimed_script.specs.Lines.{incremental_of, blocking_of, map_of, end_of, shape_of, map_event_from, ReturnsWhatItSays};

use crate::callers::caller_event_from;
use crate::fault::{LineFault, LineStop};
use crate::kinds::{name_of, number_of};
use crate::words::{next_of, one_of, two_of};
use papaya_raw::ResizeMode;
use run_schedules::event::Event;
use run_schedules::token::Token;
use std::alloc::Global;

/// The event that makes a map, whose name is known.
fn make_map(
    alloc: Global,
    map: &[u8],
    mode: ResizeMode,
    capacity: u64,
) -> Result<Event<u64, Token>, LineStop>
    ensures { ReturnsWhatItSays result (Ok (Event.MakeMap map.now mode capacity)) }
{
    Ok(Event::MakeMap {
        map: Token::copy_of(alloc, map)?,
        mode,
        capacity,
    })
}

#[tactic(auto, unfolding(crate::specs::Lines::incremental_of))]
fn incremental_of(
    alloc: Global,
    map: &[u8],
    rest: Option<&[u8]>,
) -> Result<Event<u64, Token>, LineStop>
    ensures { ReturnsWhatItSays result (incremental_of map.now (words_left (option_copied rest.entry))) }
{
    let (places, capacity) = two_of(rest)?;
    let map = name_of(map)?;
    let places = number_of(places)?;
    let capacity = number_of(capacity)?;
    make_map(alloc, map, ResizeMode::Incremental(places), capacity)
}

#[tactic(auto, unfolding(crate::specs::Lines::blocking_of))]
fn blocking_of(
    alloc: Global,
    map: &[u8],
    rest: Option<&[u8]>,
) -> Result<Event<u64, Token>, LineStop>
    ensures { ReturnsWhatItSays result (blocking_of map.now (words_left (option_copied rest.entry))) }
{
    let capacity = one_of(rest)?;
    let map = name_of(map)?;
    let capacity = number_of(capacity)?;
    make_map(alloc, map, ResizeMode::Blocking, capacity)
}

#[tactic(auto, unfolding(crate::specs::Lines::map_of))]
fn map_of(alloc: Global, rest: Option<&[u8]>) -> Result<Event<u64, Token>, LineStop>
    ensures { ReturnsWhatItSays result (map_of (words_left (option_copied rest.entry))) }
{
    let (map, rest) = next_of(rest)?;
    let (mode, rest) = next_of(rest)?;
    if mode == b"inc".as_slice() {
        incremental_of(alloc, map, rest)
    } else if mode == b"block".as_slice() {
        blocking_of(alloc, map, rest)
    } else {
        Err(LineStop::Fault(LineFault::BadWord))
    }
}

#[tactic(auto, unfolding(crate::specs::Lines::end_of))]
fn end_of(alloc: Global, rest: Option<&[u8]>) -> Result<Event<u64, Token>, LineStop>
    ensures { ReturnsWhatItSays result (end_of (words_left (option_copied rest.entry))) }
{
    let map = name_of(one_of(rest)?)?;
    Ok(Event::EndMap {
        map: Token::copy_of(alloc, map)?,
    })
}

#[tactic(auto, unfolding(crate::specs::Lines::shape_of))]
fn shape_of(alloc: Global, rest: Option<&[u8]>) -> Result<Event<u64, Token>, LineStop>
    ensures { ReturnsWhatItSays result (shape_of (words_left (option_copied rest.entry))) }
{
    let map = name_of(one_of(rest)?)?;
    Ok(Event::ShowShape {
        map: Token::copy_of(alloc, map)?,
    })
}

/// Returns the event of a line on a map or of a caller, whose first word this is.
#[tactic(auto, unfolding(crate::specs::Lines::map_event_from))]
pub fn map_event_from(
    alloc: Global,
    first: &[u8],
    rest: Option<&[u8]>,
) -> Result<Event<u64, Token>, LineStop>
    ensures { ReturnsWhatItSays result (map_event_from first.now (words_left (option_copied rest.entry))) }
{
    if first == b"map".as_slice() {
        map_of(alloc, rest)
    } else if first == b"end".as_slice() {
        end_of(alloc, rest)
    } else if first == b"shape".as_slice() {
        shape_of(alloc, rest)
    } else {
        caller_event_from(alloc, first, rest)
    }
}

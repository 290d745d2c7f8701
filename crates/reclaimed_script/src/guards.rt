//! Reading the event on a guard that a line says, or on a map.
ghost use Rattle.std.specs.Prelude.{◌≡◌, option_copied};
ghost use Rattle.reclaimed_script.specs.Words.{words_left};
ghost use Rattle.reclaimed_script.specs.Lines.{enter_of, own_of, refresh_of, flush_of, drop_of, forget_of, guard_event_from, ReturnsWhatItSays};

use crate::fault::LineStop;
use crate::kinds::name_of;
use crate::maps::map_event_from;
use crate::words::{one_of, two_of};
use run_schedules::event::Event;
use run_schedules::token::Token;
use std::alloc::Global;

#[tactic(auto, unfolding(crate::specs::Lines::enter_of))]
fn enter_of(alloc: Global, rest: Option<&[u8]>) -> Result<Event<u64, Token>, LineStop>
    ensures { ReturnsWhatItSays result (enter_of (words_left (option_copied rest.entry))) }
{
    let (guard, registration) = two_of(rest)?;
    let guard = name_of(guard)?;
    let registration = name_of(registration)?;
    Ok(Event::Enter {
        guard: Token::copy_of(alloc, guard)?,
        registration: Token::copy_of(alloc, registration)?,
    })
}

#[tactic(auto, unfolding(crate::specs::Lines::own_of))]
fn own_of(alloc: Global, rest: Option<&[u8]>) -> Result<Event<u64, Token>, LineStop>
    ensures { ReturnsWhatItSays result (own_of (words_left (option_copied rest.entry))) }
{
    let guard = name_of(one_of(rest)?)?;
    Ok(Event::Own {
        guard: Token::copy_of(alloc, guard)?,
    })
}

#[tactic(auto, unfolding(crate::specs::Lines::refresh_of))]
fn refresh_of(alloc: Global, rest: Option<&[u8]>) -> Result<Event<u64, Token>, LineStop>
    ensures { ReturnsWhatItSays result (refresh_of (words_left (option_copied rest.entry))) }
{
    let guard = name_of(one_of(rest)?)?;
    Ok(Event::Refresh {
        guard: Token::copy_of(alloc, guard)?,
    })
}

#[tactic(auto, unfolding(crate::specs::Lines::flush_of))]
fn flush_of(alloc: Global, rest: Option<&[u8]>) -> Result<Event<u64, Token>, LineStop>
    ensures { ReturnsWhatItSays result (flush_of (words_left (option_copied rest.entry))) }
{
    let guard = name_of(one_of(rest)?)?;
    Ok(Event::Flush {
        guard: Token::copy_of(alloc, guard)?,
    })
}

#[tactic(auto, unfolding(crate::specs::Lines::drop_of))]
fn drop_of(alloc: Global, rest: Option<&[u8]>) -> Result<Event<u64, Token>, LineStop>
    ensures { ReturnsWhatItSays result (drop_of (words_left (option_copied rest.entry))) }
{
    let guard = name_of(one_of(rest)?)?;
    Ok(Event::DropGuard {
        guard: Token::copy_of(alloc, guard)?,
    })
}

#[tactic(auto, unfolding(crate::specs::Lines::forget_of))]
fn forget_of(alloc: Global, rest: Option<&[u8]>) -> Result<Event<u64, Token>, LineStop>
    ensures { ReturnsWhatItSays result (forget_of (words_left (option_copied rest.entry))) }
{
    let guard = name_of(one_of(rest)?)?;
    Ok(Event::Forget {
        guard: Token::copy_of(alloc, guard)?,
    })
}

/// Returns the event of a line on a guard or a map, whose first word this is.
#[tactic(auto, unfolding(crate::specs::Lines::guard_event_from))]
pub fn guard_event_from(
    alloc: Global,
    first: &[u8],
    rest: Option<&[u8]>,
) -> Result<Event<u64, Token>, LineStop>
    ensures { ReturnsWhatItSays result (guard_event_from first.now (words_left (option_copied rest.entry))) }
{
    if first == b"enter".as_slice() {
        enter_of(alloc, rest)
    } else if first == b"own".as_slice() {
        own_of(alloc, rest)
    } else if first == b"refresh".as_slice() {
        refresh_of(alloc, rest)
    } else if first == b"flush".as_slice() {
        flush_of(alloc, rest)
    } else if first == b"drop".as_slice() {
        drop_of(alloc, rest)
    } else if first == b"forget".as_slice() {
        forget_of(alloc, rest)
    } else {
        map_event_from(alloc, first, rest)
    }
}

//! Reading the event of a caller that a line says. Every word is tested before memory is asked for.
ghost use Rattle.std.specs.Prelude.{◌≡◌, option_copied};
ghost use Rattle.reclaimed_script.specs.Words.{words_left};
ghost use Rattle.reclaimed_script.specs.Lines.{call_of, begin_of, step_of, go_of, reply_of, walk_next_of, stop_of, caller_event_from, ReturnsWhatItSays};

use crate::calls::call_said;
use crate::fault::{LineFault, LineStop};
use crate::kinds::{caller_of, name_of};
use crate::replies::{nomem_of, reply_said};
use crate::words::{next_of, one_of};
use run_schedules::event::Event;
use run_schedules::token::Token;
use std::alloc::Global;

#[tactic(auto, unfolding(crate::specs::Lines::call_of))]
fn call_of(alloc: Global, rest: Option<&[u8]>) -> Result<Event<u64, Token>, LineStop>
    ensures { ReturnsWhatItSays result (call_of (words_left (option_copied rest.entry))) }
{
    let (guard, rest) = next_of(rest)?;
    let (map, rest) = next_of(rest)?;
    let call = call_said(rest)?;
    let guard = name_of(guard)?;
    let map = name_of(map)?;
    Ok(Event::OneCall {
        guard: Token::copy_of(alloc, guard)?,
        map: Token::copy_of(alloc, map)?,
        call: call.copied(alloc)?,
    })
}

#[tactic(auto, unfolding(crate::specs::Lines::begin_of))]
fn begin_of(alloc: Global, rest: Option<&[u8]>) -> Result<Event<u64, Token>, LineStop>
    ensures { ReturnsWhatItSays result (begin_of (words_left (option_copied rest.entry))) }
{
    let (caller, rest) = next_of(rest)?;
    let (guard, rest) = next_of(rest)?;
    let (map, rest) = next_of(rest)?;
    let call = call_said(rest)?;
    let caller = caller_of(caller)?;
    let guard = name_of(guard)?;
    let map = name_of(map)?;
    Ok(Event::Begin {
        caller: Token::copy_of(alloc, caller)?,
        guard: Token::copy_of(alloc, guard)?,
        map: Token::copy_of(alloc, map)?,
        call: call.copied(alloc)?,
    })
}

#[tactic(auto, unfolding(crate::specs::Lines::step_of))]
fn step_of(alloc: Global, rest: Option<&[u8]>) -> Result<Event<u64, Token>, LineStop>
    ensures { ReturnsWhatItSays result (step_of (words_left (option_copied rest.entry))) }
{
    let (caller, rest) = next_of(rest)?;
    let refuse = nomem_of(rest)?;
    let caller = caller_of(caller)?;
    Ok(Event::Step {
        caller: Token::copy_of(alloc, caller)?,
        refuse,
    })
}

#[tactic(auto, unfolding(crate::specs::Lines::go_of))]
fn go_of(alloc: Global, rest: Option<&[u8]>) -> Result<Event<u64, Token>, LineStop>
    ensures { ReturnsWhatItSays result (go_of (words_left (option_copied rest.entry))) }
{
    let (caller, rest) = next_of(rest)?;
    let refuse = nomem_of(rest)?;
    let caller = caller_of(caller)?;
    Ok(Event::Go {
        caller: Token::copy_of(alloc, caller)?,
        refuse,
    })
}

#[tactic(auto, unfolding(crate::specs::Lines::reply_of))]
fn reply_of(alloc: Global, rest: Option<&[u8]>) -> Result<Event<u64, Token>, LineStop>
    ensures { ReturnsWhatItSays result (reply_of (words_left (option_copied rest.entry))) }
{
    let (caller, rest) = next_of(rest)?;
    let reply = reply_said(rest)?;
    let caller = caller_of(caller)?;
    Ok(Event::Replied {
        caller: Token::copy_of(alloc, caller)?,
        reply: reply.copied(alloc)?,
    })
}

#[tactic(auto, unfolding(crate::specs::Lines::walk_next_of))]
fn walk_next_of(alloc: Global, rest: Option<&[u8]>) -> Result<Event<u64, Token>, LineStop>
    ensures { ReturnsWhatItSays result (walk_next_of (words_left (option_copied rest.entry))) }
{
    let caller = caller_of(one_of(rest)?)?;
    Ok(Event::Next {
        caller: Token::copy_of(alloc, caller)?,
    })
}

#[tactic(auto, unfolding(crate::specs::Lines::stop_of))]
fn stop_of(alloc: Global, rest: Option<&[u8]>) -> Result<Event<u64, Token>, LineStop>
    ensures { ReturnsWhatItSays result (stop_of (words_left (option_copied rest.entry))) }
{
    let caller = caller_of(one_of(rest)?)?;
    Ok(Event::Stop {
        caller: Token::copy_of(alloc, caller)?,
    })
}

/// Returns the event of a line of a caller, whose first word this is.
#[tactic(auto, unfolding(crate::specs::Lines::caller_event_from))]
pub fn caller_event_from(
    alloc: Global,
    first: &[u8],
    rest: Option<&[u8]>,
) -> Result<Event<u64, Token>, LineStop>
    ensures { ReturnsWhatItSays result (caller_event_from first.now (words_left (option_copied rest.entry))) }
{
    if first == b"call".as_slice() {
        call_of(alloc, rest)
    } else if first == b"begin".as_slice() {
        begin_of(alloc, rest)
    } else if first == b"step".as_slice() {
        step_of(alloc, rest)
    } else if first == b"go".as_slice() {
        go_of(alloc, rest)
    } else if first == b"reply".as_slice() {
        reply_of(alloc, rest)
    } else if first == b"next".as_slice() {
        walk_next_of(alloc, rest)
    } else if first == b"stop".as_slice() {
        stop_of(alloc, rest)
    } else {
        Err(LineStop::Fault(LineFault::UnknownEvent))
    }
}

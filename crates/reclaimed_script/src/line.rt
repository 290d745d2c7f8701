//! Reading the event that a line says. Every word is tested before memory is asked for.
ghost use Rattle.std.specs.Prelude.{◌≡◌, option_copied};
ghost use Rattle.reclaimed_script.specs.Words.{words_left, Gives};
ghost use Rattle.reclaimed_script.specs.Lines.{collector_of, key_hash_of, hash_of, choose_of, register_of, unregister_of, reclaim_all_of, close_of, event_from, event_of, ReturnsWhatItSays};

use crate::fault::{LineFault, LineStop};
use crate::guards::guard_event_from;
use crate::kinds::{name_of, number_between, number_of};
use crate::words::{cut, none_of, one_of, three_of};
use run_schedules::event::Event;
use run_schedules::key_hash::KeyHash;
use run_schedules::setup::Setup;
use run_schedules::token::Token;
use std::alloc::Global;

#[tactic(auto, unfolding(crate::specs::Lines::collector_of))]
fn collector_of(rest: Option<&[u8]>) -> Result<Event<u64, Token>, LineFault>
    ensures { Gives (λ e. e) result (collector_of (words_left (option_copied rest.entry))) }
{
    let (batch_size, processors, roots) = three_of(rest)?;
    Ok(Event::Collector(Setup {
        batch_size: number_of(batch_size)?,
        processors: number_between(1, 1 << 63, processors)?,
        roots: number_between(1, 65536, roots)?,
    }))
}

/// A word as a way of hashing keys.
fn key_hash_of(word: &[u8]) -> Result<KeyHash, LineFault>
    ensures { result ≡ key_hash_of word.now }
{
    if word == b"key".as_slice() {
        Ok(KeyHash::Key)
    } else if word == b"zero".as_slice() {
        Ok(KeyHash::Zero)
    } else {
        Err(LineFault::BadWord)
    }
}

#[tactic(auto, unfolding(crate::specs::Lines::hash_of))]
fn hash_of(rest: Option<&[u8]>) -> Result<Event<u64, Token>, LineFault>
    ensures { Gives (λ e. e) result (hash_of (words_left (option_copied rest.entry))) }
{
    Ok(Event::Hash(key_hash_of(one_of(rest)?)?))
}

#[tactic(auto, unfolding(crate::specs::Lines::choose_of))]
fn choose_of(rest: Option<&[u8]>) -> Result<Event<u64, Token>, LineFault>
    ensures { Gives (λ e. e) result (choose_of (words_left (option_copied rest.entry))) }
{
    Ok(Event::Choose(number_of(one_of(rest)?)?))
}

#[tactic(auto, unfolding(crate::specs::Lines::register_of))]
fn register_of(alloc: Global, rest: Option<&[u8]>) -> Result<Event<u64, Token>, LineStop>
    ensures { ReturnsWhatItSays result (register_of (words_left (option_copied rest.entry))) }
{
    let registration = name_of(one_of(rest)?)?;
    Ok(Event::Register {
        registration: Token::copy_of(alloc, registration)?,
    })
}

#[tactic(auto, unfolding(crate::specs::Lines::unregister_of))]
fn unregister_of(alloc: Global, rest: Option<&[u8]>) -> Result<Event<u64, Token>, LineStop>
    ensures { ReturnsWhatItSays result (unregister_of (words_left (option_copied rest.entry))) }
{
    let registration = name_of(one_of(rest)?)?;
    Ok(Event::Unregister {
        registration: Token::copy_of(alloc, registration)?,
    })
}

#[tactic(auto, unfolding(crate::specs::Lines::reclaim_all_of))]
fn reclaim_all_of(rest: Option<&[u8]>) -> Result<Event<u64, Token>, LineFault>
    ensures { Gives (λ e. e) result (reclaim_all_of (words_left (option_copied rest.entry))) }
{
    none_of(rest)?;
    Ok(Event::ReclaimAll)
}

#[tactic(auto, unfolding(crate::specs::Lines::close_of))]
fn close_of(rest: Option<&[u8]>) -> Result<Event<u64, Token>, LineFault>
    ensures { Gives (λ e. e) result (close_of (words_left (option_copied rest.entry))) }
{
    none_of(rest)?;
    Ok(Event::Close)
}

/// The event of a line, whose first word this is.
#[tactic(auto, unfolding(crate::specs::Lines::event_from))]
fn event_from(
    alloc: Global,
    first: &[u8],
    rest: Option<&[u8]>,
) -> Result<Event<u64, Token>, LineStop>
    ensures { ReturnsWhatItSays result (event_from first.now (words_left (option_copied rest.entry))) }
{
    if first == b"collector".as_slice() {
        Ok(collector_of(rest)?)
    } else if first == b"hash".as_slice() {
        Ok(hash_of(rest)?)
    } else if first == b"choose".as_slice() {
        Ok(choose_of(rest)?)
    } else if first == b"register".as_slice() {
        register_of(alloc, rest)
    } else if first == b"unregister".as_slice() {
        unregister_of(alloc, rest)
    } else if first == b"reclaim_all".as_slice() {
        Ok(reclaim_all_of(rest)?)
    } else if first == b"close".as_slice() {
        Ok(close_of(rest)?)
    } else {
        guard_event_from(alloc, first, rest)
    }
}

/// Returns the event that a line says, apart from the line's length and number. Memory is asked for only once the line is known to have no fault.
#[tactic(auto, unfolding(crate::specs::Lines::event_of, crate::specs::Lines::event_of_words))]
pub fn event_of(alloc: Global, line: &[u8]) -> Result<Event<u64, Token>, LineStop>
    ensures { ReturnsWhatItSays result (event_of line.now) }
{
    let (first, rest) = cut(line);
    event_from(alloc, first, rest)
}

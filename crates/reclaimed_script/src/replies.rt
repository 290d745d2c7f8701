//! Reading the reply that words say, with no memory: its value is copied once the whole line is known to have no fault.
ghost use Rattle.std.specs.Prelude.{◌≡◌, IfOk, option_copied};
ghost use Rattle.reclaimed_script.specs.Words.{words_left, Gives};
ghost use Rattle.reclaimed_script.specs.Calls.{alone, one_value, reply_from, reply_said, reply_of_said, nomem_of};

use crate::fault::LineFault;
use crate::kinds::value_of;
use crate::words::{next_of, none_of, one_of};
use run_schedules::call::Reply;
use run_schedules::token::Token;
use std::alloc::{AllocError, Global};

/// A reply that was read.
#[derive(Drop)]
pub enum SaidReply<'a> {
    /// One that has no value.
    Bare(Reply<Token>),
    /// A value to be stored.
    Gives(&'a [u8]),
    /// What is to be answered where nothing is to be done.
    Aborts(&'a [u8]),
}

impl SaidReply<'_> {
    /// Returns the reply, with a copy of its value.
    pub fn copied(self, alloc: Global) -> Result<Reply<Token>, AllocError>
        ensures { IfOk result (λ reply. reply ≡ reply_of_said self.entry) }
    {
        match self {
            SaidReply::Bare(reply) => Ok(reply),
            SaidReply::Gives(value) => Ok(Reply::Gives(Token::copy_of(alloc, value)?)),
            SaidReply::Aborts(value) => Ok(Reply::Aborts(Token::copy_of(alloc, value)?)),
        }
    }
}

/// What is left, as one value.
#[tactic(auto, unfolding(crate::specs::Calls::one_value))]
fn one_value(rest: Option<&[u8]>) -> Result<&[u8], LineFault>
    ensures { Gives (λ x. x.now) result (one_value (words_left (option_copied rest.entry))) }
{
    value_of(one_of(rest)?)
}

/// This reply, behind which no word is left.
fn alone(reply: Reply<Token>, rest: Option<&[u8]>) -> Result<SaidReply<'_>, LineFault>
    ensures { Gives reply_of_said result (alone reply (words_left (option_copied rest.entry))) }
{
    none_of(rest)?;
    Ok(SaidReply::Bare(reply))
}

/// The reply whose first word this is.
#[tactic(auto, unfolding(crate::specs::Calls::reply_from))]
fn reply_from<'a>(first: &[u8], rest: Option<&'a [u8]>) -> Result<SaidReply<'a>, LineFault>
    ensures { Gives reply_of_said result (reply_from first.now (words_left (option_copied rest.entry))) }
{
    if first == b"insert".as_slice() {
        Ok(SaidReply::Gives(one_value(rest)?))
    } else if first == b"remove".as_slice() {
        alone(Reply::Removes, rest)
    } else if first == b"abort".as_slice() {
        Ok(SaidReply::Aborts(one_value(rest)?))
    } else if first == b"yes".as_slice() {
        alone(Reply::Decides(true), rest)
    } else if first == b"no".as_slice() {
        alone(Reply::Decides(false), rest)
    } else {
        Err(LineFault::BadWord)
    }
}

/// Reads what is left as a reply: its first word decides the form.
#[tactic(auto, unfolding(crate::specs::Calls::reply_said))]
pub fn reply_said(rest: Option<&[u8]>) -> Result<SaidReply<'_>, LineFault>
    ensures { Gives reply_of_said result (reply_said (words_left (option_copied rest.entry))) }
{
    let (first, rest) = next_of(rest)?;
    reply_from(first, rest)
}

/// Reads what is left as a refusal of a growth: no word, or `nomem`.
pub fn nomem_of(rest: Option<&[u8]>) -> Result<bool, LineFault>
    ensures { result ≡ nomem_of (words_left (option_copied rest.entry)) }
{
    match next_of(rest) {
        Err(_) => Ok(false),
        Ok((word, rest)) => {
            none_of(rest)?;
            if word == b"nomem".as_slice() {
                Ok(true)
            } else {
                Err(LineFault::BadWord)
            }
        }
    }
}

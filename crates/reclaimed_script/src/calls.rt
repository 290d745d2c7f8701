//! Reading the call that words say, with no memory: its value is copied once the whole line is known to have no fault.
ghost use Rattle.std.specs.Prelude.{◌≡◌, IfOk, option_copied};
ghost use Rattle.reclaimed_script.specs.Words.{words_left, Gives};
ghost use Rattle.reclaimed_script.specs.Calls.{one_number, key_and_value, key_call_from, alone, whole_call_from, call_from, call_said, call_of_said};

use crate::fault::LineFault;
use crate::kinds::{number_of, value_of};
use crate::words::{next_of, none_of, one_of, two_of};
use run_schedules::call::{Call, OneKey};
use run_schedules::token::Token;
use std::alloc::{AllocError, Global};

/// A call that was read.
#[derive(Drop)]
pub enum SaidCall<'a> {
    /// One that has no value.
    Bare(Call<u64, Token>),
    /// A pair to be stored, also in the place of another one of its key.
    Insert(u64, &'a [u8]),
    /// A pair to be stored, if its key has none.
    TryInsert(u64, &'a [u8]),
}

impl SaidCall<'_> {
    /// Returns the call, with a copy of its value.
    pub fn copied(self, alloc: Global) -> Result<Call<u64, Token>, AllocError>
        ensures { IfOk result (λ call. call ≡ call_of_said self.entry) }
    {
        match self {
            SaidCall::Bare(call) => Ok(call),
            SaidCall::Insert(key, value) => {
                Ok(Call::On(OneKey::Insert(key, Token::copy_of(alloc, value)?)))
            }
            SaidCall::TryInsert(key, value) => {
                Ok(Call::On(OneKey::TryInsert(key, Token::copy_of(alloc, value)?)))
            }
        }
    }
}

/// What is left, as one number.
#[tactic(auto, unfolding(crate::specs::Calls::one_number))]
fn one_number(rest: Option<&[u8]>) -> Result<u64, LineFault>
    ensures { result ≡ one_number (words_left (option_copied rest.entry)) }
{
    number_of(one_of(rest)?)
}

/// What is left, as a key and a value.
#[tactic(auto, unfolding(crate::specs::Calls::key_and_value))]
fn key_and_value(rest: Option<&[u8]>) -> Result<(u64, &[u8]), LineFault>
    ensures { Gives (λ x. (x.0, x.1.now)) result (key_and_value (words_left (option_copied rest.entry))) }
{
    let (key, value) = two_of(rest)?;
    let key = number_of(key)?;
    Ok((key, value_of(value)?))
}

/// A call that speaks of a key alone.
#[tactic(auto, unfolding(crate::specs::Calls::key_call_from))]
fn key_call_from(first: &[u8], rest: Option<&[u8]>) -> Result<Call<u64, Token>, LineFault>
    ensures { Gives (λ x. x) result (key_call_from first.now (words_left (option_copied rest.entry))) }
{
    if first == b"get".as_slice() {
        Ok(Call::On(OneKey::Get(one_number(rest)?)))
    } else if first == b"remove".as_slice() {
        Ok(Call::On(OneKey::Remove(one_number(rest)?)))
    } else if first == b"remove_if".as_slice() {
        Ok(Call::On(OneKey::RemoveIf(one_number(rest)?)))
    } else if first == b"compute".as_slice() {
        Ok(Call::On(OneKey::Compute(one_number(rest)?)))
    } else {
        Err(LineFault::BadWord)
    }
}

/// This call, behind which no word is left.
fn alone(call: Call<u64, Token>, rest: Option<&[u8]>) -> Result<Call<u64, Token>, LineFault>
    ensures { Gives (λ x. x) result (alone call (words_left (option_copied rest.entry))) }
{
    none_of(rest)?;
    Ok(call)
}

/// A call on the whole map, or one that speaks of a key alone.
#[tactic(auto, unfolding(crate::specs::Calls::whole_call_from))]
fn whole_call_from(first: &[u8], rest: Option<&[u8]>) -> Result<Call<u64, Token>, LineFault>
    ensures { Gives (λ x. x) result (whole_call_from first.now (words_left (option_copied rest.entry))) }
{
    if first == b"reserve".as_slice() {
        Ok(Call::Reserve(one_number(rest)?))
    } else if first == b"clear".as_slice() {
        alone(Call::Clear, rest)
    } else if first == b"retain".as_slice() {
        alone(Call::Retain, rest)
    } else if first == b"len".as_slice() {
        alone(Call::Len, rest)
    } else if first == b"walk".as_slice() {
        alone(Call::Walk, rest)
    } else {
        key_call_from(first, rest)
    }
}

/// The call whose first word this is.
#[tactic(auto, unfolding(crate::specs::Calls::call_from))]
fn call_from<'a>(first: &[u8], rest: Option<&'a [u8]>) -> Result<SaidCall<'a>, LineFault>
    ensures { Gives call_of_said result (call_from first.now (words_left (option_copied rest.entry))) }
{
    if first == b"insert".as_slice() {
        let (key, value) = key_and_value(rest)?;
        Ok(SaidCall::Insert(key, value))
    } else if first == b"try_insert".as_slice() {
        let (key, value) = key_and_value(rest)?;
        Ok(SaidCall::TryInsert(key, value))
    } else {
        Ok(SaidCall::Bare(whole_call_from(first, rest)?))
    }
}

/// Reads what is left as a call: its first word decides the form.
#[tactic(auto, unfolding(crate::specs::Calls::call_said))]
pub fn call_said(rest: Option<&[u8]>) -> Result<SaidCall<'_>, LineFault>
    ensures { Gives call_of_said result (call_said (words_left (option_copied rest.entry))) }
{
    let (first, rest) = next_of(rest)?;
    call_from(first, rest)
}

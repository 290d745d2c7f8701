//! Two threads store what they make where a key is missing, and remove what a test says yes of.
ghost use Rattle.std.specs.Prelude.{◌≡◌};
ghost use Rattle.threads_calls.specs.Given.SeizeViewsDeclared.view.Has.TheVariants.{Nothing};
ghost use Rattle.threads_calls.specs.Given.SeizeViewsDeclared.view.SlotView.TheVariants.{Inside};

use crate::resting::{CHOSEN, Hashing, KEYS, MODE, Resting};
use std::sync::Wait;
use std::test::Fail;
use std::thread;
use threads_calls::{SessionBase, Sleepers, memory_for};

/// How many of the keys it has stored with this value because they were missing, if none was refused.
fn stores<R: Wait>(
    rt: &R,
    session: &mut SessionBase<'_, u64, u64, Hashing>,
    value: u64,
) -> Option<u64>
    requires { session.old.caller.seat.view.slot ≡ Inside session.old.slot Nothing }
    ensures { session.new.caller.seat.view.slot ≡ Inside session.new.slot Nothing }
{
    let mut stored = 0u64;
    let mut refused = false;
    for key in 0..KEYS {
        match session.try_insert_with(rt, key, || value) {
            Ok((there, made)) => {
                if made && *session.pair(there).1 == value {
                    stored = u64::wrapping_add(stored, 1);
                }
            }
            Err(_) => refused = true,
        }
    }
    if refused { None } else { Some(stored) }
}

/// How many pairs of this value it has removed, if none was refused.
fn removes<R: Wait>(
    rt: &R,
    session: &mut SessionBase<'_, u64, u64, Hashing>,
    value: u64,
) -> Option<u64>
    requires { session.old.caller.seat.view.slot ≡ Inside session.old.slot Nothing }
    ensures { session.new.caller.seat.view.slot ≡ Inside session.new.slot Nothing }
{
    let mut removed = 0u64;
    let mut refused = false;
    for key in 0..KEYS {
        match session.remove_if(rt, &key, |_, there| *there == value) {
            Ok(Some(_)) => removed = u64::wrapping_add(removed, 1),
            Ok(None) => {}
            Err(_) => refused = true,
        }
    }
    if refused { None } else { Some(removed) }
}

/// Stores this value at each key that is missing, in a section of a slot that it takes.
fn makes<R: Wait>(rt: &R, resting: Resting<'_>, value: u64) -> Option<u64> {
    let mut session = resting.session();
    if session.register().is_err() {
        return None;
    }
    session.enter();
    let stored = stores(rt, &mut session, value);
    session.leave();
    session.unregister();
    stored
}

/// Removes the pairs of either value, in a section of a slot that it takes.
fn sweeps<R: Wait>(rt: &R, resting: Resting<'_>) -> Option<(u64, u64)> {
    let mut session = resting.session();
    if session.register().is_err() {
        return None;
    }
    session.enter();
    let first = removes(rt, &mut session, 1);
    let second = removes(rt, &mut session, 2);
    session.leave();
    session.unregister();
    Some((first?, second?))
}

#[test]
fn a_key_has_the_value_of_one_of_two_that_make_one(rt: HostRuntime) -> Result<(), Fail> {
    let hashing = Hashing::default();
    let home = memory_for::<u64, u64, Hashing>(rt.alloc(), 64, &CHOSEN)?;
    let sleepers = Sleepers::new();
    let mut first = SessionBase::open(&home.blocks, &sleepers, &hashing, &CHOSEN, MODE, 4)?;
    let second = Resting::of(first.session());
    let third = Resting::of(first.session());
    let first = Resting::of(first);
    let (one, other) = thread::join(&rt, || makes(&rt, first, 1), || makes(&rt, second, 2));
    let (Some(one), Some(other)) = (one, other) else {
        return Err(Fail::new("a call was refused"));
    };
    assert_eq!(rt; u64::wrapping_add(one, other), KEYS);
    assert_eq!(rt; sweeps(&rt, third), Some((one, other)));
    Ok(())
}

#[test]
fn a_pair_of_which_two_say_yes_is_removed_once(rt: HostRuntime) -> Result<(), Fail> {
    let hashing = Hashing::default();
    let home = memory_for::<u64, u64, Hashing>(rt.alloc(), 64, &CHOSEN)?;
    let sleepers = Sleepers::new();
    let mut first = SessionBase::open(&home.blocks, &sleepers, &hashing, &CHOSEN, MODE, 4)?;
    let second = Resting::of(first.session());
    let third = Resting::of(first.session());
    let first = Resting::of(first);
    assert_eq!(rt; makes(&rt, third, 1), Some(KEYS));
    let (one, other) = thread::join(&rt, || sweeps(&rt, first), || sweeps(&rt, second));
    let (Some((one, none)), Some((other, neither))) = (one, other) else {
        return Err(Fail::new("a call was refused"));
    };
    assert_eq!(rt; u64::wrapping_add(one, other), KEYS);
    assert_eq!(rt; (none, neither), (0, 0));
    Ok(())
}

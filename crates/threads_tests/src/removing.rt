//! Two threads store pairs of the same keys where these are missing, and remove them.
ghost use Rattle.std.specs.Prelude.{◌≡◌};
ghost use Rattle.threads_calls.specs.Given.SeizeViewsDeclared.view.Has.TheVariants.{Nothing};
ghost use Rattle.threads_calls.specs.Given.SeizeViewsDeclared.view.SlotView.TheVariants.{Inside};

use crate::resting::{CHOSEN, Hashing, KEYS, MODE, Resting};
use std::sync::Wait;
use std::test::Fail;
use std::thread;
use threads_calls::{Attempt, Fixed, SessionBase, Sleepers, memory_for};

/// How many of the keys it has stored with this value because they were missing, if none was refused, each pair that was not stored came back, and each key is lent with its own
/// value or with another one.
fn stores<R: Wait>(
    rt: &R,
    session: &mut SessionBase<'_, u64, u64, Hashing>,
    value: u64,
) -> Option<u64>
    requires { session.old.caller.seat.view.slot ≡ Inside session.old.slot Nothing }
    ensures { session.new.caller.seat.view.slot ≡ Inside session.new.slot Nothing }
{
    let mut stored = 0u64;
    let mut back = true;
    for key in 0..KEYS {
        match session.try_insert(rt, key, value) {
            Ok((there, Attempt::Stored)) => {
                let (its, lent) = session.pair(there);
                back = back && *its == key && *lent == value;
                stored = u64::wrapping_add(stored, 1);
            }
            Ok((there, Attempt::Present(k, v))) => {
                let (its, lent) = session.pair(there);
                back = back && *its == key && *lent != value && k == key && v == value;
            }
            Err(_) => back = false,
        }
    }
    if back { Some(stored) } else { None }
}

/// How many pairs of the keys it has removed, and was lent then, if none was refused.
fn removes<R: Wait>(rt: &R, session: &mut SessionBase<'_, u64, u64, Hashing>) -> Option<u64>
    requires { session.old.caller.seat.view.slot ≡ Inside session.old.slot Nothing }
    ensures { session.new.caller.seat.view.slot ≡ Inside session.new.slot Nothing }
{
    let mut removed = 0u64;
    let mut refused = false;
    for key in 0..KEYS {
        match session.remove(rt, &key) {
            Ok(Some(taken)) => {
                if *session.pair(taken).0 == key {
                    removed = u64::wrapping_add(removed, 1);
                }
            }
            Ok(None) => {}
            Err(_) => refused = true,
        }
    }
    if refused { None } else { Some(removed) }
}

/// How many of the keys are there.
fn counts<R: Wait>(rt: &R, session: &mut SessionBase<'_, u64, u64, Hashing>) -> u64
    requires { session.old.caller.seat.view.slot ≡ Inside session.old.slot Nothing }
    ensures { session.new.caller.seat.view.slot ≡ Inside session.new.slot Nothing }
{
    let mut there = 0u64;
    for key in 0..KEYS {
        if session.contains_key(rt, &key) {
            there = u64::wrapping_add(there, 1);
        }
    }
    there
}

/// What a thread has done.
#[derive(Drop)]
struct Done {
    stored: Option<u64>,
    there: u64,
    removed: Option<u64>,
}

/// Stores what is missing, in a section of a slot that it takes, counts what is there, and removes it, where it is to.
fn works<R: Wait>(rt: &R, resting: Resting<'_>, value: u64, remove: bool) -> Option<Done> {
    let mut session = resting.session();
    if session.register().is_err() {
        return None;
    }
    session.enter();
    let stored = stores(rt, &mut session, value);
    let there = counts(rt, &mut session);
    let removed = if remove {
        removes(rt, &mut session)
    } else {
        Some(0)
    };
    session.leave();
    session.unregister();
    Some(Done {
        stored,
        there,
        removed,
    })
}

/// Of a thread that has done nothing.
fn nothing() -> Option<Done> {
    Some(Done {
        stored: Some(0),
        there: 0,
        removed: Some(0),
    })
}

/// Both sums, if nothing was refused.
fn sums(one: Option<Done>, other: Option<Done>) -> Option<(u64, u64)> {
    let one = one?;
    let other = other?;
    let stored = u64::wrapping_add(one.stored?, other.stored?);
    let removed = u64::wrapping_add(one.removed?, other.removed?);
    Some((stored, removed))
}

// Each key is stored by one of the two, and none removes it before the other one has looked: so each finds all, whoever is faster. A body that served one thread after the
// other would pass, too.
#[test]
fn of_two_that_try_to_store_a_key_one_does(rt: HostRuntime) -> Result<(), Fail> {
    let hashing = Hashing::default();
    let home = memory_for::<u64, u64, Hashing>(rt.alloc(), 64, &CHOSEN)?;
    let sleepers = Sleepers::new();
    let mut first = SessionBase::open(&home.blocks, &sleepers, &hashing, &CHOSEN, MODE, 4)?;
    let second = Resting::of(first.session());
    let third = Resting::of(first.session());
    let first = Resting::of(first);
    let (one, other) = thread::join(
        &rt,
        || works(&rt, first, 1, false),
        || works(&rt, second, 2, false),
    );
    let there = match (&one, &other) {
        (Some(one), Some(other)) => one.there == KEYS && other.there == KEYS,
        _ => false,
    };
    assert!(rt; there);
    assert_eq!(rt; sums(one, other), Some((KEYS, 0)));
    assert_eq!(rt;
        sums(works(&rt, third, 3, true), nothing()),
        Some((0, KEYS))
    );
    Ok(())
}

// A key that is stored is removed once, by whomever; what one has removed the other one may store again. So as many are removed as were stored, and none is left.
#[test]
fn a_pair_that_two_threads_remove_is_removed_once(rt: HostRuntime) -> Result<(), Fail> {
    let hashing = Hashing::default();
    let home = memory_for::<u64, u64, Hashing>(rt.alloc(), 64, &CHOSEN)?;
    let sleepers = Sleepers::new();
    let mut first = SessionBase::open(&home.blocks, &sleepers, &hashing, &CHOSEN, MODE, 4)?;
    let second = Resting::of(first.session());
    let third = Resting::of(first.session());
    let first = Resting::of(first);
    let (one, other) = thread::join(
        &rt,
        || works(&rt, first, 1, true),
        || works(&rt, second, 2, true),
    );
    let Some((stored, removed)) = sums(one, other) else {
        return Err(Fail::new("a call was refused"));
    };
    assert_eq!(rt; stored, removed);
    assert!(rt; KEYS <= stored);
    assert_eq!(rt;
        sums(works(&rt, third, 3, true), nothing()),
        Some((KEYS, KEYS))
    );
    Ok(())
}

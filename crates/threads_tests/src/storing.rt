//! Two threads store pairs in one map, half of their keys the same.
ghost use Rattle.std.specs.Prelude.{◌≡◌};
ghost use Rattle.threads_calls.specs.Given.SeizeViewsDeclared.view.Has.TheVariants.{Nothing};
ghost use Rattle.threads_calls.specs.Given.SeizeViewsDeclared.view.SlotView.TheVariants.{Inside};

use crate::resting::{CHOSEN, Hashing, MODE, Resting};
use std::sync::Wait;
use std::test::Fail;
use std::thread;
use threads_calls::{SessionBase, Sleepers, memory_for};

/// How many keys each of them stores.
const EACH: u64 = 400;

/// Stores so many keys from this one on, each with its double, and answers how many of them have replaced a pair, if none was refused.
fn stores<R: Wait>(
    rt: &R,
    session: &mut SessionBase<'_, u64, u64, Hashing>,
    from: u64,
) -> Option<u64>
    requires { session.old.caller.seat.view.slot ≡ Inside session.old.slot Nothing }
    ensures { session.new.caller.seat.view.slot ≡ Inside session.new.slot Nothing }
{
    let mut replaced = 0u64;
    let mut refused = false;
    for n in 0..EACH {
        let key = u64::wrapping_add(from, n);
        match session.insert(rt, key, u64::wrapping_mul(key, 2)) {
            Ok(Some(old)) => {
                let (there, double) = session.pair(old);
                if *there == key && *double == u64::wrapping_mul(key, 2) {
                    replaced = u64::wrapping_add(replaced, 1);
                }
            }
            Ok(None) => {}
            Err(_) => refused = true,
        }
    }
    if refused { None } else { Some(replaced) }
}

/// Whether it finds this key with its double.
fn has<R: Wait>(rt: &R, session: &mut SessionBase<'_, u64, u64, Hashing>, key: u64) -> bool
    requires { session.old.caller.seat.view.slot ≡ Inside session.old.slot Nothing }
    ensures { session.new.caller.seat.view.slot ≡ Inside session.new.slot Nothing }
{
    match session.find(rt, &key) {
        Some(found) => *session.value(found) == u64::wrapping_mul(key, 2),
        None => false,
    }
}

/// How many of so many keys from this one on it finds with their doubles.
fn counts<R: Wait>(rt: &R, session: &mut SessionBase<'_, u64, u64, Hashing>, from: u64) -> u64
    requires { session.old.caller.seat.view.slot ≡ Inside session.old.slot Nothing }
    ensures { session.new.caller.seat.view.slot ≡ Inside session.new.slot Nothing }
{
    let mut found = 0u64;
    for n in 0..EACH {
        if has(rt, session, u64::wrapping_add(from, n)) {
            found = u64::wrapping_add(found, 1);
        }
    }
    found
}

/// Stores so many keys from this one on, in a section of a slot that it takes, and answers how many have replaced a pair, and how many it finds then.
fn works<R: Wait>(rt: &R, resting: Resting<'_>, from: u64) -> Option<(u64, u64)> {
    let mut session = resting.session();
    if session.register().is_err() {
        return None;
    }
    session.enter();
    let replaced = stores(rt, &mut session, from);
    let found = counts(rt, &mut session, from);
    session.leave();
    session.unregister();
    Some((replaced?, found))
}

// Of the two insertions of a key that both store one finds no pair, and the other one replaces the pair of the first, whoever is faster: so as many have replaced a pair as
// there are such keys. A body that served one thread after the other would pass, too.
#[test]
fn a_key_that_two_threads_store_is_replaced_once(rt: HostRuntime) -> Result<(), Fail> {
    let hashing = Hashing::default();
    let home = memory_for::<u64, u64, Hashing>(rt.alloc(), 64, &CHOSEN)?;
    let sleepers = Sleepers::new();
    let mut first = SessionBase::open(&home.blocks, &sleepers, &hashing, &CHOSEN, MODE, 4)?;
    let second = Resting::of(first.session());
    let third = Resting::of(first.session());
    let first = Resting::of(first);
    let (one, other) = thread::join(
        &rt,
        || works(&rt, first, 0),
        || works(&rt, second, EACH / 2),
    );
    let (Some((one, mine)), Some((other, theirs))) = (one, other) else {
        return Err(Fail::new("an insertion was refused"));
    };
    assert_eq!(rt; mine, EACH);
    assert_eq!(rt; theirs, EACH);
    assert_eq!(rt; u64::wrapping_add(one, other), EACH / 2);
    assert_eq!(rt; works(&rt, third, 0), Some((EACH, EACH)));
    Ok(())
}

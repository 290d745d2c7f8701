//! Two threads look keys up under one session, each by its pass, while a third one replaces the pairs.
ghost use Rattle.std.specs.Prelude.{◌≡◌};
ghost use Rattle.threads_calls.specs.Given.SeizeViewsDeclared.view.Has.TheVariants.{Nothing};
ghost use Rattle.threads_calls.specs.Given.SeizeViewsDeclared.view.SlotView.TheVariants.{Inside};

use crate::resting::{CHOSEN, Hashing, MODE, Resting};
use std::sync::Wait;
use std::test::Fail;
use std::thread;
use std::thread::Threads;
use threads_calls::{MapPassSeat, SessionBase, Sleepers, memory_for};

/// How many keys there are.
const KEYS: u64 = 200;

/// How often each pair is replaced.
const TURNS: u64 = 20;

/// The value of this key in a turn.
fn value_of(key: u64, turn: u64) -> u64 {
    u64::wrapping_add(key, u64::wrapping_mul(turn, 1 << 32))
}

/// Stores each key with its value of this turn, and says whether none was refused.
fn stores<R: Wait>(rt: &R, session: &mut SessionBase<'_, u64, u64, Hashing>, turn: u64) -> bool
    requires { session.old.caller.seat.view.slot ≡ Inside session.old.slot Nothing }
    ensures { session.new.caller.seat.view.slot ≡ Inside session.new.slot Nothing }
{
    let mut stored = true;
    for key in 0..KEYS {
        if session.insert(rt, key, value_of(key, turn)).is_err() {
            stored = false;
        }
    }
    stored
}

/// Replaces each pair in each turn, in a section of a slot that it takes, and says whether none was refused.
fn replaces<R: Wait>(rt: &R, resting: Resting<'_>) -> bool {
    let mut session = resting.session();
    if session.register().is_err() {
        return false;
    }
    let mut replaced = true;
    for turn in 0..TURNS {
        session.enter();
        if !stores(rt, &mut session, turn) {
            replaced = false;
        }
        session.leave();
    }
    session.unregister();
    replaced
}

/// Looks two keys up by one pass, and says whether both pairs are theirs: the first one is read once the second one has been found.
fn reads<R: Wait>(
    rt: &R,
    session: &SessionBase<'_, u64, u64, Hashing>,
    pass: &mut MapPassSeat<u64, u64, Hashing>,
    key: u64,
) -> bool
    requires own { pass.old.seat.base ≡ session.now.caller.blocks.now.words.id.views_name }
    requires inside { session.now.caller.seat.view.slot ≡ Inside session.now.slot Nothing }
    ensures own { pass.new.seat.base ≡ pass.old.seat.base }
{
    let next = u64::wrapping_add(key, 1);
    let one = session.find_by(rt, &key, pass);
    let other = session.find_by(rt, &next, pass);
    match (one, other) {
        (Some((first, one)), Some((second, other))) => {
            *first == key
                && *one % (1 << 32) == key
                && *second == next
                && *other % (1 << 32) == next
        }
        _ => false,
    }
}

/// Reads all keys so, by a pass of its own.
fn all_read<R: Wait>(rt: &R, session: &SessionBase<'_, u64, u64, Hashing>) -> bool
    requires inside { session.now.caller.seat.view.slot ≡ Inside session.now.slot Nothing }
{
    let mut pass = session.pass();
    let mut read = true;
    for key in 0..KEYS - 1 {
        if !reads(rt, session, &mut pass, key) {
            read = false;
        }
    }
    read
}

/// Two threads read all keys so, under one session.
fn both_read<R: Threads + Wait + Sync>(
    rt: &R,
    session: &SessionBase<'_, u64, u64, Hashing>,
) -> (bool, bool)
    requires inside { session.now.caller.seat.view.slot ≡ Inside session.now.slot Nothing }
{
    thread::join(rt, || all_read(rt, session), || all_read(rt, session))
}

// A body that served one thread after the other would pass, too: that a value which was lent stays is proved.
#[test]
fn two_threads_look_up_under_one_session(rt: HostRuntime) -> Result<(), Fail> {
    let hashing = Hashing::default();
    let home = memory_for::<u64, u64, Hashing>(rt.alloc(), 64, &CHOSEN)?;
    let sleepers = Sleepers::new();
    let mut session = SessionBase::open(&home.blocks, &sleepers, &hashing, &CHOSEN, MODE, 4)?;
    let other = Resting::of(session.session());
    session.register()?;
    session.enter();
    let stored = stores(&rt, &mut session, 0);
    let (read, replaced) = thread::join(&rt, || both_read(&rt, &session), || replaces(&rt, other));
    session.leave();
    session.unregister();
    assert!(rt; stored && replaced);
    assert!(rt; read.0 && read.1);
    Ok(())
}

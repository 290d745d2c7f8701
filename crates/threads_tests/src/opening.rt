//! A map that is made, handed on, and looked through by threads.
use crate::resting::{CHOSEN, Hashing, MODE, Resting};
use seize_words::Fault;
use std::sync::Wait;
use std::test::Fail;
use std::thread;
use threads_calls::{SessionBase, Sleepers, memory_for};

/// Whether a session finds a key, in a section of a slot that it takes, and gives up then.
fn finds<R: Wait>(rt: &R, resting: Resting<'_>, key: u64) -> Option<bool> {
    let mut session = resting.session();
    if session.register().is_err() {
        return None;
    }
    session.enter();
    let found = session.find(rt, &key).is_some();
    session.leave();
    session.unregister();
    Some(found)
}

// Nobody writes, so this shows no more than that each thread has its slot and its section, and comes back: a body that served one after the other would pass, too.
#[test]
fn two_threads_find_no_pair_in_a_map_that_has_none(rt: HostRuntime) -> Result<(), Fail> {
    let hashing = Hashing::default();
    let home = memory_for::<u64, u64, Hashing>(rt.alloc(), 64, &CHOSEN)?;
    let sleepers = Sleepers::new();
    let mut first = SessionBase::open(&home.blocks, &sleepers, &hashing, &CHOSEN, MODE, 4)?;
    let second = Resting::of(first.session());
    let first = Resting::of(first);
    let (one, other) = thread::join(&rt, || finds(&rt, first, 1), || finds(&rt, second, 1));
    assert_eq!(rt; one, Some(false));
    assert_eq!(rt; other, Some(false));
    Ok(())
}

#[test]
fn a_map_needs_a_root_of_its_own(rt: HostRuntime) -> Result<(), Fail> {
    let hashing = Hashing::default();
    let home = memory_for::<u64, u64, Hashing>(rt.alloc(), 64, &CHOSEN)?;
    let sleepers = Sleepers::new();
    let first = SessionBase::open(&home.blocks, &sleepers, &hashing, &CHOSEN, MODE, 4).is_ok();
    let second = SessionBase::open(&home.blocks, &sleepers, &hashing, &CHOSEN, MODE, 4).is_ok();
    let third = match SessionBase::open(&home.blocks, &sleepers, &hashing, &CHOSEN, MODE, 4) {
        Ok(_) => None,
        Err(fault) => Some(fault),
    };
    assert!(rt; first && second);
    assert!(rt; matches!(third, Some(Fault::RootsUsedUp)));
    Ok(())
}

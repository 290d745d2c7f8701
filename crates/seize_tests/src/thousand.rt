//! Four threads make more blocks at once than the first strip of the memory has numbers for: it grows.

use crate::looking::Kept;
use crate::owning::OneEach;
use seize_blocks::{Blocks, Home};
use std::alloc::Global;
use std::test::Fail;
use std::thread;
use std::thread::Threads;

/// How many blocks each thread makes.
const EACH: u64 = 250;

/// As many blocks at once, each with a value of its own, or none where one was refused.
fn makes<'a>(alloc: Global, blocks: &'a Blocks<u64, OneEach>, from: u64) -> Option<Vec<Kept<'a>>> {
    let mut all = Vec::new(alloc);
    for turn in 0..EACH {
        let kept = Kept::make(blocks, from.wrapping_add(turn))?;
        all.push(kept).ok()?;
    }
    Some(all)
}

/// Two threads do, and the second one's follow the first one's.
fn pair<'a, R: Threads + Sync>(
    rt: &R,
    alloc: Global,
    blocks: &'a Blocks<u64, OneEach>,
    from: u64,
) -> Option<(Vec<Kept<'a>>, Vec<Kept<'a>>)> {
    let (first, second) = thread::join(
        rt,
        || makes(alloc, blocks, from),
        || makes(alloc, blocks, from.wrapping_add(EACH)),
    );
    Some((first?, second?))
}

/// Each block has the value that was put in, one more than the one before; they are taken away.
fn are_theirs(all: Vec<Kept<'_>>, from: u64) -> bool {
    let mut value = from;
    for kept in all {
        if !kept.looks(1) || kept.take() != value {
            return false;
        }
        value = value.wrapping_add(1);
    }
    true
}

// All blocks are there at once, whichever thread was served first: none is taken away before all are made. If the strips were laid by one thread alone, this
// would pass too; that two offer a strip at one door shows itself under valgrind, as memory that is lost or given back twice, if at all.
#[test]
fn a_memory_of_eight_numbers_serves_a_thousand_makes_at_once(rt: HostRuntime) -> Result<(), Fail> {
    let home = Home::<u64, OneEach>::open(rt.alloc(), 0, 8, &())?;
    let blocks = &home.blocks;
    let (first, second) = thread::join(
        &rt,
        || pair(&rt, rt.alloc(), blocks, 0),
        || pair(&rt, rt.alloc(), blocks, 2 * EACH),
    );
    let (Some((one, two)), Some((three, four))) = (first, second) else {
        return Err(Fail::new("a block was refused"));
    };
    assert!(rt; are_theirs(one, 0) && are_theirs(two, EACH));
    assert!(rt; are_theirs(three, 2 * EACH) && are_theirs(four, 3 * EACH));
    Ok(())
}

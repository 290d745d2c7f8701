//! Two threads change one word, each by single steps: no change is lost.
ghost use Rattle.std.specs.Prelude.{◌≡◌};
ghost use Rattle.seize_tests.specs.BlocksTests.Root.{HasRoot};

use seize_blocks::{Blocks, Home, Rule};
use seize_words::At;
use std::test::Fail;
use std::thread;

/// There is a root, and no more is said.
struct OneRoot;

impl Rule<u64> for OneRoot {
    type View = ();

    type Fixed = ();

    ghost World = { Unit {0} };

    ghost holds = { λ _. HasRoot };

    ghost keeps = { λ _ _ _ _. ⊥ };

    ghost then = { λ _ _ _ _. Unit {0} };

    ghost newcomer = { λ _. tt };

    ghost rests = { λ _. Unit {0} };

    ghost newcomers_rest = { λ _. tt };

    ghost resting_stay = { λ _ _ _ _ _ _. tt };

    ghost leans = { λ _ _. ⊥ };

    ghost upright = { λ _ _ _ none. none };

    ghost leaning_stay = { λ _ _ _ _ _ _ none. none };
}

/// Adds 1 so many times, and answers what it finds then.
fn add(blocks: &Blocks<u64, OneRoot>, times: u64) -> u64 {
    let mut seat = blocks.seat();
    for _ in 0..times {
        blocks.add(&mut seat, At::Root(0), 1);
    }
    blocks.load(&mut seat, At::Root(0))
}

/// Tries so many times to add 1, each time by a load and an exchange; answers how often no other thread was faster.
fn exchange(blocks: &Blocks<u64, OneRoot>, times: u64) -> u64 {
    let mut seat = blocks.seat();
    let mut done = 0;
    for turn in 0..times {
        let found = blocks.load(&mut seat, At::Root(0));
        if blocks
            .exchange(&mut seat, At::Root(0), found, found.wrapping_add(1))
            .is_ok()
        {
            done += 1;
        }
    }
    done
}

/// If one thread were served after the other, each exchange would succeed, and the count would be right too.
#[test]
fn each_exchange_that_succeeds_counts_once(rt: HostRuntime) -> Result<(), Fail> {
    let home = Home::<u64, OneRoot>::open(rt.alloc(), 1, 0, &())?;
    let blocks = &home.blocks;
    let (first, second) = thread::join(
        &rt,
        || exchange(blocks, 20_000),
        || exchange(blocks, 20_000),
    );
    assert_eq!(rt; add(blocks, 0), first.wrapping_add(second));
    Ok(())
}

/// Whether the word was seen within so many turns.
fn sees(blocks: &Blocks<u64, OneRoot>, word: u64) -> bool {
    let mut seat = blocks.seat();
    for _ in 0..100_000_000u64 {
        if blocks.load(&mut seat, At::Root(0)) == word {
            return true;
        }
        thread::yield_now();
    }
    false
}

/// If one thread were served after the other, the first would wait for the second in vain, and the test would fail.
#[test]
fn two_threads_answer_each_other(rt: HostRuntime) -> Result<(), Fail> {
    let home = Home::<u64, OneRoot>::open(rt.alloc(), 1, 0, &())?;
    let blocks = &home.blocks;
    let (first, second) = thread::join(
        &rt,
        || sees(blocks, 1) && add(blocks, 1) == 2,
        || add(blocks, 1) >= 1 && sees(blocks, 2),
    );
    assert!(rt; first && second);
    Ok(())
}

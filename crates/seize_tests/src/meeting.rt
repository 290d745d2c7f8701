//! Two seats meet, and one learns from another, while another thread raises a word: what the one has found the other knows to be reached.
ghost use Rattle.std.specs.Prelude.{◌≡◌, true};
ghost use Rattle.seize_tests.specs.BlocksTests.Grown.{HasGrown, grows, no_less, greater};

use seize_blocks::{Blocks, Home, Lesson, Meeting, Rule};
use seize_words::At;
use std::test::Fail;
use std::thread;

/// The word of the first root only grows, and each seat knows a number that it has reached.
pub(crate) struct Growing;

impl Rule<u64> for Growing {
    type View = u64;

    type Fixed = ();

    ghost World = { Unit {0} };

    ghost holds = { λ _. HasGrown };

    ghost keeps = { λ _ _ _ _. ⊥ };

    ghost then = { grows };

    ghost newcomer = { λ _. 0 };

    ghost rests = { λ _. Unit {0} };

    ghost newcomers_rest = { λ _. tt };

    ghost resting_stay = { λ _ _ _ _ _ _. tt };

    ghost leans = { λ _ _. ⊥ };

    ghost upright = { λ _ _ _ none. none };

    ghost leaning_stay = { λ _ _ _ _ _ _ none. none };
}

/// Both know the greater number from then on.
struct Greater;

impl Meeting<(), u64> for Greater {
    ghost to = { λ _. greater };
}

/// It knows no less than the other one, from then on.
struct NoLess;

impl Lesson<(), u64> for NoLess {
    ghost to = { λ _ v _. no_less v };
}

/// Raises the word by 1 so often, and answers how often no other thread was faster.
fn raises(blocks: &Blocks<u64, Growing>, times: u64) -> u64 {
    let mut seat = blocks.seat();
    let mut done = 0;
    for turn in 0..times {
        let found = blocks.load(&mut seat, At::Root(0));
        if found < u64::MAX
            && blocks
                .exchange(&mut seat, At::Root(0), found, found + 1)
                .is_ok()
        {
            done += 1;
        }
    }
    done
}

/// The one seat finds a word, both meet, and the other one finds no less.
fn finds_no_less(blocks: &Blocks<u64, Growing>) -> bool
    ensures { result ≡ true }
{
    let mut one = blocks.seat();
    let mut other = blocks.seat();
    let found = blocks.load(&mut one, At::Root(0));
    blocks.meet::<Greater>(&mut one, &mut other);
    let after = blocks.load(&mut other, At::Root(0));
    found <= after
}

/// The one seat finds a word, lets the other one know it, and stays as it is; the other one finds no less.
fn learns_no_less(blocks: &Blocks<u64, Growing>) -> bool
    ensures { result ≡ true }
{
    let mut one = blocks.seat();
    let mut other = blocks.seat();
    let found = blocks.load(&mut one, At::Root(0));
    blocks.learn::<NoLess>(&mut other, &one);
    let after = blocks.load(&mut other, At::Root(0));
    found <= after
}

/// So often.
fn all_find_no_less(blocks: &Blocks<u64, Growing>, times: u64) -> bool {
    for _ in 0..times {
        let met = finds_no_less(blocks);
        let learnt = learns_no_less(blocks);
        if !met || !learnt {
            return false;
        }
    }
    true
}

#[test]
fn what_one_seat_has_found_the_other_knows(rt: HostRuntime) -> Result<(), Fail> {
    let home = Home::<u64, Growing>::open(rt.alloc(), 1, 0, &())?;
    let blocks = &home.blocks;
    let (raised, found) = thread::join(
        &rt,
        || raises(blocks, 20_000),
        || all_find_no_less(blocks, 20_000),
    );
    assert!(rt; raised == 20_000 && found);
    Ok(())
}

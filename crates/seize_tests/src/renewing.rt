//! All seats of two threads end with a renewal of the memory, under its rule or another one: what they have made stays made.
use crate::owning::OneEach;
use seize_blocks::{Blocks, Home, Rule};
use std::test::Fail;
use std::thread;

/// The number of a block that is made, by a seat of its own that has it from then on.
fn makes(blocks: &Blocks<u64, OneEach>, value: u64) -> Option<u64> {
    let mut seat = blocks.seat();
    let mut near = 0;
    blocks.make(&mut seat, &mut near, value, 0).ok()
}

// Were one thread served after the other, this would pass as well. Were the blocks gone with their seats, one of their numbers would be given again.
#[test]
fn blocks_stay_where_their_seats_have_ended(rt: HostRuntime) -> Result<(), Fail> {
    let mut home = Home::<u64, OneEach>::open(rt.alloc(), 0, 2, &())?;
    let (Some(first), Some(second)) = thread::join(
        &rt,
        || makes(&home.blocks, 1),
        || makes(&home.blocks, 2),
    ) else {
        return Err(Fail::new("a block was refused"));
    };
    home.blocks.renew();
    let (Some(third), Some(fourth)) = (makes(&home.blocks, 3), makes(&home.blocks, 4)) else {
        return Err(Fail::new("a block was refused"));
    };
    assert!(rt; third > first && third > second && fourth > first && fourth > second);
    Ok(())
}

/// Nothing is said of the memory, and seats know nothing.
struct Anything;

impl Rule<u64> for Anything {
    type View = ();

    type Fixed = ();

    ghost World = { Unit {0} };

    ghost holds = { λ _ _. Unit {0} };

    ghost keeps = { λ _ _ _ _. ⊥ };

    ghost then = { λ _ _ _ _. Unit {0} };

    ghost newcomer = { λ _. tt };

    ghost rests = { λ _. Unit {0} };

    ghost newcomers_rest = { λ _. tt };

    ghost resting_stay = { λ _ _ _ _ _ _. tt };

    ghost leans = { λ _ _. ⊥ };

    ghost upright = { λ _ _ _ none. none };

    ghost leaning_stay = { λ _ _ _ _ _ _ none. none };
}

/// Makes a block under another rule, which one seat alone is under then. It answers its number, and the memory.
fn makes_alone(home: Home<u64, OneEach>, value: u64) -> (Option<u64>, Home<u64, OneEach>) {
    let (home, seat) = home.alone::<Anything>(&());
    let mut seat = seat;
    let mut near = 0;
    let number = home.blocks.make(&mut seat, &mut near, value, 0).ok();
    (number, home.used::<OneEach>(seat, &()))
}

// Were the block of the other rule gone with its seat, its number would be given again.
#[test]
fn a_memory_goes_under_another_rule_and_back(rt: HostRuntime) -> Result<(), Fail> {
    let home = Home::<u64, OneEach>::open(rt.alloc(), 0, 2, &())?;
    let first = makes(&home.blocks, 1);
    let (second, home) = makes_alone(home, 2);
    let third = makes(&home.blocks, 3);
    let (Some(first), Some(second), Some(third)) = (first, second, third) else {
        return Err(Fail::new("a block was refused"));
    };
    assert!(rt; first != second && second != third && third != first);
    Ok(())
}

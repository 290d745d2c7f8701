//! Two threads make blocks, look at their values and take them away: each finds the values that it has put in.
ghost use Rattle.std.specs.Prelude.{◌≡◌, Option, None};
ghost use Rattle.seize_tests.specs.BlocksTests.Theirs.{Own, keeps_own, AreTheirs, tells};

use seize_blocks::{Blocks, Home, Rule};
use std::test::Fail;
use std::thread;

/// Each seat has one block or none.
pub(crate) struct OneEach;

impl Rule<u64> for OneEach {
    type View = Option<(u64, u64)>;

    type Fixed = ();

    ghost World = { Unit {0} };

    ghost holds = { λ _. AreTheirs };

    ghost keeps = { keeps_own };

    ghost then = { tells };

    ghost newcomer = { λ _. None };

    ghost rests = { λ _. Unit {0} };

    ghost newcomers_rest = { λ _. tt };

    ghost resting_stay = { λ _ _ _ _ _ _. tt };

    ghost leans = { λ _ _. ⊥ };

    ghost upright = { λ _ _ _ none. none };

    ghost leaning_stay = { λ _ _ _ _ _ _ none. none };
}

/// Makes a block with up to three words of its own, looks at its value twice at once, and takes it away, so many times, each time with another value. It answers how many blocks were made, or
/// none where another value was seen or came back than was put in.
fn make_and_take(blocks: &Blocks<u64, OneEach>, from: u64, times: u64) -> Option<u64> {
    let mut seat = blocks.seat();
    let mut near = 0;
    let mut made = 0;
    for turn in 0..times {
        let value = from.wrapping_add(turn);
        if let Ok(number) = blocks.make(&mut seat, &mut near, value, turn % 4) {
            made += 1;
            let once = blocks.value(&seat, number);
            let again = blocks.value(&seat, number);
            if *once != value || *again != value || blocks.take(&mut seat, number) != value {
                return None;
            }
        }
    }
    Some(made)
}

// Were one thread served after the other, each would find its values as well. What would show itself is a number that both have at once: one of them would
// find the value of the other, or none.
#[test]
fn two_threads_find_the_values_of_their_blocks(rt: HostRuntime) -> Result<(), Fail> {
    let home = Home::<u64, OneEach>::open(rt.alloc(), 0, 4096, &())?;
    let blocks = &home.blocks;
    let (first, second) = thread::join(
        &rt,
        || make_and_take(blocks, 0, 20_000),
        || make_and_take(blocks, 1_000_000, 20_000),
    );
    assert!(rt; first == Some(20_000) && second == Some(20_000));
    Ok(())
}

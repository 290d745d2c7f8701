//! Four threads add to the same words of a block's own: no addition is lost.
ghost use Rattle.std.specs.Prelude.{◌≡◌, ◌<◌};
ghost use Rattle.seize_tests.specs.BlocksTests.Three.{AreThrees, knows, hears};

use seize_blocks::{Blocks, Home, Meeting, Rule, Seat};
use seize_words::At;
use std::test::Fail;
use std::thread;
use std::thread::Threads;

/// Each seat knows of a block with three words of its own, or of none.
pub(crate) struct Threes;

impl Rule<u64> for Threes {
    type View = u64;

    type Fixed = ();

    ghost World = { Unit {0} };

    ghost holds = { λ _. AreThrees };

    ghost keeps = { λ _ _ _ _. ⊥ };

    ghost then = { knows };

    ghost newcomer = { λ _. 0 };

    ghost rests = { λ _. Unit {0} };

    ghost newcomers_rest = { λ _. tt };

    ghost resting_stay = { λ _ _ _ _ _ _. tt };

    ghost leans = { λ _ _. ⊥ };

    ghost upright = { λ _ _ _ none. none };

    ghost leaning_stay = { λ _ _ _ _ _ _ none. none };
}

/// The other seat comes to know of the block of the one.
struct Told;

impl Meeting<(), u64> for Told {
    ghost to = { λ _. hears };
}

/// Adds 1, 2 and 3 to the words of a block, so many times.
fn adds(blocks: &Blocks<u64, Threes>, seat: &mut Seat<u64, Threes>, block: u64, times: u64)
    requires { (seat.old.base ≡ blocks.now.words.id.views_name) × (seat.old.view ≡ block) × (0 < block) }
{
    for _ in 0..times {
        blocks.add(seat, At::Word(block, 0), 1);
        blocks.add(seat, At::Word(block, 1), 2);
        blocks.add(seat, At::Word(block, 2), 3);
    }
}

/// What is found in the words of a block.
fn found(blocks: &Blocks<u64, Threes>, seat: &mut Seat<u64, Threes>, block: u64) -> (u64, u64, u64)
    requires { (seat.old.base ≡ blocks.now.words.id.views_name) × (seat.old.view ≡ block) × (0 < block) }
{
    let first = blocks.load(seat, At::Word(block, 0));
    let second = blocks.load(seat, At::Word(block, 1));
    (first, second, blocks.load(seat, At::Word(block, 2)))
}

/// Two threads that add to the words of a block: the other one has a seat that comes to know of it.
fn pair<R: Threads + Sync>(
    rt: &R,
    blocks: &Blocks<u64, Threes>,
    one: &mut Seat<u64, Threes>,
    block: u64,
)
    requires { (one.old.base ≡ blocks.now.words.id.views_name) × (one.old.view ≡ block) × (0 < block) }
{
    let mut other = blocks.seat();
    blocks.meet::<Told>(one, &mut other);
    thread::join(
        rt,
        || adds(blocks, one, block, 20_000),
        || adds(blocks, &mut other, block, 20_000),
    );
}

// If one thread were served after the other, this would pass too: it shows that an addition to a word of a block's own is one step, and where that word lies.
#[test]
fn no_addition_to_a_word_of_a_block_is_lost(rt: HostRuntime) -> Result<(), Fail> {
    let home = Home::<u64, Threes>::open(rt.alloc(), 0, 64, &())?;
    let blocks = &home.blocks;
    let mut first = blocks.seat();
    let mut near = 0;
    let made = blocks.make(&mut first, &mut near, 7, 3);
    assert!(rt; made.is_ok());
    if let Ok(block) = made {
        let mut second = blocks.seat();
        blocks.meet::<Told>(&mut first, &mut second);
        let mut last = blocks.seat();
        blocks.meet::<Told>(&mut first, &mut last);
        thread::join(
            &rt,
            || pair(&rt, blocks, &mut first, block),
            || pair(&rt, blocks, &mut second, block),
        );
        let (one, two, three) = found(blocks, &mut last, block);
        assert!(rt; one == 80_000 && two == 160_000 && three == 240_000);
    }
    Ok(())
}

//! Two threads make room for buckets of slots, and add to words of slots in them.
ghost use Rattle.std.specs.Prelude.{◌≡◌, ◌≤◌, true};
ghost use Rattle.seize_tests.specs.BlocksTests.Roomy.{AreRoomy, finds_room};

use seize_blocks::{Blocks, Home, Rule, Seat};
use seize_words::At;
use std::test::Fail;
use std::thread;

/// Each seat knows how many slots have their words at least.
struct Roomy;

impl Rule<u64> for Roomy {
    type View = u64;

    type Fixed = ();

    ghost World = { Unit {0} };

    ghost holds = { λ _. AreRoomy };

    ghost keeps = { λ _ _ _ _. ⊥ };

    ghost then = { finds_room };

    ghost newcomer = { λ _. 0 };

    ghost rests = { λ _. Unit {0} };

    ghost newcomers_rest = { λ _. tt };

    ghost resting_stay = { λ _ _ _ _ _ _. tt };

    ghost leans = { λ _ _. ⊥ };

    ghost upright = { λ _ _ _ none. none };

    ghost leaning_stay = { λ _ _ _ _ _ _ none. none };
}

/// Makes room for the first three buckets, which have 224 slots. It fails where there is no memory.
fn makes_room(blocks: &Blocks<u64, Roomy>, seat: &mut Seat<u64, Roomy>) -> bool
    requires { seat.old.base ≡ blocks.now.words.id.views_name }
    ensures { (seat.new.base ≡ seat.old.base) × (result ≡ true → 224 ≤ seat.new.view) }
{
    for bucket in 0..3 {
        match blocks.room(seat, bucket) {
            Ok(_) => {}
            Err(_) => return false,
        }
    }
    true
}

/// Adds to a word of a slot of the first bucket, of one of the second and of one of the third.
fn adds(blocks: &Blocks<u64, Roomy>, seat: &mut Seat<u64, Roomy>, times: u64)
    requires { (seat.old.base ≡ blocks.now.words.id.views_name) × (224 ≤ seat.old.view) }
    ensures { seat.new.base ≡ seat.old.base }
{
    for _ in 0..times {
        blocks.add(seat, At::Slot(31, 0), 1);
        blocks.add(seat, At::Slot(32, 0), 2);
        blocks.add(seat, At::Slot(100, 1), 3);
    }
}

/// What is found in those words.
fn found(blocks: &Blocks<u64, Roomy>, seat: &mut Seat<u64, Roomy>) -> (u64, u64, u64)
    requires { (seat.old.base ≡ blocks.now.words.id.views_name) × (224 ≤ seat.old.view) }
{
    let first = blocks.load(seat, At::Slot(31, 0));
    let second = blocks.load(seat, At::Slot(32, 0));
    (first, second, blocks.load(seat, At::Slot(100, 1)))
}

/// A thread: it makes room, and adds.
fn works(blocks: &Blocks<u64, Roomy>) -> bool {
    let mut seat = blocks.seat();
    if makes_room(blocks, &mut seat) {
        adds(blocks, &mut seat, 20_000);
        true
    } else {
        false
    }
}

// Where both threads lay the words of a bucket, one of them finds the door set and gives its own back: what it adds is added to the words of the other.
#[test]
fn no_addition_to_a_word_of_a_far_slot_is_lost(rt: HostRuntime) -> Result<(), Fail> {
    let home = Home::<u64, Roomy>::open(rt.alloc(), 0, 64, &())?;
    let blocks = &home.blocks;
    let (one, other) = thread::join(&rt, || works(blocks), || works(blocks));
    assert!(rt; one && other);
    let mut last = blocks.seat();
    if makes_room(blocks, &mut last) {
        let (first, second, third) = found(blocks, &mut last);
        assert!(rt; first == 40_000 && second == 80_000 && third == 120_000);
    }
    Ok(())
}

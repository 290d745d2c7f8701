//! A seat that has no block looks at that of another one, for as long as both are borrowed, also while a third one steps, and another thread does the same.
ghost use Rattle.std.specs.Prelude.{◌≡◌};

use crate::owning::OneEach;
use seize_blocks::{Blocks, Home, Seat};
use std::test::Fail;
use std::thread;

/// A seat makes a block of its own and takes it away, and finds its value.
fn steps(
    blocks: &Blocks<u64, OneEach>,
    seat: &mut Seat<u64, OneEach>,
    near: &mut u64,
    value: u64,
) -> bool
    requires { seat.old.base ≡ blocks.now.words.id.views_name }
    ensures { seat.new.base ≡ seat.old.base }
{
    match blocks.make(seat, near, value, 0) {
        Ok(number) => blocks.take(seat, number) == value,
        Err(_) => true,
    }
}

/// Makes a block by one seat, looks at it by both together, and by what a third one knows, which steps meanwhile, and takes it away, so many times. It answers
/// how many blocks were made, or none where another value was seen or came back than was put in.
fn make_and_lend(blocks: &Blocks<u64, OneEach>, from: u64, times: u64) -> Option<u64> {
    let mut owner = blocks.seat();
    let guard = blocks.seat();
    let mut pass = blocks.seat();
    let mut near = 0;
    let mut made = 0;
    for turn in 0..times {
        let value = from.wrapping_add(turn);
        if let Ok(number) = blocks.make(&mut owner, &mut near, value, 0) {
            made += 1;
            let seen = blocks.value_for(&guard, &owner, number);
            let shown = blocks.value_by(&pass, &guard, &owner, number);
            let stepped = steps(blocks, &mut pass, &mut near, turn);
            if !stepped
                || *seen != value
                || *shown != value
                || blocks.take(&mut owner, number) != value
            {
                return None;
            }
        }
    }
    Some(made)
}

// Were one thread served after the other, each would find its values as well. What would show itself is a value that is looked at where it is not any more.
#[test]
fn two_threads_look_at_what_other_seats_have(rt: HostRuntime) -> Result<(), Fail> {
    let home = Home::<u64, OneEach>::open(rt.alloc(), 0, 4096, &())?;
    let blocks = &home.blocks;
    let (first, second) = thread::join(
        &rt,
        || make_and_lend(blocks, 0, 20_000),
        || make_and_lend(blocks, 1_000_000, 20_000),
    );
    assert!(rt; first == Some(20_000) && second == Some(20_000));
    Ok(())
}

//! Two threads make blocks, replace their values and take them away: each finds the values that it has put in last.
use crate::owning::OneEach;
use seize_blocks::{Blocks, Home};
use std::test::Fail;
use std::thread;

/// Makes a block with up to three words of its own, replaces its value, looks at the new one and takes the block away, so many times. It answers how many blocks were made, or none where
/// another value came back or was seen than was put in last.
fn make_and_rewrite(blocks: &Blocks<u64, OneEach>, from: u64, times: u64) -> Option<u64> {
    let mut seat = blocks.seat();
    let mut near = 0;
    let mut made = 0;
    for turn in 0..times {
        let value = from.wrapping_add(turn);
        let other = value.wrapping_add(500_000);
        if let Ok(number) = blocks.make(&mut seat, &mut near, value, turn % 4) {
            made += 1;
            if blocks.rewrite(&mut seat, number, other) != value {
                return None;
            }
            let seen = blocks.value(&seat, number);
            if *seen != other || blocks.take(&mut seat, number) != other {
                return None;
            }
        }
    }
    Some(made)
}

// Were one thread served after the other, each would find its values as well. What would show itself is a value that went to the place of another block.
#[test]
fn two_threads_find_the_values_that_they_have_put_last(rt: HostRuntime) -> Result<(), Fail> {
    let home = Home::<u64, OneEach>::open(rt.alloc(), 0, 4096, &())?;
    let blocks = &home.blocks;
    let (first, second) = thread::join(
        &rt,
        || make_and_rewrite(blocks, 0, 20_000),
        || make_and_rewrite(blocks, 1_000_000, 20_000),
    );
    assert!(rt; first == Some(20_000) && second == Some(20_000));
    Ok(())
}

//! Two threads look at the value of one block, each many times, while both have a `&` to the seat whose block it is.
ghost use Rattle.std.specs.Prelude.{◌≡◌, Some};

use crate::owning::OneEach;
use seize_blocks::{Blocks, Home, Seat};
use std::test::Fail;
use std::thread;

/// A block with the seat that has it.
#[derive(Drop)]
pub(crate) struct Kept<'a> {
    blocks: &'a Blocks<u64, OneEach>,
    seat: Seat<u64, OneEach>,
    number: u64,
    value: u64,
    ghost own: { seat.base ≡ blocks.now.words.id.views_name },
    ghost has: { seat.view ≡ Some (number, value) },
}

impl<'a> Kept<'a> {
    /// A block of this value.
    pub(crate) fn make(blocks: &'a Blocks<u64, OneEach>, value: u64) -> Option<Self> {
        let mut seat = blocks.seat();
        let mut near = 0;
        match blocks.make(&mut seat, &mut near, value, 0) {
            Ok(number) => Some(Kept {
                blocks,
                seat,
                number,
                value,
            }),
            Err(_) => None,
        }
    }

    /// Looks so many times, and tells whether the value was there each time.
    pub(crate) fn looks(&self, times: u64) -> bool {
        for _ in 0..times {
            if *self.blocks.value(&self.seat, self.number) != self.value {
                return false;
            }
        }
        true
    }

    /// Takes the block away.
    pub(crate) fn take(self) -> u64
        ensures { result ≡ self.entry.value }
    {
        let Kept {
            blocks,
            mut seat,
            number,
            value: _,
        } = self;
        blocks.take(&mut seat, number)
    }
}

/// If one thread were served after the other, this would pass too: it shows that the place is still there, and not used again.
#[test]
fn two_threads_look_at_one_value(rt: HostRuntime) -> Result<(), Fail> {
    let home = Home::<u64, OneEach>::open(rt.alloc(), 0, 8, &())?;
    let Some(kept) = Kept::make(&home.blocks, 7) else {
        return Err(Fail::new("no block was made"));
    };
    let (first, second) = thread::join(&rt, || kept.looks(20_000), || kept.looks(20_000));
    assert!(rt; first && second);
    assert_eq!(rt; kept.take(), 7);
    Ok(())
}

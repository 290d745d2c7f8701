//! The words of buckets of slots are given back.
ghost use Rattle.std.specs.Prelude.{◌≡◌};
ghost use Rattle.core.specs.Mem.Slots.{slots_items, slots_filled, slots_ptr, slots_len};
ghost use Rattle.core.specs.Mem.Slots.Ownership.{Filled};
ghost use Rattle.seize_seats.specs.Plots.Pieces.{AreBucketsBehind};

use crate::beside::give_words;
use crate::pieces::Pieces;
use core::slots::Slots;
use std::alloc::Global;
use std::ptr::NonNull;

/// How many words the bucket has that follows the first one: 16 for each of its 64 slots.
const FIRST: u64 = 1024;

/// Gives back the words of all buckets of slots but the first: the doors behind those of strips have their addresses, and each bucket has twice as many as the one
/// before it.
pub fn clear_rooms(alloc: &Global, pieces: Pieces, doors: &mut Slots<*mut u64>)
    requires { Filled (slots_filled doors.old) 32 (slots_len doors.old) × (slots_len doors.old ≡ 64) × AreBucketsBehind 32 pieces.spots (slots_items doors.old) }
    ensures { (slots_ptr doors.new ≡ slots_ptr doors.old) × (slots_len doors.new ≡ slots_len doors.old) }
{
    let mut left = pieces;
    let mut count = FIRST;
    for door in 32..64 {
        match NonNull::new(doors.take(door)) {
            Some(at) => {
                let (piece, others) = left.next();
                give_words(alloc, at.as_ptr(), count, piece);
                left = others;
                count = count * 2;
            }
            None => {
                left.over();
                return;
            }
        }
    }
    left.over();
}

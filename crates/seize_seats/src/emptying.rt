//! Places are emptied, and what lies beside their values is given back.
ghost use Rattle.std.specs.Prelude.{◌≡◌, ℕ, ◌*◌, ◌^◌, ◌<◌, None, map, take, true, slice_index_or};
ghost use Rattle.core.specs.Mem.Slots.{slots_items, slots_filled, slots_ptr, slots_len, IsFull};
ghost use Rattle.core.specs.Mem.Slots.Ownership.{Filled};
ghost use Rattle.seize_seats.specs.Seats.Strips.{further};
ghost use Rattle.seize_seats.specs.Seats.Doors.{block_bytes, IsFurther, AreBehind};
ghost use Rattle.seize_seats.specs.Seats.Owned.{stride};
ghost use Rattle.seize_seats.specs.Seats.Plots.{AreEmpty, HasFirst};
ghost use Rattle.seize_seats.specs.Plots.Pieces.{spot_of, first_spot, other_spots};
ghost use Rattle.seize_seats.specs.contracts.kept.Kept.{the_row as KeptOf};

use crate::beside::give_words;
use crate::kept::Kept;
use crate::pieces::Pieces;
use crate::plot::{OwnedStrips, bytes_of, release, skip_of};
use crate::row::Row;
use core::slots::Slots;
use std::alloc::Global;
use std::ptr::{NonNull, null_mut};

/// What a place holds is dropped, and the words that lie beside it are given back: those in the first spot.
fn drop_first<T: Drop>(alloc: &Global, kept: Option<Kept<T>>, pieces: Pieces) -> Pieces
    requires { first_spot pieces.spots ≡ spot_of kept }
    ensures { result.spots ≡ other_spots pieces.spots }
{
    let (piece, others) = pieces.next();
    match kept {
        Some(kept) => {
            let at = kept.at;
            let count = kept.count;
            give_words(alloc, at, count, piece);
        }
        None => give_words(alloc, null_mut(), 0, piece),
    }
    others
}

/// Drops what each place holds, and gives back the words that lie beside it.
pub fn drain<T: Drop>(
    alloc: &Global,
    slots: &mut Slots<Option<Kept<T>>>,
    count: usize,
    pieces: Pieces,
)
    requires { (slots_len slots.old ≡ count) × IsFull slots.old × (pieces.spots ≡ map spot_of (slots_items slots.old)) }
    ensures same { (slots_ptr slots.new ≡ slots_ptr slots.old) × (slots_len slots.new ≡ slots_len slots.old) }
    ensures empty { AreEmpty (slots_filled slots.new) (slots_len slots.new) }
{
    let mut left = pieces;
    for index in 0..count {
        left = drop_first(alloc, slots.take(index), left);
    }
    left.over();
}

/// Drops what the first of the strips holds, and gives its block back. The others stay.
pub fn give_up<T: Drop>(
    alloc: &Global,
    strips: OwnedStrips<T>,
    at: *mut Option<Kept<T>>,
    count: usize,
) -> OwnedStrips<T>
    requires { HasFirst (KeptOf T.row) at count strips.strips × (block_bytes (KeptOf T.row) count < 2 ^ 63) × (count * stride (KeptOf T.row) < 2 ^ 63) }
    ensures { result.strips ≡ further strips.strips }
{
    let skip = skip_of::<Kept<T>>(count);
    let (places, words, deed, others, pieces) = strips.parted(alloc, at, count, skip);
    let mut slots = places.into_slots(count);
    drain(alloc, &mut slots, count, pieces);
    release::<Kept<T>, Global>(
        alloc,
        Row::of(slots),
        words,
        deed,
        bytes_of::<Kept<T>>(count, skip),
    );
    others
}

/// The places of a strip that has no value yet are emptied.
fn vacate<T>(slots: &mut Slots<Option<Kept<T>>>, count: usize, pieces: Pieces)
    requires { (slots_len slots.old ≡ count) × IsFull slots.old × ((k : ℕ) → slice_index_or (slots_items slots.old) k None ≡ None)
        × (pieces.spots ≡ map spot_of (slots_items slots.old)) }
    ensures same { (slots_ptr slots.new ≡ slots_ptr slots.old) × (slots_len slots.new ≡ slots_len slots.old) }
    ensures empty { AreEmpty (slots_filled slots.new) (slots_len slots.new) }
{
    let mut left = pieces;
    for index in 0..count {
        match slots.take(index) {
            None => {
                let (piece, others) = left.next();
                piece.end();
                left = others;
            }
            Some(_) => unreachable!(),
        }
    }
    left.over();
}

/// Gives the block of a fresh strip back.
pub fn take_back<T>(alloc: &Global, strips: OwnedStrips<T>, at: *mut Option<Kept<T>>, count: usize)
    requires { HasFirst (KeptOf T.row) at count strips.strips × (strips.fresh ≡ true) × (block_bytes (KeptOf T.row) count < 2 ^ 63)
        × (count * stride (KeptOf T.row) < 2 ^ 63) }
{
    let skip = skip_of::<Kept<T>>(count);
    let (places, words, deed, _, pieces) = strips.parted(alloc, at, count, skip);
    let mut slots = places.into_slots(count);
    vacate(&mut slots, count, pieces);
    release::<Kept<T>, Global>(
        alloc,
        Row::of(slots),
        words,
        deed,
        bytes_of::<Kept<T>>(count, skip),
    );
}

/// Gives back all further strips, with the own words of their blocks: the doors from the first on have the addresses of as many, each of as many numbers as come
/// before it. Behind the 32 doors of strips are those of buckets, which stay.
pub fn clear<T: Drop>(
    alloc: &Global,
    strips: OwnedStrips<T>,
    doors: &mut Slots<*mut u64>,
    least: u64,
)
    requires { IsFull doors.old × (slots_len doors.old ≡ 64) × AreBehind (IsFurther (KeptOf T.row) least) 0 strips.strips (take 32 (slots_items doors.old)) }
    ensures { (slots_ptr doors.new ≡ slots_ptr doors.old) × (slots_len doors.new ≡ slots_len doors.old) × (slots_items doors.new ≡ slots_items doors.old)
        × Filled (slots_filled doors.new) 32 (slots_len doors.new) }
{
    let mut left = strips;
    let mut count = least;
    for door in 0..32 {
        match NonNull::new(doors.take(door)) {
            Some(at) => {
                left = give_up(
                    alloc,
                    left,
                    at.cast::<Option<Kept<T>>>().as_ptr(),
                    count as usize,
                );
                count = count * 2;
            }
            None => return,
        }
    }
}

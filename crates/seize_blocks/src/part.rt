//! A strip with what its numbers are found by.
ghost use Rattle.std.specs.Prelude.{◌≡◌, ◌+◌, ◌*◌, ◌^◌, ◌<◌, ◌≤◌};

use seize_atoms::Strip;
use seize_seats::{Address, Kept, ValuePlaces};

/// A strip, where its values lie, how many numbers come before its own and how many it has, and how many words come before theirs.
#[derive(Drop)]
pub(crate) struct Part<T> {
    pub(crate) strip: Strip<T>,
    pub(crate) values: *mut Option<Kept<T>>,
    pub(crate) first: u64,
    pub(crate) count: u64,
    pub(crate) skip: u64,
    ghost is: { (strip.id.values ≡ values) × (strip.id.first ≡ first) × (strip.id.size ≡ count) × (strip.id.skip ≡ skip) },
    ghost fits: { ((skip + count * 5) * 8 < 2 ^ 63) × (first + count ≤ 2 ^ 32) },
}

/// A block in a strip: where the values of that lie, the index of the block in it, and how many words come before the block's.
#[derive(Drop)]
pub struct Spot<T> {
    pub(crate) strip: Strip<T>,
    pub(crate) values: *mut Option<Kept<T>>,
    pub(crate) index: u64,
    pub(crate) first: u64,
}

/// A block that was looked for, 0 if none was, and where it is. It stays there: so it is found once, as long as the memory is borrowed.
#[derive(Drop)]
pub struct Place<T> {
    pub(crate) block: u64,
    pub(crate) spot: Spot<T>,
}

/// From where an operation on a word is made: by which strip, from which address, and how many words on from there.
#[derive(Drop)]
pub(crate) struct Reached<T> {
    pub(crate) strip: Strip<T>,
    pub(crate) address: *mut u64,
    pub(crate) place: u64,
}

/// Where the places of a further strip lie: at its own address, if it has one.
pub(crate) fn places_in<T>(strip: &Strip<T>) -> ValuePlaces<T>
    ensures { result.at ≡ strip.now.words }
{
    ValuePlaces {
        at: strip.words as *mut Option<Kept<T>>,
    }
}

/// Where the words of a strip lie, if it has an address.
#[inline(always)]
pub(crate) fn words_in<T>(strip: &Strip<T>) -> Address
    ensures { result.at ≡ strip.now.words }
{
    Address { at: strip.words }
}

/// From which address an operation on a word of a block's own is made, and how many words on from there.
#[derive(Drop)]
pub(crate) struct Landing {
    pub(crate) at: *mut u64,
    pub(crate) place: u64,
}

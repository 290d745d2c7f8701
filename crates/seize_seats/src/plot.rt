//! The blocks of further strips, which are under no rule yet, or no longer.
ghost use Rattle.std.specs.Prelude.{◌≡◌, ℕ, ◌+◌, ◌*◌, ◌^◌, ◌<◌, ◌≤◌, Bool, List, length, true, IfOk};
ghost use Rattle.std.specs.Prelude.{slice_index, slice_index_or, None};
ghost use base.Stored.{coded_list};
ghost use prog.Memory.{capped};
ghost use denote.RawPtr.{Ptr, InBlock, coded_ptr};
ghost use Rattle.core.specs.Mem.Slots.{slots_items, slots_filled, slots_ptr, slots_len, IsFull};
ghost use Rattle.core.specs.Mem.Slots.Ownership.{Filled};
ghost use Rattle.seize_seats.specs.Seats.Strips.{Strip, strip_coded, further};
ghost use Rattle.seize_seats.specs.Seats.Doors.{before, block_bytes, words_from, deed};
ghost use Rattle.seize_seats.specs.Seats.Owned.{stride, all_alone};
ghost use Rattle.seize_seats.specs.Seats.Plots.{AreEmpty, HasFirst};
ghost use Rattle.std.specs.Prelude.{map};
ghost use Rattle.seize_seats.specs.Plots.Pieces.{kept_words, spot_of};
ghost use Rattle.seize_seats.specs.contracts.kept.Kept.{the_row as KeptOf};

use crate::filling::{empty, fill};
use crate::kept::Kept;
use crate::pieces::Pieces;
use crate::row::Row;
use core::slots::Slots;
use std::alloc::{AllocError, Allocator, Global};
use std::marker::{Model, PhantomData};
use std::mem::size_of;

/// The right to give back the block of a further strip. It has no bytes.
pub struct StripRight<T, A: Allocator> {
    pub marker: PhantomData<(T, A)>,
    pub ghost heap: { A },
    pub ghost at: { Ptr } by { coded_ptr },
    pub ghost count: { ℕ },
}

impl<T, A: Allocator> Model for StripRight<T, A> {
    ghost also_owns = { λ s. deed T.row (A.dealloc_token s.heap) s.count s.at };
}

/// Further strips, with the rights to give their blocks back: fresh ones, that have no value yet, or others. It has no bytes.
#[derive(Drop)]
pub struct OwnedStrips<T> {
    pub marker: PhantomData<T>,
    pub ghost fresh: { Bool },
    pub ghost strips: { List Strip } by { coded_list strip_coded },
}

impl<T> Model for OwnedStrips<T> {
    ghost also_owns = { λ s. all_alone (KeptOf T.row) kept_words s.fresh s.strips };
}

/// Returns how many bytes a place has.
pub fn stride_of<T>() -> usize
    ensures { result ≡ capped (stride T.row) }
{
    size_of::<Option<T>>()
}

/// Returns how many words would lie where the places of so many numbers do.
pub fn skip_of<T>(count: usize) -> usize
    requires { count * stride T.row < 2 ^ 63 }
    ensures { result ≡ before T.row count }
{
    (count * size_of::<Option<T>>() + 7) / 8
}

/// Returns how many bytes the block of a further strip has, of which so many words would lie where its places do.
pub fn bytes_of<T>(count: usize, skip: usize) -> usize
    requires { (skip ≡ before T.row count) × (block_bytes T.row count < 2 ^ 63) }
    ensures { result ≡ block_bytes T.row count }
{
    (skip + count * 5 + 1) / 2 * 16
}

/// Returns whether a block of so many numbers is not too large. Values of 1 GiB or more have no further strips.
pub fn fits<T>(count: usize) -> bool
    ensures { result ≡ true → (block_bytes T.row count < 2 ^ 63) × (count * stride T.row < 2 ^ 63) }
{
    stride_of::<T>() < 1073741824 && count <= 4294967296
}

/// Reserves the block of a further strip: its places and its words, of which none is full.
pub fn reserve<T, A: Allocator>(
    alloc: &A,
    _count: usize,
    skip: usize,
    size: usize,
) -> Result<(Row<Option<T>>, Row<u64>, StripRight<T, A>), AllocError>
    requires { (skip ≡ before T.row _count) × (size ≡ block_bytes T.row _count) × (block_bytes T.row _count < 2 ^ 63) }
    ensures { IfOk result (λ p. (p.2.heap ≡ alloc.now) × (p.2.at ≡ p.0.at) × (p.2.count ≡ _count) × InBlock p.0.at
        × (p.1.at ≡ words_from T.row _count p.0.at) × (length p.0.items ≡ _count) × (length p.1.items ≡ _count * 5)) }
{
    match alloc.allocate(size, 16) {
        Ok(block) => {
            let at = block as *mut Option<T>;
            let words = unsafe { (block as *mut u64).add(skip) };
            Ok((
                Row { at },
                Row { at: words },
                StripRight {
                    marker: PhantomData,
                },
            ))
        }
        Err(refused) => Err(refused),
    }
}

/// Gives the block of a further strip back.
pub fn release<T, A: Allocator>(
    alloc: &A,
    places: Row<Option<T>>,
    words: Row<u64>,
    deed: StripRight<T, A>,
    size: usize,
)
    requires { (deed.heap ≡ alloc.now) × (deed.at ≡ places.at) × (words.at ≡ words_from T.row deed.count places.at)
        × (length places.items ≡ deed.count) × (length words.items ≡ deed.count * 5)
        × AreEmpty places.filled (length places.items) × Filled words.filled 0 (length words.items)
        × (size ≡ block_bytes T.row deed.count) × (block_bytes T.row deed.count < 2 ^ 63) }
{
    let Row { at } = places;
    let Row { at: _ } = words;
    let StripRight { marker: _ } = deed;
    unsafe {
        alloc.deallocate(at as *mut u8, size, 16);
    }
}

impl<T> OwnedStrips<T> {
    /// Returns the first of the strips, of so many numbers, the others, and the own words of its blocks.
    pub fn parted(
        self,
        _alloc: &Global,
        at: *mut Option<Kept<T>>,
        _count: usize,
        skip: usize,
    ) -> (
        Row<Option<Kept<T>>>,
        Row<u64>,
        StripRight<Kept<T>, Global>,
        OwnedStrips<T>,
        Pieces,
    )
        requires { HasFirst (KeptOf T.row) at _count self.strips × (skip ≡ before (KeptOf T.row) _count) × (block_bytes (KeptOf T.row) _count < 2 ^ 63) }
        ensures { (result.0.at ≡ at) × (result.1.at ≡ words_from (KeptOf T.row) _count at) × (length result.0.items ≡ _count) × (length result.1.items ≡ _count * 5)
            × Filled result.0.filled 0 (length result.0.items) × Filled result.1.filled 0 (length result.1.items)
            × (result.2.heap ≡ _alloc.now) × (result.2.at ≡ at) × (result.2.count ≡ _count) × (result.3.strips ≡ further self.strips)
            × (self.fresh ≡ true → (k : ℕ) → slice_index_or result.0.items k None ≡ None) × (result.4.spots ≡ map spot_of result.0.items) }
    {
        let OwnedStrips { marker: _ } = self;
        let words = unsafe { (at as *mut u64).add(skip) };
        (
            Row { at },
            Row { at: words },
            StripRight {
                marker: PhantomData,
            },
            OwnedStrips {
                marker: PhantomData,
            },
            Pieces {
                marker: PhantomData,
            },
        )
    }
}

/// Lays a block of so many numbers: its places hold none, and its words are 0.
pub fn lay_strip<T>(
    alloc: &Global,
    count: usize,
) -> Result<(Row<Option<T>>, Row<u64>, StripRight<T, Global>), AllocError>
    requires { (block_bytes T.row count < 2 ^ 63) × (count * stride T.row < 2 ^ 63) }
    ensures lies { IfOk result (λ p. (p.2.at ≡ p.0.at) × (p.2.count ≡ count) × InBlock p.0.at × (p.1.at ≡ words_from T.row count p.0.at)) }
    ensures long { IfOk result (λ p. (length p.0.items ≡ count) × (length p.1.items ≡ count * 5)) }
    ensures full { IfOk result (λ p. Filled p.0.filled 0 (length p.0.items) × Filled p.1.filled 0 (length p.1.items)) }
    ensures nones { IfOk result (λ p. (k : ℕ) → slice_index_or p.0.items k None ≡ None) }
    ensures zeros { IfOk result (λ p. (k : ℕ) → slice_index p.1.items k ≡ 0) }
{
    let skip = skip_of::<T>(count);
    let (places, words, deed) = reserve::<T, Global>(
        alloc,
        count,
        skip,
        bytes_of::<T>(count, skip),
    )?;
    let mut slots = places.into_slots(count);
    empty(&mut slots, count);
    let mut zeros = words.into_slots(count * 5);
    fill(&mut zeros, count * 5);
    Ok((Row::of(slots), Row::of(zeros), deed))
}

//! Words of a block's own, which lie in memory beside it.
ghost use Rattle.std.specs.Prelude.{◌≡◌, ℕ, ◌*◌, ◌^◌, ◌<◌, List, length, [], IfOk};
ghost use base.Stored.{coded_list, coded_ℕ};
ghost use denote.RawPtr.{Ptr, InBlock, coded_ptr, null_ptr};
ghost use Rattle.core.specs.Mem.Slots.Ownership.{Filled};
ghost use Rattle.seize_seats.specs.Plots.Pieces.{words_held, piece_at};

use crate::row::Row;
use std::alloc::{AllocError, Allocator, Global};
use std::marker::{Model, PhantomData};

/// The right to give the memory of so many words back. It has no bytes.
pub struct Right<A: Allocator> {
    pub marker: PhantomData<A>,
    pub ghost heap: { A },
    pub ghost at: { Ptr } by { coded_ptr },
    pub ghost count: { ℕ },
}

impl<A: Allocator> Model for Right<A> {
    ghost also_owns = { λ s. words_held (A.dealloc_token s.heap) s.count s.at };
}

/// So many words, with the right to give their memory back: at null where there are none. It has no bytes, and can't be let go.
pub struct Piece {
    pub marker: PhantomData<u64>,
    pub ghost at: { Ptr } by { coded_ptr },
    pub ghost count: { ℕ },
    pub ghost words: { List ℕ } by { coded_list coded_ℕ },
}

impl Model for Piece {
    ghost also_owns = { λ s. piece_at s.at s.count s.words };
}

/// Where words lie, and the words.
pub struct Laid {
    pub at: *mut u64,
    pub piece: Piece,
}

/// Reserves room for so many words, at least one.
pub fn reserve_words<A: Allocator>(
    alloc: &A,
    _count: usize,
    size: usize,
) -> Result<(Row<u64>, Right<A>), AllocError>
    requires { (0 < _count) × (size ≡ _count * 8) × (size < 2 ^ 63) }
    ensures { IfOk result (λ p. (p.1.heap ≡ alloc.now) × (p.1.at ≡ p.0.at) × (p.1.count ≡ _count) × InBlock p.0.at × (length p.0.items ≡ _count)) }
{
    match alloc.allocate(size, 8) {
        Ok(block) => {
            let at = block as *mut u64;
            Ok((
                Row { at },
                Right {
                    marker: PhantomData,
                },
            ))
        }
        Err(refused) => Err(refused),
    }
}

/// Returns the words of a row, of which there is at least one, with the right to give their memory back.
pub fn join_words(words: Row<u64>, right: Right<Global>) -> Laid
    requires { (right.at ≡ words.at) × (length words.items ≡ right.count) × Filled words.filled 0 (length words.items) × (0 < right.count) }
    ensures { (result.at ≡ right.at) × (result.piece.at ≡ right.at) × (result.piece.count ≡ right.count) × (result.piece.words ≡ words.items) }
{
    let Row { at } = words;
    let Right { marker: _ } = right;
    Laid {
        at,
        piece: Piece {
            marker: PhantomData,
        },
    }
}

/// Gives words back.
pub fn release_words<A: Allocator>(alloc: &A, words: Row<u64>, right: Right<A>, size: usize)
    requires { (right.heap ≡ alloc.now) × (right.at ≡ words.at) × (length words.items ≡ right.count) × Filled words.filled 0 (length words.items)
        × (size ≡ right.count * 8) × (size < 2 ^ 63) }
{
    let Row { at } = words;
    let Right { marker: _ } = right;
    unsafe {
        alloc.deallocate(at as *mut u8, size, 8);
    }
}

impl Piece {
    /// Makes a piece of no words.
    pub fn none() -> Piece
        ensures { (result.at ≡ null_ptr) × (result.count ≡ 0) × (result.words ≡ []) }
    {
        Piece {
            marker: PhantomData,
        }
    }

    /// Ends where no words are left.
    pub fn end(self)
        requires { self.count ≡ 0 }
    {
        let Piece { marker: _ } = self;
    }

    /// Returns the words, at least one, and the right to give their memory back.
    pub fn parted(self, _alloc: &Global, at: *mut u64) -> (Row<u64>, Right<Global>)
        requires { (0 < self.count) × (at ≡ self.at) }
        ensures { (result.0.at ≡ at) × (length result.0.items ≡ self.count) × Filled result.0.filled 0 (length result.0.items)
            × (result.1.heap ≡ _alloc.now) × (result.1.at ≡ at) × (result.1.count ≡ self.count) × (self.count * 8 < 2 ^ 63) }
    {
        let Piece { marker: _ } = self;
        (
            Row { at },
            Right {
                marker: PhantomData,
            },
        )
    }
}

//! The memory of a block: one piece, with a place for its value and after it one for each of its words.
ghost use Rattle.std.specs.Prelude.{◌≡◌, ℕ, ◌*◌, ◌+◌, ◌<◌, ◌^◌, ◌∷◌, [], false, IfSome, replicate};
ghost use denote.RawPtr.{Ptr, coded_ptr, ◌+ₚ◌};
ghost use Rattle.core.specs.Allocator.{owned_block, HasLayout};
ghost use Rattle.core.specs.Mem.Slots.{slots_items, slots_filled, slots_ptr, slots_len};
ghost use Rattle.core.specs.Mem.{type_size};
ghost use Rattle.seize_words.specs.OneMemory.Room.{ShortPiece, piece_of, words_from, frame};

use core::slots::Slots;
use std::alloc::Allocator;
use std::marker::{Model, PhantomData};

/// A piece of memory in which nothing lies.
pub(crate) struct Room<T, W, A: Allocator> {
    at: *mut u8,
    marker: PhantomData<(T, W, A)>,
    ghost count: { ℕ },
    ghost alloc: { A },
}

impl<T, W, A: Allocator> Model for Room<T, W, A> {
    ghost also_owns = { λ r. owned_block (A.dealloc_token r.alloc) (piece_of T.row W.row r.count) r.at };
}

/// What is left of a piece without its places. It has no bytes.
pub(crate) struct Frame<T, W, A: Allocator> {
    marker: PhantomData<(T, W, A)>,
    ghost at: { Ptr } by { coded_ptr },
    ghost next: { Ptr } by { coded_ptr },
    ghost count: { ℕ },
    ghost alloc: { A },
}

impl<T, W, A: Allocator> Model for Frame<T, W, A> {
    ghost also_owns = { λ f. frame T.row W.row (A.dealloc_token f.alloc) f.count f.at f.next };
}

unsafe impl<T: Send, W: Send, A: Allocator + Send> Send for Frame<T, W, A> {}

impl<T, W, A: Allocator> Room<T, W, A> {
    /// A piece with places for so many words, of this size and alignment.
    pub(crate) fn new(alloc: &A, _count: usize, size: usize, align: usize) -> Option<Room<T, W, A>>
        requires { HasLayout (piece_of T.row W.row _count) size align }
        ensures { IfSome result (λ r. (r.alloc ≡ alloc.now) × (r.count ≡ _count)) }
    {
        match alloc.allocate(size, align) {
            Ok(at) => Some(Room {
                at,
                marker: PhantomData,
            }),
            Err(_) => None,
        }
    }

    /// Gives the piece back.
    pub(crate) fn free(self, alloc: &A, size: usize, align: usize)
        requires { (self.alloc ≡ alloc.now) × HasLayout (piece_of T.row W.row self.count) size align }
    {
        let Room { at, marker: _ } = self;
        unsafe { alloc.deallocate(at, size, align) }
    }

    /// Its places, each empty. `_like` and `_zero` only show that the types have values.
    pub(crate) fn cut(
        self,
        count: usize,
        from: usize,
        _like: &T,
        _zero: &W,
    ) -> (Slots<T>, Slots<W>, Frame<T, W, A>)
        requires { (self.count ≡ count) × (from ≡ words_from T.row W.row) × ShortPiece T.row W.row count }
        ensures { (slots_len result.0 ≡ 1) × (slots_items result.0 ≡ _like.now ∷ []) × (slots_filled result.0 ≡ false ∷ []) × (slots_len result.1 ≡ count) × (slots_items result.1 ≡ replicate count _zero.now) × (slots_filled result.1 ≡ replicate count false) × (result.2.count ≡ count) × (result.2.alloc ≡ self.alloc) × (slots_ptr result.0 ≡ result.2.at) × (slots_ptr result.1 ≡ result.2.next) }
    {
        let Room { at, marker: _ } = self;
        unsafe {
            let value = Slots::from_raw_parts(at as *mut T, 1);
            let words = Slots::from_raw_parts(at.add(from) as *mut W, count);
            (
                value,
                words,
                Frame {
                    marker: PhantomData,
                },
            )
        }
    }
}

impl<T, W, A: Allocator> Frame<T, W, A> {
    /// The piece again.
    pub(crate) fn join(self, value: Slots<T>, words: Slots<W>) -> Room<T, W, A>
        requires { (slots_ptr value ≡ self.at) × (slots_ptr words ≡ self.next) × (slots_len value ≡ 1) × (slots_len words ≡ self.count) × (slots_filled value ≡ false ∷ []) }
        ensures { (result.count ≡ self.count) × (result.alloc ≡ self.alloc) × ShortPiece T.row W.row self.count }
    {
        let Frame { marker } = self;
        let (value, _) = unsafe { value.into_raw_parts() };
        let (_, _) = unsafe { words.into_raw_parts() };
        Room {
            at: value as *mut u8,
            marker,
        }
    }
}

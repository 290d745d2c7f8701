//! A block in a piece of heap memory of its own.
ghost use Rattle.std.specs.Prelude.{◌≡◌, ◌*◌, ◌+◌, ◌^◌, ◌<◌, ◌≤◌, IsSome, IsTrue, IfOk, IfErr, length, replicate, slice_get, slice_set};
ghost use denote.Builtin.{u64};
ghost use Rattle.core.specs.Allocator.{HasLayout};
ghost use Rattle.core.specs.Mem.Slots.{slots_items, slots_ptr, slots_len, IsFull};
ghost use Rattle.seize_words.specs.OneMemory.Mem.{fresh};
ghost use Rattle.seize_words.specs.OneMemory.Room.{ShortPiece, piece_of, words_from};

use crate::block::ENTRY_WORDS;
use crate::room::{Frame, Room};
use core::slots::Slots;
use std::alloc::{Global, Layout};
use std::marker::Model;
use std_alloc::room::may_hold;

/// A block has fewer own words than this.
const WORDS: u64 = 1 << 59;

/// Whether a piece of memory can be long enough for so many words.
fn is_short<T>(count: usize) -> bool
    ensures { IsTrue result → ShortPiece T.row u64 count }
{
    if !may_hold::<T>(1) {
        return false;
    }
    let Ok(words) = Layout::array::<u64>(count) else {
        return false;
    };
    Layout::new::<T>().extend(words).is_ok()
}

/// The size and the alignment of a piece with so many words, and how far its first word lies from its beginning.
fn layout<T>(count: usize) -> (usize, usize, usize)
    requires { ShortPiece T.row u64 count }
    ensures layout { HasLayout (piece_of T.row u64 count) result.0 result.1 }
    ensures words { result.2 ≡ words_from T.row u64 }
{
    let Ok(words) = Layout::array::<u64>(count) else {
        unreachable!();
    };
    let Ok((both, from)) = Layout::new::<T>().extend(words) else {
        unreachable!();
    };
    let whole = both.pad_to_align();
    (whole.size(), whole.align(), from)
}

/// Each word is 0.
fn fill(words: &mut Slots<u64>, count: usize)
    requires long { slots_len words.old ≡ count }
    requires zeros { slots_items words.old ≡ replicate count 0 }
    ensures full { IsFull words.new }
    ensures zeros { slots_items words.new ≡ replicate count 0 }
    ensures same { (slots_ptr words.new ≡ slots_ptr words.old) × (slots_len words.new ≡ slots_len words.old) }
{
    for index in 0..count {
        words.put(index, 0);
    }
}

/// A block in a piece of heap memory of its own: its value, and behind it the words of its entry and then its own.
pub(crate) struct Piece<T> {
    alloc: Global,
    value: Slots<T>,
    words: Slots<u64>,
    frame: Frame<T, u64, Global>,
    ghost one: { length (slots_items value) ≡ 1 },
    ghost heap: { frame.alloc ≡ alloc },
}

impl<T> Model for Piece<T> {
    ghost use Rattle.core.specs.Mem.Slots.{slots_items};
    ghost use Rattle.seize_words.specs.declared.block.Block.{Block};
    ghost use Rattle.seize_words.specs.OneMemory.Piece.{only_of, block_of, IsPiece};

    ghost Value = { Block T };

    ghost view = { λ p. block_of (only_of (slots_items p.value) p.one) (slots_items p.words) };

    ghost invariant = { λ p. IsPiece p.value p.words p.frame.at p.frame.next p.frame.count };
}

unsafe impl<T: Send> Send for Piece<T> {}

impl<T> Piece<T> {
    /// A block of a value and as many words, each 0. Where there is no memory the value comes back.
    pub(crate) fn make(alloc: Global, value: T, words: u64) -> Result<Self, T>
        ensures ok { IfOk result (λ block. block ≡ fresh value words) }
        ensures err { IfErr result (λ back. back ≡ value) }
    {
        if words >= WORDS {
            return Err(value);
        }
        let count = words as usize + ENTRY_WORDS;
        if !is_short::<T>(count) {
            return Err(value);
        }
        let (size, align, from) = layout::<T>(count);
        let Some(room) = Room::new(&alloc, count, size, align) else {
            return Err(value);
        };
        let (mut place, mut words, frame) = room.cut(count, from, &value, &0);
        fill(&mut words, count);
        place.put(0, value);
        Ok(Piece {
            alloc,
            value: place,
            words,
            frame,
        })
    }

    /// The value.
    #[inline(always)]
    pub(crate) fn value(&self) -> &T
        ensures { result.now ≡ self.now.value }
    {
        self.value.get(0)
    }

    /// A word of the entry.
    #[inline(always)]
    pub(crate) fn entry(&self, index: u64) -> u64
        requires { IsSome (slice_get self.now.entry index) }
        ensures { slice_get self.now.entry index ≡ Some result }
    {
        *self.words.get(index as usize)
    }

    /// A word of the block's own.
    #[inline(always)]
    pub(crate) fn word(&self, index: u64) -> u64
        requires { IsSome (slice_get self.now.words index) }
        ensures { slice_get self.now.words index ≡ Some result }
    {
        *self.words.get(index as usize + ENTRY_WORDS)
    }

    /// Writes a word of the entry.
    #[inline(always)]
    pub(crate) fn set_entry(&mut self, index: u64, word: u64)
        requires { IsSome (slice_get self.old.entry index) }
        ensures { self.new ≡ record self.old { entry = slice_set self.old.entry index word } }
    {
        self.words.put(index as usize, word);
    }

    /// Writes a word of the block's own.
    #[inline(always)]
    pub(crate) fn set_word(&mut self, index: u64, word: u64)
        requires { IsSome (slice_get self.old.words index) }
        ensures { self.new ≡ record self.old { words = slice_set self.old.words index word } }
    {
        self.words.put(index as usize + ENTRY_WORDS, word);
    }

    /// Replaces the value, and answers the one before.
    pub(crate) fn rewrite(&mut self, value: T) -> T
        ensures before { result ≡ self.old.value }
        ensures after { self.new ≡ record self.old { value = value } }
    {
        let before = self.value.take(0);
        self.value.put(0, value);
        before
    }

    /// Frees the piece, and answers the value.
    pub(crate) fn take(self) -> T
        ensures { result ≡ self.value }
    {
        let Piece {
            alloc,
            value: mut place,
            words,
            frame,
        } = self;
        let value = place.take(0);
        let count = words.len();
        let room = frame.join(place, words);
        let (size, align, _) = layout::<T>(count);
        room.free(&alloc, size, align);
        value
    }
}

impl<T: Drop> Drop for Piece<T> {
    fn drop(self) {
        drop(self.take());
    }
}

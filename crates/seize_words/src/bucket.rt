//! A bucket of the directory: the pieces of blocks with numbers one after another.
ghost use Rattle.std.specs.Prelude.{◌≡◌, ◌∷◌, ◌++◌, ◌<◌, [], None, Some, IsSome, IfOk, OnOk, IfErr, length, slice_index_or, slice_set};
ghost use Rattle.seize_words.specs.OneMemory.Mem.{value_in, entry_in, word_in, with_entry, with_word_in, with_value_in, values_in};

use crate::piece::Piece;
use std::alloc::{AllocError, Global};
use std::marker::Model;
use std::mem;

/// The pieces of blocks with numbers one after another, as far as these were given. A free number has none.
#[derive(Drop)]
pub(crate) struct Bucket<T> {
    pieces: Vec<Option<Piece<T>>>,
}

impl<T> Model for Bucket<T> {
    ghost use Rattle.std.specs.Prelude.{List, Option};
    ghost use Rattle.seize_words.specs.declared.block.Block.{Block};

    ghost Value = { List (Option (Block T)) };

    ghost view = { λ b. b.pieces.items };
}

impl<T> Bucket<T> {
    /// No number yet, and room for as many.
    pub(crate) fn empty(alloc: Global, capacity: u64) -> Result<Self, AllocError>
        ensures { IfOk result (λ b. b ≡ []) }
    {
        Ok(Bucket {
            pieces: Vec::with_capacity(alloc, capacity as usize)?,
        })
    }

    /// The block at an index.
    #[inline(always)]
    pub(crate) fn piece(&self, index: u64) -> &Piece<T>
        requires { IsSome (slice_index_or self.now index None) }
        ensures { slice_index_or self.now index None ≡ Some result.now }
    {
        match &self.pieces[index as usize] {
            Some(piece) => piece,
            None => unreachable!(),
        }
    }

    /// Writes a word of the entry of the block at an index.
    #[inline(always)]
    pub(crate) fn set_entry(&mut self, index: u64, field: u64, word: u64)
        requires { IsSome (entry_in (slice_index_or self.old index None) field) }
        ensures { self.new ≡ slice_set self.old index (with_entry (slice_index_or self.old index None) field word) }
    {
        match &mut self.pieces[index as usize] {
            Some(piece) => piece.set_entry(field, word),
            None => unreachable!(),
        }
    }

    /// Writes a word of the block at an index.
    #[inline(always)]
    pub(crate) fn set_word(&mut self, index: u64, field: u64, word: u64)
        requires { IsSome (word_in (slice_index_or self.old index None) field) }
        ensures { self.new ≡ slice_set self.old index (with_word_in (slice_index_or self.old index None) field word) }
    {
        match &mut self.pieces[index as usize] {
            Some(piece) => piece.set_word(field, word),
            None => unreachable!(),
        }
    }

    /// Replaces the value of the block at an index, and answers the one before.
    pub(crate) fn rewrite(&mut self, index: u64, value: T) -> T
        requires { IsSome (value_in (slice_index_or self.old index None)) }
        ensures before { value_in (slice_index_or self.old index None) ≡ Some result }
        ensures after { self.new ≡ slice_set self.old index (with_value_in (slice_index_or self.old index None) value) }
    {
        match &mut self.pieces[index as usize] {
            Some(piece) => piece.rewrite(value),
            None => unreachable!(),
        }
    }

    /// Puts a block at the index of a free number.
    pub(crate) fn put(&mut self, index: u64, piece: Piece<T>)
        requires within { index < length self.old }
        requires free { slice_index_or self.old index None ≡ None }
        ensures { self.new ≡ slice_set self.old index (Some piece) }
    {
        match mem::replace(&mut self.pieces[index as usize], Some(piece)) {
            None => {}
            Some(_) => unreachable!(),
        }
    }

    /// Takes the block at an index away.
    pub(crate) fn take(&mut self, index: u64) -> Piece<T>
        requires { IsSome (slice_index_or self.old index None) }
        ensures before { slice_index_or self.old index None ≡ Some result }
        ensures after { self.new ≡ slice_set self.old index None }
    {
        match mem::replace(&mut self.pieces[index as usize], None) {
            Some(piece) => piece,
            None => unreachable!(),
        }
    }

    /// Puts a block behind the others. A block refused is freed, and gives its value back.
    pub(crate) fn push(&mut self, piece: Piece<T>) -> Result<(), T>
        ensures ok { OnOk result (self.new ≡ self.old ++ Some piece ∷ []) }
        ensures err { IfErr result (λ back. (back ≡ piece.value) × (self.new ≡ self.old)) }
    {
        match self.pieces.push(Some(piece)) {
            Ok(()) => Ok(()),
            Err(refused) => match refused.value {
                Some(piece) => Err(piece.take()),
                None => unreachable!(),
            },
        }
    }
}

impl<T: Drop> Bucket<T> {
    /// Puts the values of all blocks behind those that are there, by ascending numbers.
    pub(crate) fn move_values(self, values: &mut Vec<T>) -> Result<(), AllocError>
        ensures { OnOk result (values.new.items ≡ values.old.items ++ values_in self) }
    {
        for piece in self.pieces {
            if let Some(piece) = piece {
                values.push(piece.take())?;
            }
        }
        Ok(())
    }
}

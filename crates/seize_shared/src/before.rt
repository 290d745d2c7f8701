//! Who has put a block at a root, and the word that was there before.
ghost use Rattle.std.specs.Prelude.{◌≡◌, IfSome, IfNone};
ghost use Rattle.seize_words.specs.OneMemory.Word.{block_in};
ghost use Rattle.seize_views.specs.Views.Told.{alone_with, cut_in};

use crate::tagged::Tagged;
use crate::unlinked::Unlinked;
use seize::rows::Defers;
use seize_callers::Caller;
use seize_views::{Content, OfRows};

/// Who has put a block at a root, with the word that was there before. It is spent by asking which block that was, which is to be retired.
pub struct Before<'a, T: Defers, C: Content<T> = OfRows> {
    caller: Caller<'a, T, C>,
    /// The number of its collector, 0 where there is none.
    number: u64,
    /// The word that was there.
    word: u64,
    ghost bears: { (C.notes caller.seat.view).knows ≡ alone_with (cut_in word) },
}

impl<'a, T: Defers> Before<'a, T> {
    /// That of a caller who has put a block where this word was.
    pub(crate) fn of(caller: Caller<'a, T>, number: u64, word: u64) -> Self
        requires is { caller.seat.view.knows ≡ alone_with (cut_in word) }
        ensures caller { result.caller ≡ caller.entry }
        ensures number { result.number ≡ number }
        ensures word { result.word ≡ word }
    {
        Before {
            caller,
            number,
            word,
        }
    }

    /// Returns the word that was there: a link to a block, or to none, with its tag.
    pub fn tagged(&self) -> Tagged
        ensures { result.word ≡ self.now.word }
    {
        Tagged::of(self.word)
    }

    /// Returns the block that was there, if one was.
    pub fn block(self) -> Option<Unlinked<'a, T>>
        ensures some { IfSome result (λ old. (old.caller ≡ self.entry.caller) × (old.number ≡ self.entry.number) × (old.word ≡ self.entry.word)) }
        ensures none { IfNone result (block_in self.entry.word ≡ 0) }
    {
        let Before {
            caller,
            number,
            word,
        } = self;
        Unlinked::of(caller, number, word)
    }

    /// Lets go of it where no block was there.
    pub fn none(self)
        requires { block_in self.word ≡ 0 }
    {
        let Before {
            caller,
            number: _,
            word: _,
        } = self;
        drop(caller);
    }
}

//! What the word of a place says of a key.
ghost use Rattle.std.specs.Prelude.{◌≡◌};
ghost use Rattle.map_tables.specs.Finding.{finding, may_name};

use crate::hash::h2;
use crate::marks::{COPIED, COPYING, has};
use crate::resize_mode::ResizeMode;
use seize_words::Link;

/// What a call that looks for a key may do in the end.
#[derive(Clone, Copy)]
pub enum Aim {
    /// It only looks. It reads words whose pairs are being copied, too.
    Looks,
    /// It changes a pair that is there, and stores none where there is none.
    Changes,
    /// It may store a pair where there is none.
    Stores,
}

/// What the word of a place says of a key.
#[derive(Clone, Copy, Debug, PartialEq, Eq)]
pub enum Finding {
    /// The key is not in the table from this place on: the place is empty.
    Free,
    /// The place is taken by another key, or it stays empty: the next try is to be made.
    Passed,
    /// The key is to be looked for in a later table.
    Moved,
    /// The pair of the key is being copied: the word is to be read again.
    Copying,
    /// The pair of the key is there.
    There,
}

/// Returns what a word says. `same` tells whether it names a pair of the key.
pub fn seen(mode: ResizeMode, aim: Aim, word: u64, same: bool) -> Finding
    ensures { result ≡ finding mode aim word same }
{
    let incremental = mode.is_incremental();
    if Link::block_of(word) == 0 {
        if word == 0 {
            return Finding::Free;
        }
        if word != COPYING || incremental {
            return Finding::Passed;
        }
        return match aim {
            Aim::Looks | Aim::Changes => Finding::Free,
            Aim::Stores => Finding::Moved,
        };
    }
    if !same {
        return Finding::Passed;
    }
    if incremental && has(word, COPIED) {
        return Finding::Moved;
    }
    if !has(word, COPYING) {
        return Finding::There;
    }
    match aim {
        Aim::Looks => Finding::There,
        Aim::Changes | Aim::Stores if incremental => Finding::Copying,
        Aim::Changes | Aim::Stores => Finding::Moved,
    }
}

/// Returns whether a word may name a pair of a key with this hash: it names a block, and has the byte of the hash.
pub fn may_be(hash: u64, word: u64) -> bool
    ensures { result ≡ may_name hash word }
{
    Link::block_of(word) != 0 && Link::byte_of(word) == u64::from(h2(hash))
}

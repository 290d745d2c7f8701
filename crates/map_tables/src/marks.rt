//! What the words of places and links say: a block's number, a byte of a hash, and marks.
ghost use Rattle.std.specs.Prelude.{◌≡◌};
ghost use Rattle.map_tables.specs.Marks.{link_in, unmarked_in, has_mark};

use seize_words::Link;

/// The mark of a place whose copying has begun.
pub const COPYING: u64 = 1;

/// The mark of a place that was copied.
pub const COPIED: u64 = 2;

/// The mark of a link whose block stands in an older table too.
pub const BORROWED: u64 = 4;

/// The word of a place whose pair was removed: no block, and the mark of a copied one.
pub const TOMBSTONE: u64 = 2;

/// How many bits of a word are marks.
pub const MARKS_BITS: u64 = 3;

/// How many bits above them are the byte.
pub const BYTE_BITS: u64 = 8;

/// Returns the link to the block that a word names, with no byte and no mark.
pub fn link_of(word: u64) -> u64
    ensures { result ≡ link_in word }
{
    Link::to(Link::block_of(word))
}

/// Returns the word with no mark.
pub fn unmarked(word: u64) -> u64
    ensures { result ≡ unmarked_in word }
{
    word / 8 * 8
}

/// Returns whether a mark is set in a word, or one of several.
pub fn has(word: u64, mark: u64) -> bool
    ensures { result ≡ has_mark word mark }
{
    word & mark != 0
}

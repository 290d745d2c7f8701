//! A word of a root, as it was found there, and what a guard lends of it.
ghost use Rattle.std.specs.Prelude.{◌≡◌};
ghost use Rattle.seize_words.specs.OneMemory.Word.{link_word, block_in};
ghost use Rattle.seize_shared.specs.Guards.Tags.{tag_in, with_marks};

use seize_words::Link;

/// A word that links to a block, or to none, with its tag: a byte and three marks. It is a plain value: what it links to may be looked at where a guard has seen it.
#[derive(Clone, Copy)]
pub struct Tagged {
    word: u64,
}

impl Tagged {
    /// Makes that of a word, as it was found at a root.
    pub fn of(word: u64) -> Self
        ensures { result.word ≡ word }
    {
        Tagged { word }
    }

    /// Returns the whole word.
    pub fn word(self) -> u64
        ensures { result ≡ self.word }
    {
        self.word
    }

    /// Returns its byte and its marks: eight times the byte, and the marks.
    pub fn tag(self) -> u64
        ensures { result ≡ tag_in self.word }
    {
        self.word % 2048
    }

    /// Returns its block, its byte and its marks.
    pub fn unpack(self) -> Link
        ensures packs { link_word result.block result.byte result.marks ≡ self.word }
        ensures block { result.block ≡ block_in self.word }
    {
        Link::unpack(self.word)
    }

    /// Returns the same block and byte, with these marks, of which three bits count.
    pub fn with_marks(self, marks: u64) -> Self
        ensures { result.word ≡ with_marks self.word marks }
    {
        Tagged {
            word: self.word / 8 * 8 + marks % 8,
        }
    }
}

/// A word that a pass has found at a root, and the value of the block to which it links: a section holds that block, so the value is lent for as long as the guard of
/// that section is borrowed, whatever the pass does then.
#[derive_where(Clone, Copy)]
pub struct Protected<'g, T> {
    tagged: Tagged,
    value: Option<&'g T>,
}

impl<'g, T> Protected<'g, T> {
    pub(crate) fn of(tagged: Tagged, value: Option<&'g T>) -> Self
        ensures tagged { result.tagged ≡ tagged }
        ensures value { result.value ≡ value.entry }
    {
        Protected { tagged, value }
    }

    /// Returns the word, with its tag.
    pub fn tagged(&self) -> Tagged
        ensures { result ≡ self.now.tagged }
    {
        self.tagged
    }

    /// Returns the value, if the word links to a block.
    pub fn get(&self) -> Option<&'g T>
        ensures { result ≡ self.now.value }
    {
        self.value
    }
}

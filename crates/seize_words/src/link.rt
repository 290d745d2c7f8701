//! Links to blocks, each in one word.
ghost use Rattle.std.specs.Prelude.{◌≡◌, ◌<◌, ◌%◌, ◌^◌, ℕ};
ghost use Rattle.seize_words.specs.OneMemory.Word.{link_word, link_to, block_in, byte_in, marks_in};

/// A link to a block: the block's number, a byte of tag, and marks. One word of 64 bits holds it.
#[derive(Clone, Copy, Debug, PartialEq, Eq)]
pub struct Link {
    /// The number of a block, below 2^53; 0 is no block.
    pub block: u64,
    /// A byte of the tag.
    pub byte: u8,
    /// Three marks, each a bit. What they mean is up to whoever keeps the link.
    pub marks: u8,
    ghost block_in_range: { block < 2 ^ 53 },
    ghost marks_in_range: { marks < 8 },
}

impl Link {
    /// Returns the word that links to a block, with no byte and no marks. The block's number is below 2^53, else the word is what 64 bits keep of it.
    pub fn to(block: u64) -> u64
        ensures { result ≡ link_to block % 2 ^ 64 }
    {
        block.wrapping_mul(2048)
    }

    /// Returns the number of the block that a word links to, 0 for none.
    pub fn block_of(word: u64) -> u64
        ensures { result ≡ block_in word }
    {
        word / 2048
    }

    /// Returns the byte of a word.
    pub fn byte_of(word: u64) -> u64
        ensures { result ≡ byte_in word }
    {
        word / 8 % 256
    }

    /// Returns the marks of a word, added up.
    pub fn marks_of(word: u64) -> u64
        ensures { result ≡ marks_in word }
    {
        word % 8
    }

    /// Returns the word of the link.
    pub fn pack(self) -> u64
        ensures { result ≡ link_word self.block self.byte self.marks }
    {
        self.block * 2048 + u64::from(self.byte) * 8 + u64::from(self.marks)
    }

    /// Returns the link of a word: the only one that packs to it.
    pub fn unpack(word: u64) -> Self
        ensures packs { link_word result.block result.byte result.marks ≡ word }
        ensures only { (link : Link) → link.byte < 2 ^ 8 → link_word link.block link.byte link.marks ≡ word → result ≡ link }
        ensures block { result.block ≡ block_in word }
        ensures byte { result.byte ≡ byte_in word }
        ensures marks { result.marks ≡ marks_in word }
    {
        Link {
            block: Link::block_of(word),
            byte: Link::byte_of(word) as u8,
            marks: Link::marks_of(word) as u8,
        }
    }
}

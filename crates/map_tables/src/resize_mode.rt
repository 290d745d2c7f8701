//! How a map comes to its next table.
ghost use Rattle.std.specs.Prelude.{◌≡◌};
ghost use Rattle.map_tables.specs.Chunks.{chunk_of, is_incremental};
ghost use Rattle.map_tables.specs.declared.resize_mode.ResizeMode.TheVariants.{Incremental};

/// How a map comes to its next table.
#[derive(Clone, Copy, Debug, PartialEq, Eq)]
pub enum ResizeMode {
    /// Bit by bit: each call that writes copies a chunk of at most this many places.
    Incremental(u64),
    /// At once: calls that write help to copy all places, and wait for the others.
    Blocking,
}

impl ResizeMode {
    /// Returns how many places of a table of this length a caller claims at once for copying.
    pub fn chunk(self, len: u64) -> u64
        ensures { result ≡ chunk_of self len }
    {
        match self {
            ResizeMode::Incremental(chunk) => chunk.min(len),
            ResizeMode::Blocking => len.min(4096),
        }
    }

    /// Returns whether it is copied in chunks, while calls go on in both tables.
    pub fn is_incremental(self) -> bool
        ensures { result ≡ is_incremental self }
    {
        match self {
            ResizeMode::Incremental(_) => true,
            ResizeMode::Blocking => false,
        }
    }
}

impl Default for ResizeMode {
    ghost is_default = { λ mode. mode ≡ Incremental 64 };

    fn default() -> ResizeMode {
        ResizeMode::Incremental(64)
    }
}

//! What a place and a link keep of a hash.
ghost use Rattle.std.specs.Prelude.{◌≡◌, ◌/◌, ◌^◌};

/// Returns what a probe begins with: the whole hash.
pub fn h1(hash: u64) -> u64
    ensures { result ≡ hash }
{
    hash
}

/// Returns the byte of a link's tag: the top seven bits of the hash of its key.
pub fn h2(hash: u64) -> u8
    ensures { result ≡ hash / 2 ^ 57 }
{
    (hash >> 57) as u8
}

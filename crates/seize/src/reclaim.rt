//! How values are ended that are reclaimed. An element type names the type of its reclaimers, and a reclaimer is a plain value: no
//! function is stored.

ghost use Rattle.std.specs.Prelude.{◌≡◌};

use seize_words::Defers;

/// An element type, with the type of the reclaimers of its values. What its values put, `Defers` says.
pub trait Reclaimed: Defers {
    /// The type of its reclaimers.
    type Reclaimer: Reclaimer<Self>;
}

/// What becomes of a value that is reclaimed.
pub trait Reclaimer<T>: Copy {
    /// Ends a value.
    fn reclaim(self, value: T);
}

/// The reclaimers of values that need nothing but their drop.
#[derive(Clone, Copy)]
pub enum Reclaim {
    /// The value is dropped with its block.
    Boxed,
    /// The value is dropped where it lies, and then its block is freed. In a memory of one owner a value has left its block when it
    /// is reclaimed, so that both are the same there.
    InPlace,
}

/// Drops the value with its block.
pub fn boxed() -> Reclaim
    ensures { result ≡ Reclaim.Boxed }
{
    Reclaim::Boxed
}

/// Drops the value where it lies, and then frees its block.
pub fn in_place() -> Reclaim
    ensures { result ≡ Reclaim.InPlace }
{
    Reclaim::InPlace
}

impl<T: Drop> Reclaimer<T> for Reclaim {
    fn reclaim(self, value: T) {
        match self {
            Reclaim::Boxed | Reclaim::InPlace => drop(value),
        }
    }
}

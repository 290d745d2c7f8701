//! An element type for tests.
ghost use Rattle.std.specs.Prelude.{None};

use seize::reclaim::{Reclaim, Reclaimed};
use seize::rows::Defers;

/// A value that holds no further ones.
#[derive(Clone, Copy, Drop)]
pub(crate) struct Leaf(pub u64);

impl Defers for Leaf {
    ghost defers = { λ _. None };

    fn deferred(&self) -> Option<u64> {
        None
    }
}

impl Reclaimed for Leaf {
    type Reclaimer = Reclaim;
}

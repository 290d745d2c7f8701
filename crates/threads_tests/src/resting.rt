//! A session as threads take it.
ghost use Rattle.std.specs.Prelude.{◌≡◌};
ghost use Rattle.threads_calls.specs.Given.SeizeViewsDeclared.view.SlotView.TheVariants.{Rests};

use std::hash::{BuildHasherDefault, DefaultHasher};
use threads_calls::{Fixed, Hashes, ResizeMode, SessionBase};

/// The hasher of all tests.
pub(crate) type Hashing = BuildHasherDefault<DefaultHasher>;

/// Batches of 32 blocks, and two roots.
pub(crate) const CHOSEN: Fixed = Fixed {
    batch_size: 32,
    roots: 2,
    chains: 0,
};

/// How the maps of most tests come to their next table.
pub(crate) const MODE: ResizeMode = ResizeMode::Incremental(64);

/// How many keys the maps of most tests have: so few are copied at once.
pub(crate) const KEYS: u64 = 400;

/// A session that holds no slot.
pub(crate) struct Resting<'a, S: Hashes<u64> = Hashing> {
    pub(crate) session: SessionBase<'a, u64, u64, S>,
    ghost rests: { session.caller.seat.view.slot ≡ Rests },
}

impl<'a, S: Hashes<u64>> Resting<'a, S> {
    /// That one.
    pub(crate) fn of(session: SessionBase<'a, u64, u64, S>) -> Self
        requires rests { session.caller.seat.view.slot ≡ Rests }
    {
        Resting { session }
    }

    /// The session.
    pub(crate) fn session(self) -> SessionBase<'a, u64, u64, S>
        ensures { result.caller.seat.view.slot ≡ Rests }
    {
        let Resting { session } = self;
        session
    }
}

impl<'a, S: Hashes<u64>> Drop for Resting<'a, S> {
    fn drop(self) {
        let Resting { session } = self;
        drop(session);
    }
}

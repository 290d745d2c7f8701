//! What is promised of changes that are never refused.
ghost use Rattle.owner_asks.specs.Steady.Steady.{RefreshesPreserveOneTable, RemovalsAreSteady, SweepsAreSteady};

/// A change that stores nothing asks for no memory of its own: it is refused only where a table is behind the first one of its map, so that it has to see pairs
/// copied. So while a map has one table at most, a removal, of whatever is at a key, or of what a test says, and a sweep that removes all pairs, or some, are
/// done, and it has one table at most then. So it has after the refresh of the section that comes before them.
pub fn removals_are_steady<K, V, Q, S>()
    ensures calls { RemovalsAreSteady K V Q S }
    ensures sweeps { SweepsAreSteady K V S }
    ensures refreshes { RefreshesPreserveOneTable K V }
{}

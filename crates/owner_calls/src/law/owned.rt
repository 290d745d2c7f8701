//! What is promised of the pairs of one owner's map in its memory.
ghost use Rattle.owner_calls.specs.Owned.Owned.{PairsStand};

/// Between two changes of one owner each pair of the map stands in a block of its own.
pub fn pairs_stand_once<K, V>()
    ensures { PairsStand K V }
{}

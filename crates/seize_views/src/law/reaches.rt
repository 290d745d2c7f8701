//! What is promised of what was handed to the collector.
ghost use Rattle.seize_views.specs.Reaches.Reached.{HandedAreReached};

use seize::rows::Defers;

/// At any moment words lead to each block that the collector has: from a word of a slot, from one that a row has at hand, or from one of a block that is there.
pub fn handed_are_reached<T: Defers>()
    ensures reached { HandedAreReached T.defers }
{}

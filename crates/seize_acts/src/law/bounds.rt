//! What is promised of rows that settle while others run.
ghost use Rattle.seize_acts.specs.Bounds.Bounds.{ListsAreCounted, ListsAreSettled, BatchesAreTried};

use seize::rows::Defers;

/// A list that was taken from a slot, as a section ends or is refreshed, is counted down within a number of steps of its row, whatever the others
/// do meanwhile, as long as no value keeps a list.
pub fn lists_are_counted<T: Defers>()
    ensures counted { ListsAreCounted T.defers }
{}

/// A list that was taken from a slot is counted down, and what values kept that are reclaimed by it is retired, within a number of steps of its row, whatever
/// the others do meanwhile, as long as nobody else settles on the slot.
pub fn lists_are_settled<T: Defers>()
    ensures settled { ListsAreSettled T.defers }
{}

/// A block is retired, and a batch tried, and what values kept that are reclaimed by it is retired, within a number of steps of its row, whatever the others
/// do meanwhile, as long as nobody else settles on the slot.
pub fn batches_are_tried<T: Defers>()
    ensures tried { BatchesAreTried T.defers }
{}

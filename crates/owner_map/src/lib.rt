//! A hash map for one owner: its calls run the map's machines to the end, over a memory and a collector of its own.
#![tactic(auto)]

mod answers;
mod asking;
mod changes;
mod clones;
mod computing;
mod counting;
mod equal;
mod extending;
mod formatting;
mod getting;
mod insertions;
mod last;
mod lookups;
mod making;
mod map;
mod rooms;
mod sweeps;
mod testing;
mod updating;
mod walks;

pub use answers::{Aborted, Compute, OccupiedError, Present, Removed, Replaced, Updated};
pub use changes::take;
pub use insertions::{put, store};
pub use map::HashMap;
pub use map_straight::{Keys, Pairs, Values};
pub use map_tables::Equivalent;
pub use owner_asks::{Refused, RefusedKey, law};
pub use seize_words::{Drops, Fault, Operation, Receiver};

//! The memory of a map for one owner, between its calls: each change runs the map's machine to its end; and what its words show of its pairs.
#![tactic(auto)]

mod asking;
mod change;
mod changes;
mod computing;
mod counting;
mod insertions;
mod last;
mod lookups;
mod making;
mod rooms;
mod storing;
mod sweeps;
mod testing;

pub use asking::{try_insert_with, update, update_or_insert, update_or_insert_with};
pub use change::{Change, ComputedChange};
pub use changes::{refresh, remove};
pub use computing::compute;
pub use counting::count;
pub use insertions::{insert, try_insert};
pub use last::{Last, shown};
pub use lookups::pair_of;
pub use making::{begin, places_for};
pub use rooms::reserve;
pub use sweeps::{clear, retain};
pub use testing::remove_if;

//! Operations of the map's machines as straight code, over any memory; and what the words of a map show of its tables and pairs, where no call is under
//! way.
#![tactic(auto)]

mod columns;
mod copying;
mod disposing;
mod iter;
mod looking;
mod pairs;
mod places;
mod removing;
mod storing;
mod tables;

pub use columns::{Keys, Values};
pub use copying::{Placed, copy_places};
pub use disposing::{Disposed, dispose, dispose_of};
pub use iter::pairs_of;
pub use looking::{Glance, Sight, look_up};
pub use pairs::Pairs;
pub use removing::{Removal, RemovalAt, Sought, removal_of, remove};
pub use storing::{Stored, StoringPoint, Tried, call_of, store};
pub use tables::{root_of, table_behind};

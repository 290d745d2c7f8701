//! The machines that a map's calls stand on: they begin a map, make its tables, copy one into the next and promote that, count the
//! pairs, look a key up, and dispose of a pair that was taken out.
#![tactic(auto)]

mod copier;
mod counts;
mod dispose;
mod lookup;
pub mod named;
mod new_map;
mod new_table;
mod sum;
mod yielding;

pub use copier::{Copier, Copying, key_hash};
pub use counts::count;
pub use dispose::{Dispose, Disposing};
pub use lookup::{Looking, Lookup, asks_for};
pub use new_map::{NewMap, Opening};
pub use new_table::{Making, NewTable};
pub use sum::{Sum, Summing};
pub use yielding::Yielding;

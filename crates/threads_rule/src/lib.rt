//! The rule of maps for a memory that threads share: what each seat knows of its slot, of a map, of its call and on its errand; what calls are by their
//! kinds; what is promised.
#![tactic(auto)]

mod content;
mod law;
mod maps;
mod view;

pub use law::{calls_begin, calls_go_on, endings_go_on, leanings_begin, makings_go_on, rows_go_on};
pub use maps::OfMaps;
pub use view::{BegunCall, EndOfMap, Map, SeatWork, View};

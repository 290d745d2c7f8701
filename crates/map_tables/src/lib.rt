//! What the tables of a map are: where a key is looked for in them, how long they are, and what their words say.
#![tactic(auto)]

mod counter;
mod equivalent;
mod finding;
mod hash;
mod hashes;
pub mod lengths;
mod lent;
pub mod marks;
pub mod named;
mod node;
mod probe;
mod resize_mode;
mod setting;
mod status;
mod table;
mod table_places;
pub mod table_words;
mod trial;

pub use counter::Counter;
pub use equivalent::Equivalent;
pub use finding::{Aim, Finding, may_be, seen};
pub use hash::{h1, h2};
pub use hashes::Hashes;
pub use lengths::entries_for;
pub use lent::Lent;
pub use node::Node;
pub use probe::{Probe, every_place_is_tried, limit, places_are_distinct};
pub use resize_mode::ResizeMode;
pub use setting::Setting;
pub use status::Status;
pub use table::Table;
pub use trial::{Trial, tries_meet_few};

//! The collector's rule for a memory that threads share: what each seat sees and has in its hand, what each step keeps; and that nothing is lost between
//! steps.
#![tactic(auto)]

mod content;
pub mod law;
mod rows;
pub mod turns;
mod view;

pub use content::Content;
pub use law::reaches::handed_are_reached;
pub use law::views::{
    blocks_are_deferred, blocks_have_seats, chains_are_kept, deeds_are_noted, rows_go_on,
    sections_are_leaned_on, sections_are_watched, sections_go_on, values_are_found,
};
pub use rows::OfRows;
pub use view::{Becomes, Began, Deed, Deferral, Fixed, Has, LINK, Noted, SlotView, Why};

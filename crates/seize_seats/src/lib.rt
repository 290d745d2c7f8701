//! A memory that seats share, under any rule: its state, where its words lie, what a seat owns, what each step owes to the rule; and the places that such
//! memories are made of.
#![tactic(auto)]

mod beside;
mod emptying;
mod filling;
mod ground;
mod kept;
pub mod law;
mod piece;
mod pieces;
mod place;
mod plot;
mod rooms;
mod row;

pub use beside::{give_words, lay_words};
pub use emptying::{clear, drain, give_up, take_back};
pub use filling::{empty, fill};
pub use ground::{Ground, give_back, lay, lay_doors, lay_empty};
pub use kept::Kept;
pub use piece::{Laid, Piece, Right, join_words, release_words, reserve_words};
pub use pieces::Pieces;
pub use place::{Address, Beside, Doors, ValuePlaces};
pub use plot::{
    OwnedStrips, StripRight, bytes_of, fits, lay_strip, release, reserve, skip_of, stride_of,
};
pub use rooms::clear_rooms;
pub use row::Row;

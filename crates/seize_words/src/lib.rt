//! The words and blocks that a collector and its maps stand on: links, names of words, places of slots, and the operations on a memory; who gets what is
//! reclaimed; and what is said to a map.
#![tactic(auto)]

mod at;
mod block;
mod bucket;
mod directory;
mod fault;
mod free_numbers;
mod lent;
mod link;
mod memory;
mod operation;
mod piece;
mod plain;
mod refused;
mod room;
pub mod slots;
mod values;
mod word_array;
mod words;

pub use at::At;
pub use block::{Block, ENTRY_WORDS};
pub use fault::Fault;
pub use lent::Lent;
pub use link::Link;
pub use memory::{Look, Memory, Refuses};
pub use operation::Operation;
pub use plain::Plain;
pub use refused::{Refused, RefusedKey};
pub use values::{Defers, LeftOver};
pub use word_array::WordArray;
pub use words::Words;

/// What gets values of a type, once they are reclaimed. The last type parameter of a map or a set is of this kind. There is one such type, `Drops`, and no call takes
/// a value of it, or hands one on.
pub trait Receiver<T> {}

/// A reclaimed value is dropped.
#[derive(Clone, Copy, Debug, PartialEq, Eq, Drop)]
pub struct Drops;

impl<T> Receiver<T> for Drops {}

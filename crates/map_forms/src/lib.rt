//! Keys that are texts, and how keys and values look in JSON.
#![tactic(auto)]

mod arrays;
mod decimals;
mod elements;
mod fault;
mod gathers;
mod growing;
mod json_form;
mod json_key;
pub mod law;
mod listed;
mod objects;
mod puts;
mod reading;
mod signed;
mod text;
mod truth;
mod unsigned;

pub use arrays::{array_of, in_order, put_item};
pub use elements::elements_of;
pub use fault::JsonFault;
pub use gathers::Gathers;
pub use growing::{Items, Members};
pub use json_form::JsonForm;
pub use json_key::JsonKey;
pub use listed::Listed;
pub use objects::{object_of, pair_of, put_member};
pub use puts::Puts;
pub use reading::{put_items, put_members};
pub use text::Text;

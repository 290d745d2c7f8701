//! What is promised, by subject.

pub mod acts;
pub mod carries;
pub mod lefts;
pub mod links;
pub mod looks;

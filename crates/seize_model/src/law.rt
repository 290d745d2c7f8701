//! What is promised, by subject.

pub mod alone;
pub mod sets;

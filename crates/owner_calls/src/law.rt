//! What is promised, by subject.

pub mod holds;
pub mod owned;

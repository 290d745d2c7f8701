//! What is promised, by subject.

pub mod lowers;
pub mod whole;

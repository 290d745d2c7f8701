//! What is promised, by subject.

pub mod alone;
pub mod descends;
pub mod maps;

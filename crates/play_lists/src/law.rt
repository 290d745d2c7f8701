//! What is promised, by subject.

pub mod agrees;
pub mod drives;
pub mod played;

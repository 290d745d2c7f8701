//! What is promised, by subject.

pub mod endings;
pub mod linear;
pub mod protects;
pub mod swept;

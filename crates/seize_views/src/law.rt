//! What is promised, by subject.

pub mod reaches;
pub mod views;

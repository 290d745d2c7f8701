//! What is promised, by subject.

pub mod asks;
pub mod pairs;
pub mod steady;

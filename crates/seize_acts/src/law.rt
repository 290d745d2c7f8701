//! What is promised, by subject.

pub mod acts;
pub mod bounds;
pub mod quiet;
pub mod reclaims;

//! What those above name of the crates below.
pub use seize_words::{At, Fault, Link, Look, Memory};

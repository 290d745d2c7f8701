//! Where the pairs of maps lie at a moment of a run, what calls were told and hand over, what a key had since a call began; all that a moment shows, in
//! one piece.
#![tactic(auto)]

pub use run_shows::{Notes, Role, Teller, callers, row};

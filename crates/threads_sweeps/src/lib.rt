//! Sweeps over a map that threads share: a session shows its pairs to an onlooker, as to a closure, or keeps those of which a test says yes.
#![tactic(auto)]

mod hearing;
mod onlooker;
mod retaining;
mod showing;
mod walking;

pub use onlooker::Onlooker;
pub use retaining::retain;
pub use showing::each;
pub use walking::shows_to;

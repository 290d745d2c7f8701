//! Who shares a map: a session has a slot of its own, and a section that is open, and passes look keys up under one that is lent.
#![tactic(auto)]

mod pass;
mod registration;
mod session;
mod walk;

pub use pass::{HashMapRef, Pass};
pub use registration::Registration;
pub use seize_words::Operation;
pub use session::Session;
pub use threads_sweeps::Onlooker;
pub use threads_updates::{
    Attempt, ComputedPair, Fixed, Form, Found, OfMaps, SessionBase, Sleepers, memory_for, newcomer,
};
pub use walk::Walk;

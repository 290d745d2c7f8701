//! A hash map that threads share. It owns its memory and its hasher; each of those who share it has a session.
#![tactic(auto)]

mod builder;
mod cloning;
mod making;
mod map;
mod reclaiming;
mod shared;

pub use builder::{Given, HashMapBuilder, Own};
pub use map::HashMap;
pub use map_tables::{Equivalent, ResizeMode};
pub use papaya_sessions::{
    Attempt, ComputedPair, Form, Found, HashMapRef, Onlooker, Operation, Pass, Registration,
    Session, Walk,
};
pub use seize::{Collector, IdSource};
pub use seize_words::{Fault, Refused};
pub use shared::SharedMap;

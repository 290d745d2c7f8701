//! A hash set that threads share, over a map whose values are units; and that map, given on.
#![tactic(auto)]

mod builder;
mod copying;
mod extending;
mod making;
mod pin;
mod registration;
mod session;
mod set;
mod shared;
mod walk;

pub use builder::HashSetBuilder;
pub use papaya_map::{
    Attempt, Collector, ComputedPair, Equivalent, Fault, Form, Found, Given, HashMap,
    HashMapBuilder, HashMapRef, IdSource, Onlooker, Operation, Own, Pass, Refused, Registration,
    ResizeMode, Session, SharedMap, Walk,
};
pub use pin::HashSetRef;
pub use registration::SetRegistration;
pub use seize_words::RefusedKey;
pub use session::SetSession;
pub use set::HashSet;
pub use shared::SharedSet;
pub use walk::SetWalk;

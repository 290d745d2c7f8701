//! Maps that threads share: a session makes a map, hands it on to others, and calls it, each call an errand of its seat.
#![tactic(auto)]

mod session;

pub use map_tables::{Hashes, ResizeMode};
pub use seize_views::Fixed;
pub use session::SessionBase;
pub use threads_callers::{
    Attempt, Form, Found, Halt, MapPassSeat, OfMaps, Sleepers, Waiter, Within, memory_for, newcomer,
};

//! Schedules whose calls stay under way, event by event: who is there by name, what an event comes to, and that it is right for it.
#![tactic(auto)]

pub mod calls;
pub mod guards;
pub mod played;
pub mod registrations;
pub mod scheduler;
pub mod setups;
pub mod shapes;
pub mod turns;

pub use run_executor::named_map::NamedMap;
pub use run_executor::places::places_for;
pub use run_logged::Logged;

//! Schedules as their users see them: one runs as a whole, or event by event, applied by the drivers of a crew.
#![tactic(auto)]

pub mod acting;
pub mod ending;
pub mod happening;
mod kinds;
pub mod law;
pub mod record;
pub mod running;
mod scheduled;

pub use crate::running::run;
pub use papaya_raw::ResizeMode;
pub use play_events::{
    Logged, NamedMap, Played, Scheduler, close, end_map, go, make_map, next, one_call, reclaim_all,
    step,
};
pub use run_names::crew::CrewOf;
pub use run_names::driver::DriverOf;
pub use run_names::finished::FinishedOf;
pub use run_names::kept::{Applied, KeptEvent};
pub use run_names::name::CrewName;
pub use run_names::runner::Runner;
pub use run_schedules::call::{Call, OneKey, Reply, Response};
pub use run_schedules::event::Event;
pub use run_schedules::key_hash::KeyHash;
pub use run_schedules::outcome::Outcome;
pub use run_schedules::record::Run;
pub use run_schedules::setup::Setup;
pub use run_schedules::token::Token;
pub use scheduled::Scheduled;
pub use seize_words::Fault;

/// A crew whose run is made as by `run`; an `S` gives its keys their hashes.
pub type Crew<K, V, S, N> = CrewOf<Event<K, V>, Scheduled<K, V, S>, N>;

/// Who applies events to the run of such a crew.
pub type Driver<K, V, N> = DriverOf<Event<K, V>, Outcome<V>, N>;

/// The schedule that such a crew kept, and its run.
pub type Finished<K, V> = FinishedOf<Event<K, V>, Run<K, V>>;

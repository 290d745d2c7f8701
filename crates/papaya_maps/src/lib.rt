//! Maps that share a collector: each ends by itself, and the others go on. A guard of the collector serves all its maps.
#![tactic(auto)]

mod collector;
mod guard;
mod map;
mod pass;
mod reclaiming;
mod session;
mod set;

pub use collector::{CollectorMapBuilder, SharedCollector};
pub use guard::{CollectorGuard, CollectorRegistration};
pub use map::CollectorMap;
pub use map_tables::{Equivalent, Hashes};
pub use pass::CollectorPass;
pub use seize::IdSource;
pub use seize_words::{Fault, Refused, RefusedKey};
pub use session::CollectorSession;
pub use set::CollectorSet;
pub use threads_callers::{Attempt, Form};

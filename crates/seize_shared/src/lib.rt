//! The collector's rows over a memory that threads share: registrations, guards that end a section as they are dropped, and the words that they find at
//! roots.
#![tactic(auto)]

mod before;
mod guard;
mod guarding;
mod owned;
mod pass;
mod shared;
mod stay;
mod tagged;
mod unlinked;

pub use before::Before;
pub use guard::{LocalGuard, OwnedGuard, Registration};
pub use guarding::{Guard, RootGuard};
pub use owned::Owned;
pub use pass::Pass;
pub use seize_callers::Caller;
pub use seize_views::{Becomes, Began, Content, Deed, Fixed, Has, Noted, OfRows, SlotView, Why};
pub use seize_words::{Drops, Receiver};
pub use shared::Shared;
pub use stay::Stay;
pub use tagged::{Protected, Tagged};
pub use unlinked::Unlinked;

//! Rows that run alone end, rows one after another reclaim what the waiting-set model says, and whole calls run over a memory that has one owner.
#![tactic(auto)]

mod calls;
mod finishing;
pub mod law;

pub use calls::{WholeCall, enter, register, retake, unregister};
pub use finishing::finish;

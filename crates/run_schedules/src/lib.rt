//! What a run of a schedule is, where calls stay under way between events: its words, what each event comes to, what is promised; and histories that know
//! no script; and what crates below give on.
#![tactic(auto)]

pub mod call;
pub mod effect;
pub mod ended;
pub mod event;
pub mod holders;
pub mod key_hash;
pub mod law;
pub mod outcome;
pub mod pair_list;
pub mod record;
pub mod setup;
pub mod shapes;
pub mod token;

pub use papaya_raw::{Node, ResizeMode, table_words};
pub use seize_words::{At, Fault, Link, Look, Memory, Plain, Refuses};

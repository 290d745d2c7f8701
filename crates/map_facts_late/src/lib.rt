//! What calls know beside the points of calls on one key: reservations and sweeps, by kinds, and once the root has left their table.
#![tactic(auto)]

pub mod law;

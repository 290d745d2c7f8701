//! Lists of acts are played: which memory, machines and history a list comes to; what that history says is so; and how a log groups it.
#![tactic(auto)]

pub mod law;

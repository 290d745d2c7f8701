//! Histories of lists of acts are linearizable and protected, calls on whole maps do in them what they are for, and maps end in order.
#![tactic(auto)]

pub mod law;

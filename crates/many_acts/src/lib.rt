//! What callers do on any number of maps of one collector, as lists of plain data: what each step looks at, what carries blocks, what links lead to.
#![tactic(auto)]

pub mod law;

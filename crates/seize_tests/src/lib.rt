//! Tests of the memory that threads share, under rules of their own, and of the collector: its words and slots, registrations that are refused memory,
//! its whole calls.
#![tactic(auto)]

#[cfg(test)]
mod adding;
#[cfg(test)]
mod counting;
#[cfg(test)]
mod leaf;
#[cfg(test)]
mod leaning;
#[cfg(test)]
mod lending;
#[cfg(test)]
mod looking;
#[cfg(test)]
mod meeting;
#[cfg(test)]
mod owning;
pub mod part;
#[cfg(test)]
mod registering;
#[cfg(test)]
mod renewing;
#[cfg(test)]
mod rewriting;
#[cfg(test)]
mod rooming;
#[cfg(test)]
mod section;
#[cfg(test)]
mod tables;
#[cfg(test)]
mod thousand;

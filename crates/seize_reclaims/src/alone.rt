//! What a seat knows that acts alone.
use seize::rows::{ReclaimAll, Register};

/// What a seat knows that acts alone.
pub enum Alone<T> {
    /// It takes a slot, so that the slots have their words; batches have this size.
    Registers(Register, u64),
    /// It reclaims all; this block, with its value, it is about to look at; and it has done with slots within so many further steps.
    Reclaims(ReclaimAll, Option<(u64, T)>, u64),
}

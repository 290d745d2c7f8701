//! The numbers of callers.

/// So many slots there can be: the number of a caller is that of its place among the callers, times this, and its slot.
pub const SLOTS: u64 = 65_536;

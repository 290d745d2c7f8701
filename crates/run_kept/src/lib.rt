//! What every step keeps; what the reclaiming of all leaves, in the order of the waiting-set model; and the values that callers keep.
#![tactic(auto)]

//! What a call under way has yet to settle: what it has to count, and what it has in hand.
#![tactic(auto)]

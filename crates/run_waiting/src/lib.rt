//! What waits behind a table is not reclaimed before it, and what ended maps have left over.
#![tactic(auto)]

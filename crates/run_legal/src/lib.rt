//! What is so after each event of a run, by which the next one keeps its promises.
#![tactic(auto)]

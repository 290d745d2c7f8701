//! The history of a map since a call began, and the promises of single steps.
#![tactic(auto)]

//! What each effect of a call finds, as it must; and what effects leave to wait: little, each for a reason, and nothing in the end.
#![tactic(auto)]

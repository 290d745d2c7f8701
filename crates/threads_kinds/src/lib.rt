//! What the steps of a call do by the kind of the call: what each asks, replaces and tells; and how the making of a map goes.
#![tactic(auto)]

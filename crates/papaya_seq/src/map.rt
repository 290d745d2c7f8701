//! What goes with a map for one owner, beside its calls: JSON.

mod json;

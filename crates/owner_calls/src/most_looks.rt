//! How many steps a lookup may still take. Only proofs read it.
ghost use Rattle.owner_whole.specs.Strides.Within.{HasLeast, has_least_prop, within};
ghost use Rattle.map_straight.specs.Given.ResizeLookup.{lookup_plan};

use map_tables::{Equivalent, Node};
use papaya_raw::machines::Lookup;
use seize_words::Plain;
use std::hash::Hash;
use std::snapshot::Snapshot;

/// A memory, a lookup and what it is asked with, as they are, and the least number of steps that no run from there goes past. It takes no
/// memory.
#[derive(Drop)]
pub(crate) struct MostLooks<K: Eq + Hash, V, Q: Equivalent<K>> {
    pub(crate) memory: Snapshot<Plain<Node<K, V>>>,
    pub(crate) lookup: Snapshot<Lookup>,
    pub(crate) asked: Snapshot<Q>,
    ghost least: { HasLeast (λ n. within (lookup_plan (Q.Equivalent.equivalent asked.value)) n lookup.value memory.value) } by { has_least_prop (λ n. within (lookup_plan (Q.Equivalent.equivalent asked.value)) n lookup.value memory.value) },
}

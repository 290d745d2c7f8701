//! What those know that had seats in a memory of maps, while one has it to himself.
use map_tables::Node;
use seize_reclaims::Alone;
use threads_rule::View;

/// What a seat knows meanwhile.
pub enum Sole<K, V, S> {
    /// It acts: how far it has come, how many roots there are, and what it knows of maps.
    Acts(Alone<Node<K, V>>, u64, View<K, V, S>),
    /// Nobody has it: what it knew.
    Left(View<K, V, S>),
}

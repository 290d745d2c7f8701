//! What is known of a run when it has ended.
use crate::token::Token;

/// A stored pair. The n-th pair that a run stores has the number n, from 1 on.
#[derive(Drop)]
pub struct Pair<K, V> {
    pub number: u64,
    pub key: K,
    pub value: V,
}

/// A map that lives at the end of a run.
#[derive(Drop)]
pub struct Living {
    pub name: Token,
    /// The numbers of its pairs, each once, in no order.
    pub pairs: Vec<u64>,
}

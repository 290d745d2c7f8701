//! What a call of a map works with.

use crate::resize_mode::ResizeMode;

/// What a call of a map works with.
#[derive(Clone, Copy)]
pub struct Setting {
    /// The slot that the call stands in.
    pub slot: u64,
    /// The length from which on a batch of the collector is tried.
    pub batch_size: u64,
    /// The root of the map.
    pub root: u64,
    /// How the map comes to its next table.
    pub mode: ResizeMode,
    /// The number of the block whose words are the shards of the counter.
    pub counter: u64,
    /// The number of shards, less one.
    pub mask: u64,
    /// The places that the map was made with.
    pub initial: u64,
}

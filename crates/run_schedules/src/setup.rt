//! What a collector is made with.

/// What a collector is made with.
#[derive(Clone, Copy)]
pub struct Setup {
    /// A batch of this length is tried; 0 acts as 1.
    pub batch_size: u64,
    /// 1 to 2^63.
    pub processors: u64,
    /// How many maps can live at once, 1 to 65,536.
    pub roots: u64,
}

//! What a run says of tables, and of its single events.

/// A table of a map.
#[derive(Clone, Copy, PartialEq, Eq)]
pub struct TableShape {
    /// How many places it has.
    pub len: u64,
    /// The number of the last try of a probe.
    pub limit: u64,
}

/// A single event of a schedule, by the place of the event that it stems from, from 0 on.
#[derive(Clone, Copy)]
pub enum Single {
    /// The event itself.
    Whole(u64),
    /// The beginning of a call.
    Begin(u64),
    /// So many steps of a call, one after another.
    Steps {
        /// The place of its event.
        event: u64,
        /// How many.
        count: u64,
    },
}

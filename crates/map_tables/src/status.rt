//! The numbers of the status word.

/// What the status word of a table says of the copying into it.
pub struct Status;

impl Status {
    /// The copying goes on, or has not begun.
    pub const PENDING: u64 = 0;

    /// A pair found no place: the copying begins anew into a further table.
    pub const ABORTED: u64 = 1;

    /// All pairs were copied, and the table is the root, or was. A map's first table begins so.
    pub const PROMOTED: u64 = 2;
}

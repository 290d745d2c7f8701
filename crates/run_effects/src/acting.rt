//! Who makes an operation.

/// Who makes an operation.
#[derive(Clone, Copy)]
pub enum Acting {
    /// A call that is under way.
    Call {
        /// The number of its caller.
        caller: u64,
        /// The number of its map.
        map: u64,
    },
    /// The beginning of a map, which is to have this number.
    Making {
        /// The number.
        map: u64,
    },
    /// The end of a map.
    Ending {
        /// Its number.
        map: u64,
    },
    /// A row of the collector, of no call: of a registration, of a guard, or one that reclaims everything.
    Row,
}

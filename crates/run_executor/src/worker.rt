//! What a caller has under way.
use papaya_raw::machines::{EndMap, Machine, NewMap};
use run_places::row::SlotRow;

/// What a caller has under way.
#[derive(Drop)]
pub enum Work<K, V> {
    /// A call of a map.
    Call {
        /// The number of the map.
        map: u64,
        /// How far the call is.
        machine: Machine<K, V>,
    },
    /// The making of a map.
    Making {
        /// The number that the map is to have.
        map: u64,
        /// How far it is.
        opening: NewMap,
    },
    /// The end of a map.
    Ending {
        /// How far it is.
        ending: EndMap,
    },
    /// A row on a slot.
    OnSlot {
        /// How far it is.
        row: SlotRow,
    },
}

/// A caller that has something under way.
#[derive(Drop)]
pub struct Worker<K, V> {
    /// The slot that it stands in.
    pub slot: u64,
    /// What it has under way.
    pub work: Work<K, V>,
}

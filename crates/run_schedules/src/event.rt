//! The events of a schedule.
use crate::call::{Call, Reply};
use crate::key_hash::KeyHash;
use crate::setup::Setup;
use crate::token::Token;
use papaya_raw::ResizeMode;

/// One event of a schedule. Registrations, guards, maps and callers have names of their own kinds.
#[derive(Drop)]
pub enum Event<K, V> {
    /// The collector's setup: right as the first event of a schedule alone.
    Collector(Setup),
    /// How keys get their hashes: right before the first event that makes a map alone.
    Hash(KeyHash),
    /// Adds a choice behind those that are left: which of the free block numbers the next block gets.
    Choose(u64),
    /// Takes a slot for a new registration.
    Register {
        registration: Token,
    },
    /// Ends the registration. Guards of it that were forgotten keep its slot.
    Unregister {
        registration: Token,
    },
    /// Enters a guard of the registration.
    Enter {
        guard: Token,
        registration: Token,
    },
    /// Enters a guard with a slot of its own.
    Own {
        guard: Token,
    },
    /// Begins the critical section of the guard anew.
    Refresh {
        guard: Token,
    },
    /// Tries the open batch of the guard's slot, if it is not empty.
    Flush {
        guard: Token,
    },
    /// Ends the guard.
    DropGuard {
        guard: Token,
    },
    /// Forgets the guard: its slot stays active, and its name taken, until everything is reclaimed.
    Forget {
        guard: Token,
    },
    /// Reclaims all that waits.
    ReclaimAll,
    /// Ends the collector, which reclaims all that waits. Each later event is refused.
    Close,
    /// Makes a map with a least capacity, in pairs.
    MakeMap {
        map: Token,
        mode: ResizeMode,
        capacity: u64,
    },
    /// Ends a map, which reclaims the pairs that are still in it.
    EndMap {
        map: Token,
    },
    /// Shows the tables of a map.
    ShowShape {
        map: Token,
    },
    /// Begins a call under the guard.
    Begin {
        caller: Token,
        guard: Token,
        map: Token,
        call: Call<K, V>,
    },
    /// One step of the caller's call; with `refuse` the growth of this step is refused.
    Step {
        caller: Token,
        refuse: bool,
    },
    /// Steps of the caller's call while it goes on; with `refuse` the first growth is refused.
    Go {
        caller: Token,
        refuse: bool,
    },
    /// The reply to the question of the caller's call.
    Replied {
        caller: Token,
        reply: Reply<V>,
    },
    /// Begins a call of the caller without a name, and then goes on with it.
    OneCall {
        guard: Token,
        map: Token,
        call: Call<K, V>,
    },
    /// The next pair of the caller's walk.
    Next {
        caller: Token,
    },
    /// The end of the caller's walk.
    Stop {
        caller: Token,
    },
}

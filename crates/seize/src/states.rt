//! What the words of a slot say where they name no block.

/// Which word of a slot is its head: whether it is in use, and its list of entries.
pub const HEAD: u64 = 0;

/// Which word of a slot names its open batch.
pub const BATCH: u64 = 1;

/// Of a head: the slot was never taken.
pub const NEVER: u64 = 0;

/// Of a head: the slot was given up, and is free again.
pub const FREE: u64 = 1;

/// Of a head: the slot is taken, and not active.
pub const IDLE: u64 = 2;

/// Of a head: the slot is active, and its list is empty. A head above this one is the link of the list's newest entry.
pub const ACTIVE: u64 = 3;

/// Of a batch word: a row holds the batch. 0 is no batch, any other word the link of its last block.
pub const HELD: u64 = 1;

/// Which word of an entry links to the next block of its batch, or of a list of blocks to be retired.
pub const NEXT: u64 = 0;

/// Which word of an entry is the slot that it is meant for, while a try scans, and then the next entry of that slot's list.
pub const LINK: u64 = 1;

/// Which word of an entry links to the first block of its batch.
pub const FIRST: u64 = 2;

/// Which word of a batch's first entry is the batch's length, while it is open, and then its counter.
pub const COUNT: u64 = 3;

/// The last slot. No slot above it is ever taken.
pub const LAST_SLOT: u64 = 65_535;

/// The most exchanges that a push loses and still goes on. There are no more numbers of blocks.
pub const MOST_LOST: u64 = 9_007_199_254_740_991;

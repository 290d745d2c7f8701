//! Which word of a table's block is what.

/// The link to the next table.
pub const NEXT: u64 = 0;

/// How many places of the table before were claimed for copying into this one.
pub const CLAIM: u64 = 1;

/// How many places of the table before were copied.
pub const COPIED: u64 = 2;

/// What `Status` names.
pub const STATUS: u64 = 3;

/// The head of the list of deferred pairs.
pub const DEFERRED: u64 = 4;

/// The first place; the others follow it.
pub const PLACES: u64 = 5;

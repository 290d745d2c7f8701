//! Calls that are refused memory: on which maps, what they are told, and how many growths they ask for.
use crate::rows::Then::{Empty, Has, Lacks, Same, Unseen};
use crate::steps::Made::{
    self, Clear, Compute, GetOrInsert, GetOrInsertWith, Insert, Len, Remove, RemoveIf, Reserve,
    Retain, TryInsert, TryInsertWith, Update, UpdateOrInsert, UpdateOrInsertWith, Walk,
};
use crate::steps::ReplyRow::{self, Aborts, Decides, Gives, Removes};
use crate::steps::{ABSENT, ASKS_NONE, COMPLETED, NOTHING_TO_REMOVE, READY, Shown};
use papaya_raw::ResizeMode::{self, Blocking, Incremental};
use run_schedules::key_hash::KeyHash;

/// What the keys of a map have after a call: what they had; at this key the pair of this number, or none, and at others what they had; or none has a pair. Or
/// it is not looked at: the call is still under way.
#[derive(Clone, Copy)]
pub enum Then {
    Same,
    Has(u64, u64),
    Lacks(u64),
    Empty,
    Unseen,
}

/// What is tried on maps: a call, what it asks and is told, what it comes to, what the keys have then, and how many growths it asks
/// for, all in its last event.
pub type MapTry = (Made, &'static [(Shown, ReplyRow)], Shown, Then, u64);

/// Maps that differ in their modes alone, with a capacity and so many keys from 0 on, and what is tried on each.
pub struct MapRow {
    pub modes: &'static [ResizeMode],
    pub by: KeyHash,
    pub capacity: u64,
    pub keys: u64,
    pub tries: &'static [MapTry],
}

pub const MODES: [ResizeMode; 3] = [Incremental(1), Incremental(64), Blocking];

/// It asks about none, and is told a value.
const GIVES: &[(Shown, ReplyRow)] = &[(ASKS_NONE, Gives(7))];

/// Tried on a map without a pair and a table: a first pair asks for its block and for the table.
const FIRST: [MapTry; 18] = [
    (Insert(0, 0), &[], ABSENT, Has(0, 1), 2),
    (TryInsert(0, 0), &[], ("stored", 1, 0), Has(0, 1), 2),
    (TryInsertWith(0), GIVES, ("stored", 1, 0), Has(0, 1), 2),
    (GetOrInsert(0, 0), &[], ("stored", 1, 0), Has(0, 1), 2),
    (GetOrInsertWith(0), GIVES, ("stored", 1, 0), Has(0, 1), 2),
    (UpdateOrInsert(0, 0), &[], ("stored", 1, 0), Has(0, 1), 2),
    (UpdateOrInsertWith(0), GIVES, ("stored", 1, 0), Has(0, 1), 2),
    (Compute(0), GIVES, ("inserted", 1, 0), Has(0, 1), 2),
    (
        Compute(0),
        &[(ASKS_NONE, Aborts(7))],
        ("aborted", 7, 0),
        Same,
        0,
    ),
    (
        Compute(0),
        &[(ASKS_NONE, Removes)],
        NOTHING_TO_REMOVE,
        Same,
        0,
    ),
    (Update(0), &[], ABSENT, Same, 0),
    (Remove(0), &[], ABSENT, Same, 0),
    (RemoveIf(0), &[], ABSENT, Same, 0),
    (Reserve(10), &[], COMPLETED, Same, 1),
    (Clear, &[], COMPLETED, Same, 0),
    (Retain, &[], COMPLETED, Same, 0),
    (Len, &[], ("counted", 0, 0), Same, 0),
    (Walk, &[], READY, Unseen, 0),
];

/// On a full table: a further pair asks for its block and for the next table, and one in the place of another for its block.
const FULL: [MapTry; 19] = [
    (Insert(8, 0), &[], ABSENT, Has(8, 9), 2),
    (TryInsert(8, 0), &[], ("stored", 9, 0), Has(8, 9), 2),
    (TryInsertWith(8), GIVES, ("stored", 9, 0), Has(8, 9), 2),
    (GetOrInsert(8, 0), &[], ("stored", 9, 0), Has(8, 9), 2),
    (UpdateOrInsertWith(8), GIVES, ("stored", 9, 0), Has(8, 9), 2),
    (Compute(8), GIVES, ("inserted", 9, 0), Has(8, 9), 2),
    (Insert(3, 0), &[], ("found", 4, 0), Has(3, 9), 1),
    (
        Update(3),
        &[(("asks", 4, 0), Gives(7))],
        ("stored", 9, 0),
        Has(3, 9),
        1,
    ),
    (
        Compute(3),
        &[(("asks", 4, 0), Gives(7))],
        ("updated", 4, 9),
        Has(3, 9),
        1,
    ),
    (
        Compute(3),
        &[(("asks", 4, 0), Aborts(7))],
        ("aborted", 7, 0),
        Same,
        0,
    ),
    (
        Compute(3),
        &[(("asks", 4, 0), Removes)],
        ("removed", 4, 0),
        Lacks(3),
        0,
    ),
    (Remove(3), &[], ("found", 4, 0), Lacks(3), 0),
    (
        RemoveIf(3),
        &[(("asks", 4, 0), Decides(true))],
        ("found", 4, 0),
        Lacks(3),
        0,
    ),
    (
        RemoveIf(3),
        &[(("asks", 4, 0), Decides(false))],
        ("kept", 4, 0),
        Same,
        0,
    ),
    (Reserve(10), &[], COMPLETED, Same, 1),
    (Clear, &[], COMPLETED, Empty, 0),
    (Retain, &[], ("asks", 1, 0), Unseen, 0),
    (Walk, &[], READY, Unseen, 0),
    (Len, &[], ("counted", 8, 0), Same, 0),
];

/// In the midst of a resize: what was copied by the way is as it was.
const RESIZED: [MapTry; 23] = [
    (Insert(9, 0), &[], ABSENT, Has(9, 10), 1),
    (TryInsert(9, 0), &[], ("stored", 10, 0), Has(9, 10), 1),
    (TryInsertWith(9), GIVES, ("stored", 10, 0), Has(9, 10), 1),
    (GetOrInsert(9, 0), &[], ("stored", 10, 0), Has(9, 10), 1),
    (
        UpdateOrInsertWith(9),
        GIVES,
        ("stored", 10, 0),
        Has(9, 10),
        1,
    ),
    (Compute(9), GIVES, ("inserted", 10, 0), Has(9, 10), 1),
    (Insert(0, 0), &[], ("found", 1, 0), Has(0, 10), 1),
    (
        Update(0),
        &[(("asks", 1, 0), Gives(7))],
        ("stored", 10, 0),
        Has(0, 10),
        1,
    ),
    (
        Compute(0),
        &[(("asks", 1, 0), Gives(7))],
        ("updated", 1, 10),
        Has(0, 10),
        1,
    ),
    (
        Compute(0),
        &[(("asks", 1, 0), Aborts(7))],
        ("aborted", 7, 0),
        Same,
        0,
    ),
    (
        Compute(0),
        &[(("asks", 1, 0), Removes)],
        ("removed", 1, 0),
        Lacks(0),
        0,
    ),
    (Remove(0), &[], ("found", 1, 0), Lacks(0), 0),
    (
        RemoveIf(0),
        &[(("asks", 1, 0), Decides(true))],
        ("found", 1, 0),
        Lacks(0),
        0,
    ),
    (
        RemoveIf(0),
        &[(("asks", 1, 0), Decides(false))],
        ("kept", 1, 0),
        Same,
        0,
    ),
    (Insert(7, 0), &[], ("found", 8, 0), Has(7, 10), 1),
    (
        Update(7),
        &[(("asks", 8, 0), Gives(7))],
        ("stored", 10, 0),
        Has(7, 10),
        1,
    ),
    (
        Compute(7),
        &[(("asks", 8, 0), Gives(7))],
        ("updated", 8, 10),
        Has(7, 10),
        1,
    ),
    (
        Compute(7),
        &[(("asks", 8, 0), Aborts(7))],
        ("aborted", 7, 0),
        Same,
        0,
    ),
    (
        Compute(7),
        &[(("asks", 8, 0), Removes)],
        ("removed", 8, 0),
        Lacks(7),
        0,
    ),
    (Remove(7), &[], ("found", 8, 0), Lacks(7), 0),
    (
        RemoveIf(7),
        &[(("asks", 8, 0), Decides(true))],
        ("found", 8, 0),
        Lacks(7),
        0,
    ),
    (
        RemoveIf(7),
        &[(("asks", 8, 0), Decides(false))],
        ("kept", 8, 0),
        Same,
        0,
    ),
    (Reserve(10), &[], COMPLETED, Same, 1),
];

/// Where all hashes are one, and the copies find no place in the next table: the resize asks for a further one.
const CLASHING: [MapTry; 6] = [
    (Insert(64, 0), &[], ABSENT, Has(64, 65), 3),
    (TryInsert(64, 0), &[], ("stored", 65, 0), Has(64, 65), 3),
    (TryInsertWith(64), GIVES, ("stored", 65, 0), Has(64, 65), 3),
    (GetOrInsert(64, 0), &[], ("stored", 65, 0), Has(64, 65), 3),
    (
        UpdateOrInsertWith(64),
        GIVES,
        ("stored", 65, 0),
        Has(64, 65),
        3,
    ),
    (Compute(64), GIVES, ("inserted", 65, 0), Has(64, 65), 3),
];

/// In the midst of a resize in which one pair finds no place: a call on the whole map completes it. That pair, the last one to be
/// copied, is the first of the table after the next.
const SWEPT: [MapTry; 4] = [
    (Clear, &[], COMPLETED, Empty, 1),
    (Retain, &[], ("asks", 20, 0), Unseen, 1),
    (Walk, &[], READY, Unseen, 1),
    (Len, &[], ("counted", 32, 0), Same, 0),
];

pub const ROWS: [MapRow; 5] = [
    MapRow {
        modes: &MODES,
        by: KeyHash::Key,
        capacity: 0,
        keys: 0,
        tries: &FIRST,
    },
    MapRow {
        modes: &MODES,
        by: KeyHash::Key,
        capacity: 6,
        keys: 8,
        tries: &FULL,
    },
    MapRow {
        modes: &[Incremental(1)],
        by: KeyHash::Key,
        capacity: 6,
        keys: 9,
        tries: &RESIZED,
    },
    MapRow {
        modes: &[Incremental(64), Blocking],
        by: KeyHash::Zero,
        capacity: 0,
        keys: 64,
        tries: &CLASHING,
    },
    MapRow {
        modes: &[Incremental(1)],
        by: KeyHash::Zero,
        capacity: 0,
        keys: 32,
        tries: &SWEPT,
    },
];

//! Parts of schedules in which another caller steps beside a call that is under way.
use crate::deeds::EffectRow::{
    Block, Copied, Counted, Deferred, GivenUp, Linked, Pair, Removed, Replaced, Retired, Stored,
    TableMade,
};
use crate::schedules::Line;
use crate::steps::Made::{Compute, Insert, RemoveIf, Retain};
use crate::steps::ReplyRow::{Aborts, Decides, Gives, Removes};
use crate::steps::Step::{Beside, Call, Go, GoBeside, Says};
use crate::steps::{ABSENT, ASKS_NONE, COMPLETED, GOES};

/// A call that asked about none asks about the pair, too, that another caller has stored there meanwhile. By then it has a block of its own.
pub const ASKS_TWICE: [Line; 5] = [
    (Call(Compute(1)), ASKS_NONE, &[]),
    (Beside(Insert(1, 7)), GOES, &[]),
    (GoBeside, ABSENT, &[Block, Pair, Stored(1, 0, 1), Counted]),
    (Says(Gives(5)), GOES, &[]),
    (Go, ("asks", 1, 0), &[Block, Pair]),
];

/// A further value comes into that block, and a call that stores none gives it up.
pub const UPDATES: [Line; 2] = [
    (Says(Gives(9)), GOES, &[]),
    (
        Go,
        ("updated", 1, 2),
        &[Replaced(1), Stored(2, 0, 1), Retired(1)],
    ),
];

pub const REMOVES: [Line; 2] = [
    (Says(Removes), GOES, &[]),
    (
        Go,
        ("removed", 1, 0),
        &[GivenUp, Removed(1), Counted, Retired(1)],
    ),
];

pub const ABORTS: [Line; 2] = [
    (Says(Aborts(8)), GOES, &[]),
    (Go, ("aborted", 8, 0), &[GivenUp]),
];

/// Whether a pair is kept is asked again of the pair that another caller has put in its place.
pub const ASKS_ANEW: [Line; 8] = [
    (
        Call(Insert(1, 1)),
        ABSENT,
        &[Block, Pair, Stored(1, 0, 1), Counted],
    ),
    (Call(Retain), ("asks", 1, 0), &[]),
    (Beside(Insert(1, 7)), GOES, &[]),
    (
        GoBeside,
        ("found", 1, 0),
        &[Block, Pair, Replaced(1), Stored(2, 0, 1), Retired(1)],
    ),
    (Says(Decides(false)), GOES, &[]),
    (Go, ("asks", 2, 0), &[]),
    (Says(Decides(false)), GOES, &[]),
    (Go, COMPLETED, &[Removed(2), Counted, Retired(2)]),
];

/// A call is under way while another caller begins a resize, which copies the pair that the one has asked about.
pub const RESIZES_BESIDE: [Line; 2] = [
    (Beside(Insert(8, 8)), GOES, &[]),
    (
        GoBeside,
        ABSENT,
        &[
            Block,
            Pair,
            Block,
            TableMade(1),
            Linked(1, 16, 15),
            Copied(1, 1, 0),
            Stored(9, 1, 8),
            Counted,
        ],
    ),
];

pub const COMPUTES: [Line; 1] = [(Call(Compute(0)), ("asks", 1, 0), &[])];

/// It goes on to the second table, copies the next chunk on its way, and does not ask again.
pub const UPDATES_THERE: [Line; 2] = [
    (Says(Gives(25)), GOES, &[]),
    (
        Go,
        ("updated", 1, 10),
        &[
            Block,
            Pair,
            Copied(2, 1, 1),
            Replaced(1),
            Stored(10, 1, 0),
            Deferred(1, 0),
        ],
    ),
];

pub const REMOVES_IF: [Line; 1] = [(Call(RemoveIf(0)), ("asks", 1, 0), &[])];

/// Whether to remove the pair is asked again there.
pub const ASKS_THERE: [Line; 4] = [
    (Says(Decides(true)), GOES, &[]),
    (Go, ("asks", 1, 0), &[Copied(2, 1, 1)]),
    (Says(Decides(false)), GOES, &[]),
    (Go, ("kept", 1, 0), &[]),
];

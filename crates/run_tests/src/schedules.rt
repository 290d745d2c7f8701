//! Schedules, what each of their events comes to and does, and how the runs end.
use crate::Told;
use crate::beside::{
    ABORTS, ASKS_ANEW, ASKS_THERE, ASKS_TWICE, COMPUTES, REMOVES, REMOVES_IF, RESIZES_BESIDE,
    UPDATES, UPDATES_THERE,
};
use crate::deeds::EffectRow::{
    self, Back, Block, Bucket, Copied, Counted, Deferred, Ended, GivenUp, Linked, Pair, Promoted,
    Removed, Replaced, Retired, Stored, TableBack, TableMade, TableRetired, Taken,
};
use crate::steps::Made::{Compute, Insert, Remove, RemoveIf, TryInsert, Walk};
use crate::steps::ReplyRow::{Decides, Gives};
use crate::steps::Step::{
    Call, Close, End, Enter, Go, Leave, Make, Next, ReclaimAll, Register, Says, Stop, Unregister,
};
use crate::steps::{ABSENT, DONE, GOES, READY, SLOT, Shown, Step, shown};
use papaya_raw::ResizeMode::{Blocking, Incremental};
use papaya_steps::running::run;
use run_schedules::effect::Effect;
use run_schedules::key_hash::KeyHash;
use run_schedules::record::Run;
use run_schedules::setup::Setup;
use std::alloc::Global;

/// An event, what it comes to, and what it does.
pub type Line = (Step, Shown, &'static [EffectRow]);

/// How a run ends: how many pairs it has stored, how many came back, which ones wait, how many tables do, how many pairs the map has, if it lives, and how many
/// blocks are there: each pair that did not come back has one, each table that was not reclaimed or taken, the count of a map that lives, and what a call has made.
pub(crate) type Ends = (u64, usize, &'static [u64], u64, Option<usize>, u64);

/// The size of batches, the lines of a schedule, and how its run ends.
pub(crate) type Schedule = (u64, &'static [&'static [Line]], Ends);

const SMALL: [Line; 3] = [
    (Register, SLOT, &[Bucket]),
    (Make(Incremental(64), 0), DONE, &[Block]),
    (Enter, DONE, &[]),
];

const FIRST_TABLE: &[EffectRow] = &[Block, Block, TableMade(0), Linked(0, 8, 7)];

const INCREMENTAL: [Line; 3] = [
    (Register, SLOT, &[Bucket]),
    (Make(Incremental(1), 6), DONE, FIRST_TABLE),
    (Enter, DONE, &[]),
];

const BLOCKING: [Line; 3] = [
    (Register, SLOT, &[Bucket]),
    (Make(Blocking, 6), DONE, FIRST_TABLE),
    (Enter, DONE, &[]),
];

const EIGHT: [Line; 8] = [
    (
        Call(Insert(0, 0)),
        ABSENT,
        &[Block, Pair, Stored(1, 0, 0), Counted],
    ),
    (
        Call(Insert(1, 1)),
        ABSENT,
        &[Block, Pair, Stored(2, 0, 1), Counted],
    ),
    (
        Call(Insert(2, 2)),
        ABSENT,
        &[Block, Pair, Stored(3, 0, 2), Counted],
    ),
    (
        Call(Insert(3, 3)),
        ABSENT,
        &[Block, Pair, Stored(4, 0, 3), Counted],
    ),
    (
        Call(Insert(4, 4)),
        ABSENT,
        &[Block, Pair, Stored(5, 0, 4), Counted],
    ),
    (
        Call(Insert(5, 5)),
        ABSENT,
        &[Block, Pair, Stored(6, 0, 5), Counted],
    ),
    (
        Call(Insert(6, 6)),
        ABSENT,
        &[Block, Pair, Stored(7, 0, 6), Counted],
    ),
    (
        Call(Insert(7, 7)),
        ABSENT,
        &[Block, Pair, Stored(8, 0, 7), Counted],
    ),
];

/// The ninth pair makes a second table, and the first one carries what leaves the second.
const CARRIES: [Line; 2] = [
    (
        Call(Insert(8, 8)),
        ABSENT,
        &[
            Block,
            Pair,
            Block,
            TableMade(1),
            Linked(1, 16, 15),
            Copied(1, 1, 0),
            Stored(9, 1, 8),
            Counted,
        ],
    ),
    (
        Call(Remove(0)),
        ("found", 1, 0),
        &[Copied(2, 1, 1), Removed(1), Counted, Deferred(1, 0)],
    ),
];

const LEAVES: [Line; 1] = [(Leave, DONE, &[])];

/// The map ends while a table carries two of its pairs.
const ENDS: [Line; 3] = [
    (
        Call(Remove(1)),
        ("found", 2, 0),
        &[Copied(3, 1, 2), Removed(2), Counted, Deferred(2, 0)],
    ),
    (
        End,
        DONE,
        &[
            Ended(4),
            Ended(5),
            Ended(6),
            Ended(7),
            Ended(8),
            Ended(3),
            Ended(9),
            Taken(0),
            Taken(1),
        ],
    ),
    (Leave, DONE, &[]),
];

/// What a table deferred waits until all is reclaimed.
const GIVES_BACK: [Line; 4] = [
    (Unregister, DONE, &[]),
    (ReclaimAll, DONE, &[Back(2), Back(1)]),
    (ReclaimAll, DONE, &[]),
    (Close, DONE, &[]),
];

/// What was retired waits on as its map ends.
const RETIRES: [Line; 5] = [
    (
        Call(Insert(8, 8)),
        ABSENT,
        &[
            Block,
            Pair,
            Block,
            TableMade(1),
            Linked(1, 16, 15),
            Copied(1, 1, 0),
            Copied(2, 1, 1),
            Copied(3, 1, 2),
            Copied(4, 1, 3),
            Copied(5, 1, 4),
            Copied(6, 1, 5),
            Copied(7, 1, 6),
            Copied(8, 1, 7),
            Promoted(1),
            TableRetired(0),
            Stored(9, 1, 8),
            Counted,
        ],
    ),
    (
        Call(Remove(0)),
        ("found", 1, 0),
        &[Removed(1), Counted, Retired(1)],
    ),
    (
        Call(Remove(1)),
        ("found", 2, 0),
        &[Removed(2), Counted, Retired(2)],
    ),
    (
        End,
        DONE,
        &[
            Ended(3),
            Ended(4),
            Ended(5),
            Ended(6),
            Ended(7),
            Ended(8),
            Ended(9),
            Taken(1),
        ],
    ),
    (Leave, DONE, &[Back(2), Back(1), TableBack(0)]),
];

/// A pair is replaced, and comes back as its section ends.
const REPLACED: [Line; 3] = [
    (
        Call(Insert(1, 1)),
        ABSENT,
        &[
            Block,
            Pair,
            Block,
            TableMade(0),
            Linked(0, 32, 25),
            Stored(1, 0, 1),
            Counted,
        ],
    ),
    (
        Call(Insert(1, 2)),
        ("found", 1, 0),
        &[Block, Pair, Replaced(1), Stored(2, 0, 1), Retired(1)],
    ),
    (Leave, DONE, &[Back(1)]),
];

/// A map reclaims its pairs as it ends, and a value that found its key taken comes back at once.
const OCCUPIED: [Line; 4] = [
    (
        Call(TryInsert(37, 1)),
        ("stored", 1, 0),
        &[
            Block,
            Pair,
            Block,
            TableMade(0),
            Linked(0, 32, 25),
            Stored(1, 0, 5),
            Counted,
        ],
    ),
    (
        Call(TryInsert(37, 2)),
        ("occupied", 1, 2),
        &[Block, Pair, GivenUp],
    ),
    (Leave, DONE, &[]),
    (End, DONE, &[Ended(1), Taken(0)]),
];

/// A collector reclaims all that waits as it ends.
const CLOSES: [Line; 8] = [
    (
        Call(Insert(1, 1)),
        ABSENT,
        &[
            Block,
            Pair,
            Block,
            TableMade(0),
            Linked(0, 32, 25),
            Stored(1, 0, 1),
            Counted,
        ],
    ),
    (
        Call(Insert(1, 2)),
        ("found", 1, 0),
        &[Block, Pair, Replaced(1), Stored(2, 0, 1), Retired(1)],
    ),
    (
        Call(Insert(2, 3)),
        ABSENT,
        &[Block, Pair, Stored(3, 0, 2), Counted],
    ),
    (
        Call(Remove(2)),
        ("found", 3, 0),
        &[Removed(3), Counted, Retired(3)],
    ),
    (Leave, DONE, &[]),
    (End, DONE, &[Ended(2), Taken(0)]),
    (Unregister, DONE, &[]),
    (Close, DONE, &[Back(1), Back(3)]),
];

/// A call that asks makes what it needs once it was told, and a walk completes the resize.
const ASKS: [Line; 10] = [
    (Call(Compute(8)), ("asks", 0, 0), &[]),
    (Says(Gives(8)), GOES, &[]),
    (
        Go,
        ("inserted", 9, 0),
        &[
            Block,
            TableMade(1),
            Linked(1, 16, 15),
            Copied(1, 1, 0),
            Block,
            Pair,
            Stored(9, 1, 8),
            Counted,
        ],
    ),
    (Call(RemoveIf(0)), ("asks", 1, 0), &[Copied(2, 1, 1)]),
    (Says(Decides(true)), GOES, &[]),
    (Go, ("found", 1, 0), &[Removed(1), Counted, Deferred(1, 0)]),
    (
        Call(Walk),
        READY,
        &[
            Copied(3, 1, 2),
            Copied(4, 1, 3),
            Copied(5, 1, 4),
            Copied(6, 1, 5),
            Copied(7, 1, 6),
            Copied(8, 1, 7),
            Promoted(1),
            TableRetired(0),
        ],
    ),
    (Next, ("shows", 2, 0), &[]),
    (Stop, DONE, &[]),
    (Leave, DONE, &[TableBack(0), Back(1)]),
];

pub(crate) const SCHEDULES: [Schedule; 16] = [
    (1, &[], (0, 0, &[], 0, None, 0)),
    (1, &[&SMALL, &REPLACED], (2, 1, &[], 0, Some(1), 3)),
    (
        1,
        &[&INCREMENTAL, &EIGHT, &CARRIES, &LEAVES],
        (9, 0, &[1], 0, Some(8), 12),
    ),
    (
        1,
        &[&INCREMENTAL, &EIGHT, &CARRIES, &ENDS],
        (9, 7, &[1, 2], 0, None, 2),
    ),
    (
        1,
        &[&INCREMENTAL, &EIGHT, &CARRIES, &ENDS, &GIVES_BACK],
        (9, 9, &[], 0, None, 0),
    ),
    (
        1,
        &[&INCREMENTAL, &EIGHT, &ASKS],
        (9, 1, &[], 0, Some(8), 10),
    ),
    (
        1,
        &[
            &INCREMENTAL,
            &EIGHT,
            &COMPUTES,
            &RESIZES_BESIDE,
            &UPDATES_THERE,
        ],
        (10, 0, &[1], 0, Some(9), 13),
    ),
    (
        1,
        &[
            &INCREMENTAL,
            &EIGHT,
            &REMOVES_IF,
            &RESIZES_BESIDE,
            &ASKS_THERE,
        ],
        (9, 0, &[], 0, Some(9), 12),
    ),
    (1, &[&INCREMENTAL, &ASKS_TWICE], (1, 0, &[], 0, Some(1), 4)),
    (
        1,
        &[&INCREMENTAL, &ASKS_TWICE, &UPDATES],
        (2, 0, &[1], 0, Some(1), 4),
    ),
    (
        1,
        &[&INCREMENTAL, &ASKS_TWICE, &REMOVES],
        (1, 0, &[1], 0, Some(0), 3),
    ),
    (
        1,
        &[&INCREMENTAL, &ASKS_TWICE, &ABORTS],
        (1, 0, &[], 0, Some(1), 3),
    ),
    (
        1,
        &[&INCREMENTAL, &ASKS_ANEW],
        (2, 0, &[1, 2], 0, Some(0), 4),
    ),
    (1, &[&BLOCKING, &EIGHT, &RETIRES], (9, 9, &[], 0, None, 0)),
    (1, &[&SMALL, &OCCUPIED], (1, 1, &[], 0, None, 0)),
    (32, &[&SMALL, &CLOSES], (3, 3, &[], 0, None, 0)),
];

fn setup(batch_size: u64) -> Setup {
    Setup {
        batch_size,
        processors: 1,
        roots: 1,
    }
}

/// Runs the events of these lines.
fn played(alloc: Global, batch_size: u64, parts: &[&[Line]]) -> Told<Run<u64, u64>> {
    let mut events = Vec::new(alloc);
    for part in parts {
        for (step, _, _) in *part {
            events.push(step.event(alloc)?)?;
        }
    }
    run(
        alloc,
        setup(batch_size),
        KeyHash::Key,
        events,
        Vec::new(alloc),
    )
}

/// Whether an event did this.
fn did_so(did: &[Effect], does: &[EffectRow]) -> bool {
    let mut is_so = did.len() == does.len();
    for (effect, deed) in did.iter().zip(does.iter()) {
        is_so = *effect == deed.effect() && is_so;
    }
    is_so
}

/// Whether each event came to what its line says, and did it.
fn is_as_told(run: &Run<u64, u64>, parts: &[&[Line]]) -> bool {
    let mut outcomes = run.outcomes.iter();
    let mut effects = run.effects.iter();
    let mut is_so = true;
    for part in parts {
        for (_, comes_to, does) in *part {
            is_so = match (outcomes.next(), effects.next()) {
                (Some(outcome), Some(did)) => shown(outcome) == *comes_to
                    && did_so(did.as_slice(), does)
                    && is_so,
                _ => false,
            };
        }
    }
    is_so
}

/// Whether the run ends so.
fn ends_as_told(run: &Run<u64, u64>, ends: Ends) -> bool {
    let (stored, given_back, waiting, tables, living, live) = ends;
    let counts = (run.stored, run.given_back.len(), run.tables, run.live);
    let left = match (run.maps.first(), living) {
        (None, None) => run.kept.len() == waiting.len(),
        (Some(map), Some(pairs)) => map.pairs.len() == pairs,
        _ => false,
    };
    left && counts == (stored, given_back, tables, live) && run.waiting.as_slice() == waiting
}

/// Tells whether a schedule comes to what its lines say, and its run ends so.
pub(crate) fn holds(alloc: Global, schedule: &Schedule) -> Told<bool> {
    let (batch_size, parts, ends) = *schedule;
    let run = played(alloc, batch_size, parts)?;
    Ok(is_as_told(&run, parts) && ends_as_told(&run, ends))
}

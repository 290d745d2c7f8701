//! Copies of what events came to, and whether two came to the same.
ghost use Rattle.std.specs.Prelude.{◌≡◌, IfOk};
ghost use Rattle.run_effects.specs.Copies.Copies.{AreAlike, ClonesAreSame};
ghost use Rattle.run_effects.specs.Copies.Same.{same_answer, same_outcome, same_shape};

use run_schedules::call::Response;
use run_schedules::outcome::Outcome;
use run_schedules::shapes::TableShape;
use std::alloc::{AllocError, Global};

/// A copy of an answer.
fn copy_of_answer<V: Clone>(answer: &Response<V>) -> Result<Response<V>, AllocError>
    requires { ClonesAreSame V.is_clone }
    ensures { IfOk result (λ copy. copy ≡ answer.now) }
{
    Ok(match answer {
        Response::Absent => Response::Absent,
        Response::Found(pair) => Response::Found(*pair),
        Response::Stored(pair) => Response::Stored(*pair),
        Response::Occupied { there, value } => Response::Occupied {
            there: *there,
            value: value.clone()?,
        },
        Response::Kept(pair) => Response::Kept(*pair),
        Response::Inserted(pair) => Response::Inserted(*pair),
        Response::Updated { old, new } => Response::Updated {
            old: *old,
            new: *new,
        },
        Response::Removed(pair) => Response::Removed(*pair),
        Response::Aborted(value) => Response::Aborted(value.clone()?),
        Response::Completed => Response::Completed,
        Response::Counted(count) => Response::Counted(*count),
    })
}

/// Makes a copy of an outcome.
pub fn copy_of<V: Clone>(alloc: Global, outcome: &Outcome<V>) -> Result<Outcome<V>, AllocError>
    requires { ClonesAreSame V.is_clone }
    ensures { IfOk result (AreAlike outcome.now) }
{
    match outcome {
        Outcome::Done => Ok(Outcome::Done),
        Outcome::Slot(slot) => Ok(Outcome::Slot(*slot)),
        Outcome::Goes => Ok(Outcome::Goes),
        Outcome::Asks(pair) => Ok(Outcome::Asks(*pair)),
        Outcome::Waits => Ok(Outcome::Waits),
        Outcome::Ready => Ok(Outcome::Ready),
        Outcome::Shows(pair) => Ok(Outcome::Shows(*pair)),
        Outcome::Answered(answer) => Ok(Outcome::Answered(copy_of_answer(answer)?)),
        Outcome::Shape(tables) => Ok(Outcome::Shape(Vec::from_slice(alloc, tables.as_slice())?)),
        Outcome::Refused(fault) => Ok(Outcome::Refused(*fault)),
    }
}

/// Whether two answers are the same, their values compared by `==`.
fn same_answer<V: PartialEq>(one: &Response<V>, other: &Response<V>) -> bool
    ensures { result ≡ same_answer V.eq one.now other.now }
{
    match (one, other) {
        (Response::Absent, Response::Absent) => true,
        (Response::Found(pair), Response::Found(n)) => pair == n,
        (Response::Stored(pair), Response::Stored(n)) => pair == n,
        (
            Response::Occupied { there, value },
            Response::Occupied {
                there: n,
                value: other,
            },
        ) => there == n && value == other,
        (Response::Kept(pair), Response::Kept(n)) => pair == n,
        (Response::Inserted(pair), Response::Inserted(n)) => pair == n,
        (Response::Updated { old, new }, Response::Updated { old: m, new: n }) => old == m
            && new == n,
        (Response::Removed(pair), Response::Removed(n)) => pair == n,
        (Response::Aborted(value), Response::Aborted(other)) => value == other,
        (Response::Completed, Response::Completed) => true,
        (Response::Counted(count), Response::Counted(n)) => count == n,
        _ => false,
    }
}

/// Whether two shapes are the same.
fn same_shape(one: &[TableShape], other: &[TableShape]) -> bool
    ensures { result ≡ same_shape one.now other.now }
{
    match (one.split_first(), other.split_first()) {
        (None, None) => true,
        (Some((table, tables)), Some((its_table, its_tables))) => {
            table.len == its_table.len
                && table.limit == its_table.limit
                && same_shape(tables, its_tables)
        }
        _ => false,
    }
}

/// Returns whether two outcomes are the same, their values compared by `==`.
pub fn same<V: PartialEq>(one: &Outcome<V>, other: &Outcome<V>) -> bool
    ensures { result ≡ same_outcome V.eq one.now other.now }
{
    match (one, other) {
        (Outcome::Done, Outcome::Done) => true,
        (Outcome::Slot(slot), Outcome::Slot(n)) => slot == n,
        (Outcome::Goes, Outcome::Goes) => true,
        (Outcome::Asks(pair), Outcome::Asks(n)) => pair == n,
        (Outcome::Waits, Outcome::Waits) => true,
        (Outcome::Ready, Outcome::Ready) => true,
        (Outcome::Shows(pair), Outcome::Shows(n)) => pair == n,
        (Outcome::Answered(answer), Outcome::Answered(other)) => same_answer(answer, other),
        (Outcome::Shape(tables), Outcome::Shape(other)) => {
            same_shape(tables.as_slice(), other.as_slice())
        }
        (Outcome::Refused(fault), Outcome::Refused(other)) => fault.number() == other.number(),
        _ => false,
    }
}

//! The lines of the events.
ghost use Rattle.std.specs.Prelude.{◌≡◌, ◌++◌, codes, OnOk};
ghost use Rattle.std.specs.List.{flat_map, zip};
ghost use Rattle.reclaimed_engine.specs.PrintedText.Text.{answer_line, asks_line, back_line, back_lines, event_lines, numbered, outcome_line, shape_line, table_shape};
ghost use Rattle.reclaimed_script.specs.Outputs.{line};

use crate::pieces::append_numbered;
use reclaimed_script::{append_number_line, append_refused_line};
use run_schedules::call::Response;
use run_schedules::effect::{Effect, Thing};
use run_schedules::outcome::Outcome;
use run_schedules::record::Run;
use run_schedules::shapes::TableShape;
use run_schedules::token::Token;
use std::alloc::{AllocError, Global};

/// Appends a line of a word and a pair.
fn append_pair_line(
    alloc: Global,
    out: &mut Vec<u8>,
    run: &Run<u64, Token>,
    word: &[u8],
    number: u64,
) -> Result<(), AllocError>
    ensures { OnOk result (out.new.items ≡ out.old.items ++ line (word.now ++ numbered run.now number)) }
{
    out.extend_from_slice(word)?;
    append_numbered(alloc, out, run, number)?;
    out.extend_from_slice(b"\n")
}

/// Appends the line of a call that found a pair where it was to store one: the pair, and the value that came back.
fn append_occupied_line(
    alloc: Global,
    out: &mut Vec<u8>,
    run: &Run<u64, Token>,
    there: u64,
    value: &Token,
) -> Result<(), AllocError>
    ensures { OnOk result (out.new.items ≡ out.old.items ++ line (codes "occupied" ++ numbered run.now there ++ codes " " ++ value.now)) }
{
    out.extend_from_slice(b"occupied")?;
    append_numbered(alloc, out, run, there)?;
    out.extend_from_slice(b" ")?;
    out.extend_from_slice(value.as_bytes())?;
    out.extend_from_slice(b"\n")
}

/// Appends the line of a call that stored a pair in the place of another one.
fn append_updated_line(
    alloc: Global,
    out: &mut Vec<u8>,
    run: &Run<u64, Token>,
    old: u64,
    new: u64,
) -> Result<(), AllocError>
    ensures { OnOk result (out.new.items ≡ out.old.items ++ line (codes "updated" ++ numbered run.now old ++ numbered run.now new)) }
{
    out.extend_from_slice(b"updated")?;
    append_numbered(alloc, out, run, old)?;
    append_pair_line(alloc, out, run, b"", new)
}

/// Appends the line of a call that did nothing, and what was given for it.
fn append_aborted_line(out: &mut Vec<u8>, value: &Token) -> Result<(), AllocError>
    ensures { OnOk result (out.new.items ≡ out.old.items ++ line (codes "aborted " ++ value.now)) }
{
    out.extend_from_slice(b"aborted ")?;
    out.extend_from_slice(value.as_bytes())?;
    out.extend_from_slice(b"\n")
}

/// Appends the line of a call that was answered.
fn append_answer_line(
    alloc: Global,
    out: &mut Vec<u8>,
    run: &Run<u64, Token>,
    answer: &Response<Token>,
) -> Result<(), AllocError>
    ensures { OnOk result (out.new.items ≡ out.old.items ++ answer_line run.now answer.now) }
{
    match answer {
        Response::Absent => out.extend_from_slice(b"none\n"),
        Response::Found(number) => append_pair_line(alloc, out, run, b"some", *number),
        Response::Stored(number) => append_pair_line(alloc, out, run, b"stored", *number),
        Response::Occupied { there, value } => append_occupied_line(alloc, out, run, *there, value),
        Response::Kept(number) => append_pair_line(alloc, out, run, b"kept", *number),
        Response::Inserted(number) => append_pair_line(alloc, out, run, b"inserted", *number),
        Response::Updated { old, new } => append_updated_line(alloc, out, run, *old, *new),
        Response::Removed(number) => append_pair_line(alloc, out, run, b"removed", *number),
        Response::Aborted(value) => append_aborted_line(out, value),
        Response::Completed => out.extend_from_slice(b"ok\n"),
        Response::Counted(count) => append_number_line(alloc, out, b"len ", *count),
    }
}

/// Appends the line of a call that asks about a pair, or about none.
fn append_asks_line(
    alloc: Global,
    out: &mut Vec<u8>,
    run: &Run<u64, Token>,
    question: Option<u64>,
) -> Result<(), AllocError>
    ensures { OnOk result (out.new.items ≡ out.old.items ++ asks_line run.now question) }
{
    match question {
        None => out.extend_from_slice(b"asks none\n"),
        Some(number) => append_pair_line(alloc, out, run, b"asks", number),
    }
}

/// Appends the length and the last try of a table.
fn append_table_shape(alloc: Global, out: &mut Vec<u8>, table: TableShape) -> Result<(), AllocError>
    ensures { OnOk result (out.new.items ≡ out.old.items ++ table_shape table) }
{
    let shape = format!(in alloc; " {}:{}", table.len, table.limit)?;
    out.extend_from_slice(shape.as_bytes())
}

/// Appends the line of the tables of a map.
fn append_shape_line(
    alloc: Global,
    out: &mut Vec<u8>,
    tables: &[TableShape],
) -> Result<(), AllocError>
    ensures { OnOk result (out.new.items ≡ out.old.items ++ shape_line tables.now) }
{
    out.extend_from_slice(b"shape")?;
    for table in tables {
        append_table_shape(alloc, out, *table)?;
    }
    out.extend_from_slice(b"\n")
}

/// Appends the line of what an event came to.
fn append_outcome_line(
    alloc: Global,
    out: &mut Vec<u8>,
    run: &Run<u64, Token>,
    outcome: &Outcome<Token>,
) -> Result<(), AllocError>
    ensures { OnOk result (out.new.items ≡ out.old.items ++ outcome_line run.now outcome.now) }
{
    match outcome {
        Outcome::Done => out.extend_from_slice(b"ok\n"),
        Outcome::Slot(slot) => append_number_line(alloc, out, b"slot ", *slot),
        Outcome::Goes => out.extend_from_slice(b"goes\n"),
        Outcome::Asks(question) => append_asks_line(alloc, out, run, *question),
        Outcome::Waits => out.extend_from_slice(b"waits\n"),
        Outcome::Ready => out.extend_from_slice(b"ready\n"),
        Outcome::Shows(number) => append_pair_line(alloc, out, run, b"some", *number),
        Outcome::Answered(answer) => append_answer_line(alloc, out, run, answer),
        Outcome::Shape(tables) => append_shape_line(alloc, out, tables),
        Outcome::Refused(fault) => append_refused_line(alloc, out, *fault),
    }
}

/// Appends the line of an effect, if it has one.
fn append_back_line(
    alloc: Global,
    out: &mut Vec<u8>,
    run: &Run<u64, Token>,
    effect: Effect,
) -> Result<(), AllocError>
    ensures { OnOk result (out.new.items ≡ out.old.items ++ back_line run.now effect) }
{
    match effect {
        Effect::Reclaimed(Thing::APair(number)) | Effect::Ended(number) => {
            append_pair_line(alloc, out, run, b"back", number)
        }
        _ => Ok(()),
    }
}

/// Appends a line for each pair that an event gave back.
fn append_back_lines(
    alloc: Global,
    out: &mut Vec<u8>,
    run: &Run<u64, Token>,
    effects: &[Effect],
) -> Result<(), AllocError>
    ensures { OnOk result (out.new.items ≡ out.old.items ++ back_lines run.now effects.now) }
{
    for effect in effects {
        append_back_line(alloc, out, run, *effect)?;
    }
    Ok(())
}

/// Appends the lines of all events.
pub fn append_events(
    alloc: Global,
    out: &mut Vec<u8>,
    run: &Run<u64, Token>,
) -> Result<(), AllocError>
    ensures { OnOk result (out.new.items ≡ out.old.items
        ++ flat_map (event_lines run.now) (zip run.now.outcomes.items run.now.effects.items)) }
{
    for (outcome, effects) in run.outcomes.iter().zip(run.effects.iter()) {
        append_outcome_line(alloc, out, run, outcome)?;
        append_back_lines(alloc, out, run, effects)?;
    }
    Ok(())
}

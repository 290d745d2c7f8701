//! From the bytes of a script to the bytes that are printed for it, and how they are written.
#![tactic(auto)]

mod events;
mod finals;
mod pieces;
mod text;

ghost use Rattle.reclaimed_engine.specs.Lines.Engine.{stop_line, EndsWith, IsTextFor};
ghost use Rattle.reclaimed_script.specs.Outputs.{has_failed, writer_of};
ghost use Rattle.std.specs.Io.KnownBytes.{Keeps, Appends};
ghost use Rattle.std.specs.Prelude.{◌≡◌, false, IfOk, IfErr, OnErr, IfSome};

use papaya_steps::running::run;
pub use reclaimed_script::Output;
use reclaimed_script::{Script, ScriptStop, hasher_of, print, read, setup_of};
use std::alloc::{AllocError, Global};
use std::io::{Read, Write};
pub use text::{fault_line, text_of};

/// The line that says why a script gives no run.
fn stop_line(alloc: Global, stop: ScriptStop) -> Result<Vec<u8>, AllocError>
    ensures { IfOk result (λ line. line.items ≡ stop_line stop) }
{
    match stop {
        ScriptStop::Line { number, fault } => fault_line(alloc, number, fault.text()),
        ScriptStop::ReadFailed { lines } => fault_line(alloc, lines, "read failed"),
        ScriptStop::NoMemory { lines } => fault_line(alloc, lines, "no memory"),
    }
}

/// What is printed for a script, or, where memory runs out, that it did.
fn printed(alloc: Global, script: Script) -> Result<Vec<u8>, ScriptStop>
    ensures ok { IfOk result (λ text. IsTextFor script.events.items text.items) }
    ensures err { IfErr result (λ stop. stop ≡ ScriptStop.NoMemory script.lines) }
{
    let lines = script.lines;
    let setup = setup_of(&script.events);
    let hasher = hasher_of(&script.events);
    match run(alloc, setup, hasher, script.events, Vec::new(alloc)) {
        Err(_) => Err(ScriptStop::NoMemory { lines }),
        Ok(run) => match text_of(alloc, &run) {
            Err(_) => Err(ScriptStop::NoMemory { lines }),
            Ok(text) => Ok(text),
        },
    }
}

/// Says why there is no run, and answers the status for it.
fn say<E: Write>(alloc: Global, errors: &mut Output<E>, stop: ScriptStop) -> Result<u8, AllocError>
    ensures status { IfOk result (λ status. status ≡ 1) }
    ensures said { IfOk result (λ _. has_failed errors.new ≡ false
        → Appends (E.contents (writer_of errors.old)) (E.contents (writer_of errors.new)) (stop_line stop)) }
    ensures err { OnErr result (Keeps (E.contents (writer_of errors.old)) (E.contents (writer_of errors.new))) }
{
    let line = stop_line(alloc, stop)?;
    errors.put(&line);
    Ok(1)
}

/// Reads a whole script, runs it, and writes what is printed for it, or the one line that says why it gives no run. Where what is printed can't be
/// written, `write failed` is written on the errors. Answers the status: 0 where all was printed. An `Err` is want of memory for even the line that says
/// why there is no run, and nothing is written then.
pub fn engine<R: Read, W: Write, E: Write>(
    alloc: Global,
    input: &mut R,
    output: &mut Output<W>,
    errors: &mut Output<E>,
) -> Result<u8, AllocError>
    requires { has_failed output.old ≡ false }
    ensures ends { IfOk result (λ status. IfSome (R.remaining input.old) (λ bytes. EndsWith status bytes (record {
      left = R.remaining input.new;
      output_before = W.contents (writer_of output.old);
      output_after = W.contents (writer_of output.new);
      output_failed = has_failed output.new;
      errors_before = E.contents (writer_of errors.old);
      errors_after = E.contents (writer_of errors.new);
      errors_failed = has_failed errors.new;
    }))) }
    ensures memory { OnErr result (Keeps (W.contents (writer_of output.old)) (W.contents (writer_of output.new))
        × Keeps (E.contents (writer_of errors.old)) (E.contents (writer_of errors.new))) }
{
    let script = match read(alloc, input) {
        Ok(script) => script,
        Err(stop) => return say(alloc, errors, stop),
    };
    match printed(alloc, script) {
        Err(stop) => say(alloc, errors, stop),
        Ok(text) => Ok(print(output, errors, &text)),
    }
}

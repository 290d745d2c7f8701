//! Runs threads over one shared map, as the words `load T N` ask for, and prints what it has in the end.
#![tactic(auto)]

mod counting;

ghost use Rattle.std.specs.Prelude.{◌≡◌, None, false, map, string_bytes, IfOk, OnErr};
ghost use Rattle.std.specs.Io.KnownBytes.{Keeps, Appends};
ghost use Rattle.reclaimed_load.specs.Load.{load_by, load_of, load_text, usage, EndsLoad};
ghost use Rattle.reclaimed_script.specs.Outputs.{has_failed, refused_line, writer_of};

pub use counting::{Counted, Gate, Open, count};
pub use papaya_map::{Fault, ResizeMode};
use reclaimed_script::{
    LineFault, Output, append_number_line, append_refused_line, number_between, print,
};
use std::alloc::{AllocError, Global};
use std::io::Write;
use std::sync::Wait;
use std::thread::Threads;

/// How many threads two words ask for, and how many updates of each.
#[tactic(auto, unfolding(crate::specs::Load::load_by))]
fn numbers_of(threads: &[u8], updates: &[u8]) -> Result<(u64, u64), LineFault>
    ensures { result ≡ load_by threads.now updates.now }
{
    let threads = number_between(1, 16, threads)?;
    let updates = number_between(0, 1_000_000, updates)?;
    Ok((threads, updates))
}

/// What words ask for.
fn asked(words: &[String]) -> Result<(u64, u64), LineFault>
    ensures { result ≡ load_of (map string_bytes words.now) }
{
    match words {
        [first, threads, updates] if first.as_str() == "load" => {
            numbers_of(threads.as_bytes(), updates.as_bytes())
        }
        _ => Err(LineFault::UnknownEvent),
    }
}

/// What is printed of what so many threads have left.
fn text_of(alloc: Global, threads: u64, counted: Counted) -> Result<Vec<u8>, AllocError>
    ensures { IfOk result (λ text. text.items ≡ load_text threads counted.keys counted.sum) }
{
    let mut text = Vec::new(alloc);
    append_number_line(alloc, &mut text, b"threads ", threads)?;
    append_number_line(alloc, &mut text, b"keys ", counted.keys)?;
    append_number_line(alloc, &mut text, b"sum ", counted.sum)?;
    Ok(text)
}

/// Says a line on the errors, and answers the status for it.
fn says<E: Write>(errors: &mut Output<E>, line: &[u8]) -> u8
    ensures status { result ≡ 1 }
    ensures said { has_failed errors.new ≡ false → Appends (E.contents (writer_of errors.old)) (E.contents (writer_of errors.new)) line.now }
{
    errors.put(line);
    1
}

/// The line that says which fault a call was refused with.
fn line_of(alloc: Global, fault: Fault) -> Result<Vec<u8>, AllocError>
    ensures { IfOk result (λ line. line.items ≡ refused_line fault) }
{
    let mut line = Vec::new(alloc);
    append_refused_line(alloc, &mut line, fault)?;
    Ok(line)
}

/// Does what a program's arguments ask for. Where they are `load T N` in numbers, T from 1 to 16 and N up to 1,000,000, T workers make N updates each on one shared map, and what it
/// has in the end is printed; a call that was refused is told by a line on the errors, as is a write that failed. Other arguments are told how it is used. Answers the status: 0
/// where all was printed. An `Err` is want of memory for what is to be written, and nothing is written then.
pub fn load<R: Threads + Wait + Sync, W: Write, E: Write>(
    rt: &R,
    alloc: Global,
    words: &[String],
    output: &mut Output<W>,
    errors: &mut Output<E>,
) -> Result<u8, AllocError>
    requires { has_failed output.old ≡ false }
    ensures ends { IfOk result (λ status. EndsLoad status (load_of (map string_bytes words.now)) (record {
      left = None;
      output_before = W.contents (writer_of output.old);
      output_after = W.contents (writer_of output.new);
      output_failed = has_failed output.new;
      errors_before = E.contents (writer_of errors.old);
      errors_after = E.contents (writer_of errors.new);
      errors_failed = has_failed errors.new;
    })) }
    ensures memory { OnErr result (Keeps (W.contents (writer_of output.old)) (W.contents (writer_of output.new))
        × Keeps (E.contents (writer_of errors.old)) (E.contents (writer_of errors.new))) }
{
    let (threads, updates) = match asked(words) {
        Ok(asked) => asked,
        Err(_) => return Ok(says(errors, b"usage: reclaimed_map [load T N]\n")),
    };
    match count(
        rt,
        alloc,
        &Open,
        ResizeMode::default(),
        threads as usize,
        updates,
    ) {
        Ok(counted) => {
            let text = text_of(alloc, threads, counted)?;
            Ok(print(output, errors, &text))
        }
        Err(fault) => {
            let line = line_of(alloc, fault)?;
            Ok(says(errors, &line))
        }
    }
}

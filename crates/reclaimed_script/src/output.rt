//! A writer that knows whether a write to it has failed, and what a program says on its two outputs.
ghost use Rattle.std.specs.Prelude.{◌≡◌, ◌++◌, false, OnOk};
ghost use Rattle.std.specs.Fmt.{decimal};
ghost use Rattle.std.specs.Io.KnownBytes.{Appends};
ghost use Rattle.reclaimed_script.specs.Outputs.{has_failed, line, refused_line, writer_of, ReportsFailure, Writes};

use seize_words::Fault;
use std::alloc::{AllocError, Global};
use std::io::Write;

/// A writer, and whether a write to it has failed.
#[derive(Drop)]
pub struct Output<W> {
    writer: W,
    failed: bool,
}

impl<W: Write> Output<W> {
    /// Makes an output of which no write has failed yet.
    pub fn new(writer: W) -> Self
        ensures writer { writer_of result ≡ writer }
        ensures failed { has_failed result ≡ false }
    {
        Output {
            writer,
            failed: false,
        }
    }

    /// Writes all the bytes, and flushes. Where that fails some of them may be written, and the writer has failed.
    pub fn put(&mut self, bytes: &[u8])
        ensures written { has_failed self.new ≡ false → Appends (W.contents (writer_of self.old)) (W.contents (writer_of self.new)) bytes.now }
        ensures failed { has_failed self.new ≡ false → has_failed self.old ≡ false }
    {
        if self.writer.write_all(bytes).is_err() || self.writer.flush().is_err() {
            self.failed = true;
        }
    }

    /// Returns whether a write has failed.
    pub fn has_failed(&self) -> bool
        ensures { result ≡ has_failed self.now }
    {
        self.failed
    }
}

impl<W> Output<W> {
    /// Returns the writer.
    pub fn into_writer(self) -> W
        ensures { result ≡ writer_of self }
    {
        let Output { writer, failed: _ } = self;
        writer
    }
}

/// Writes a text, and answers the status: 0 where all of it was written.
fn write<W: Write>(output: &mut Output<W>, text: &[u8]) -> u8
    ensures { Writes result text.now (has_failed output.new) (W.contents (writer_of output.old)) (W.contents (writer_of output.new)) }
{
    output.put(text);
    if output.has_failed() { 1 } else { 0 }
}

/// Writes what is printed, and answers the status: 0 where all was written. A write that failed is told on the errors.
pub fn print<W: Write, E: Write>(output: &mut Output<W>, errors: &mut Output<E>, text: &[u8]) -> u8
    ensures writes { Writes result text.now (has_failed output.new) (W.contents (writer_of output.old)) (W.contents (writer_of output.new)) }
    ensures says { ReportsFailure (has_failed output.new) (has_failed errors.new) (E.contents (writer_of errors.old)) (E.contents (writer_of errors.new)) }
{
    let status = write(output, text);
    if output.has_failed() {
        errors.put(b"write failed\n");
    }
    status
}

/// Appends the line of what was refused.
#[tactic(auto, using(crate::proofs::OutputLemmas::refused_line_parts))]
pub fn append_refused_line(alloc: Global, out: &mut Vec<u8>, fault: Fault) -> Result<(), AllocError>
    ensures { OnOk result (out.new.items ≡ out.old.items ++ refused_line fault) }
{
    let line = format!(in alloc; "refused {} {}\n", fault.number(), fault.name())?;
    out.extend_from_slice(line.as_bytes())
}

/// Appends a line of a word and a number.
pub fn append_number_line(
    alloc: Global,
    out: &mut Vec<u8>,
    word: &[u8],
    number: u64,
) -> Result<(), AllocError>
    ensures { OnOk result (out.new.items ≡ out.old.items ++ line (word.now ++ decimal number)) }
{
    let text = format!(in alloc; "{number}\n")?;
    out.extend_from_slice(word)?;
    out.extend_from_slice(text.as_bytes())
}

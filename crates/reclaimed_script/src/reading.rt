//! Reading a script from an input, in pieces.
ghost use Rattle.std.specs.Prelude.{◌≡◌, ◌<◌, length};
ghost use Rattle.reclaimed_script.specs.Reading.{Reads, GivesBytes, IsWithin};

use crate::fault::ScriptStop;
use crate::parser::{Parser, Script};
use std::alloc::Global;
use std::io::{ErrorKind, Read};

/// So many reads may bring neither bytes nor the end.
const IDLE_TURNS: u32 = 1_000_000;
/// So many reads may be made in all.
const TURNS: u32 = 300_000_000;

/// What one read gave.
enum Turn {
    Bytes(usize),
    End,
    Interrupted,
    Failed,
}

fn next_bytes<R: Read>(input: &mut R, buffer: &mut [u8]) -> Turn
    requires { 0 < length buffer.old }
    ensures bytes { GivesBytes (R.remaining input.old) (R.remaining input.new) buffer.new result }
    ensures within { IsWithin buffer.new result }
{
    match input.read(buffer) {
        Ok(0) => Turn::End,
        Ok(count) => Turn::Bytes(count),
        Err(error) => match error.kind() {
            ErrorKind::Interrupted => Turn::Interrupted,
            _ => Turn::Failed,
        },
    }
}

/// Reads a whole script: its events, or its first faulty line. The bytes behind that line may stay unread. An
/// input that fails, or that answers `Interrupted` too often, ends the reading, and so does want of memory.
pub fn read<R: Read>(alloc: Global, input: &mut R) -> Result<Script, ScriptStop>
    ensures { Reads (R.remaining input.old) (R.remaining input.new) result }
{
    let mut parser = Parser::new(alloc);
    let mut buffer = [0u8; 4096];
    let mut idle = 0u32;
    for _ in 0..TURNS {
        match next_bytes(input, &mut buffer) {
            Turn::Bytes(count) => parser.feed(alloc, &buffer[..count])?,
            Turn::End => return parser.finish(alloc),
            Turn::Interrupted => {
                idle += 1;
                if idle >= IDLE_TURNS {
                    return Err(parser.read_failed());
                }
            }
            Turn::Failed => return Err(parser.read_failed()),
        }
    }
    Err(parser.read_failed())
}

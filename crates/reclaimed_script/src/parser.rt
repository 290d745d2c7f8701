//! Reading a script byte by byte: whole lines become events, and the bytes of one line are kept.
ghost use Rattle.std.specs.Prelude.{◌≡◌, ◌≢◌, ℕ, ◌≤◌, ◌+◌, List, [], ◌∷◌, ◌++◌, Option, length, vec_len, OnOk, IfErr};
ghost use Rattle.reclaimed_script.specs.Lines.{event_of};
ghost use Rattle.reclaimed_script.specs.Script.{one_event, line_at, Adds, AddsNothing};

use crate::fault::{LineFault, LineStop, ScriptStop};
use crate::line::event_of;
use run_schedules::event::Event;
use run_schedules::token::Token;
use std::alloc::{AllocError, Global};

const LINE_BYTES: usize = 256;

const LINES: u64 = 1_000_000;

/// A script: its events, and how many lines it has.
#[derive(Drop)]
pub struct Script {
    pub events: Vec<Event<u64, Token>>,
    pub lines: u64,
}

/// The events of the whole lines so far, how many lines those are, and the bytes of the line that is read.
#[derive(Drop)]
pub struct Parser {
    events: Vec<Event<u64, Token>>,
    lines: u64,
    line: Vec<u8>,
    ghost few: { lines ≤ 1000000 },
    ghost short: { vec_len line ≤ 256 },
}

fn push_event(
    events: &mut Vec<Event<u64, Token>>,
    event: Event<u64, Token>,
) -> Result<(), AllocError>
    ensures { OnOk result (events.new.items ≡ events.old.items ++ event ∷ []) }
{
    events.push(event)?;
    Ok(())
}

/// Adds the event that a line says, whose number this is.
fn add_event(
    alloc: Global,
    number: u64,
    line: &[u8],
    events: &mut Vec<Event<u64, Token>>,
) -> Result<(), ScriptStop>
    ensures ok { OnOk result (Adds events.old.items events.new.items (one_event (event_of line.now))) }
    ensures err { IfErr result (AddsNothing number (one_event (event_of line.now))) }
{
    match event_of(alloc, line) {
        Ok(event) => match push_event(events, event) {
            Ok(()) => Ok(()),
            Err(_) => Err(ScriptStop::NoMemory { lines: number }),
        },
        Err(LineStop::Fault(fault)) => Err(ScriptStop::Line { number, fault }),
        Err(LineStop::Memory) => Err(ScriptStop::NoMemory { lines: number }),
    }
}

/// Adds what the line of this number says.
fn add_line(
    alloc: Global,
    number: u64,
    line: &[u8],
    events: &mut Vec<Event<u64, Token>>,
) -> Result<(), ScriptStop>
    requires { length line.now ≤ 256 }
    ensures ok { OnOk result (Adds events.old.items events.new.items (line_at number line.now)) }
    ensures few { OnOk result (number ≤ 1000000) }
    ensures err { IfErr result (AddsNothing number (line_at number line.now)) }
{
    if number > LINES {
        return Err(ScriptStop::Line {
            number,
            fault: LineFault::TooManyLines,
        });
    }
    if line.is_empty() {
        return Ok(());
    }
    add_event(alloc, number, line, events)
}

impl Parser {
    ghost use Rattle.reclaimed_script.specs.Reading.{StandsAfter, StopsAt, Answers};

    /// Makes a parser before the first byte.
    pub fn new(alloc: Global) -> Self
        ensures { StandsAfter [] result }
    {
        Parser {
            events: Vec::new(alloc),
            lines: 0,
            line: Vec::new(alloc),
        }
    }

    /// Returns what is answered where the input fails.
    pub fn read_failed(&self) -> ScriptStop
        ensures { result ≡ ScriptStop.ReadFailed self.now.lines }
    {
        ScriptStop::ReadFailed { lines: self.lines }
    }

    /// Ends the line that is read.
    fn end_line(&mut self, alloc: Global) -> Result<(), ScriptStop>
        ensures events { OnOk result (Adds self.old.events.items self.new.events.items
            (line_at (self.old.lines + 1) self.old.line.items)) }
        ensures lines { OnOk result (self.new.lines ≡ self.old.lines + 1) }
        ensures line { OnOk result (self.new.line.items ≡ []) }
        ensures err { IfErr result (AddsNothing (self.old.lines + 1)
            (line_at (self.old.lines + 1) self.old.line.items)) }
    {
        add_line(alloc, self.lines + 1, &self.line, &mut self.events)?;
        self.line.clear();
        self.lines += 1;
        Ok(())
    }

    /// Takes a byte of a line, which is no line feed.
    fn extend_line(&mut self, byte: u8) -> Result<(), ScriptStop>
        requires { byte ≢ 10 }
        ensures ok { OnOk result ((read : List ℕ) → StandsAfter read self.old → StandsAfter (read ++ byte ∷ []) self.new) }
        ensures err { IfErr result (λ stop. (read rest : List ℕ) → StandsAfter read self.old → StopsAt (read ++ byte ∷ rest) stop) }
    {
        if self.line.len() >= LINE_BYTES {
            return Err(ScriptStop::Line {
                number: self.lines + 1,
                fault: LineFault::TooLong,
            });
        }
        match self.line.push(byte) {
            Ok(()) => Ok(()),
            Err(_) => Err(ScriptStop::NoMemory { lines: self.lines }),
        }
    }

    /// Takes the next byte. After an `Err` the text before it has what the error says, whatever follows.
    fn take_byte(&mut self, alloc: Global, byte: u8) -> Result<(), ScriptStop>
        ensures ok { OnOk result ((read : List ℕ) → StandsAfter read self.old → StandsAfter (read ++ byte ∷ []) self.new) }
        ensures err { IfErr result (λ stop. (read rest : List ℕ) → StandsAfter read self.old → StopsAt (read ++ byte ∷ rest) stop) }
    {
        if byte == b'\n' {
            self.end_line(alloc)
        } else {
            self.extend_line(byte)
        }
    }

    /// Takes the next bytes.
    pub fn feed(&mut self, alloc: Global, bytes: &[u8]) -> Result<(), ScriptStop>
        ensures ok { OnOk result ((read : List ℕ) → StandsAfter read self.old → StandsAfter (read ++ bytes.now) self.new) }
        ensures err { IfErr result (λ stop. (read rest : List ℕ) → StandsAfter read self.old → StopsAt (read ++ bytes.now ++ rest) stop) }
    {
        for byte in bytes {
            self.take_byte(alloc, *byte)?;
        }
        Ok(())
    }

    fn into_script(self) -> Script
        ensures events { result.events.items ≡ self.events.items }
        ensures lines { result.lines ≡ self.lines }
    {
        Script {
            events: self.events,
            lines: self.lines,
        }
    }

    /// Ends the text, and so its last line, if that lacks its line feed.
    pub fn finish(mut self, alloc: Global) -> Result<Script, ScriptStop>
        ensures { (read : List ℕ) (left : Option (List ℕ)) → StandsAfter read self → Answers read left result }
    {
        if self.line.is_empty() {
            return Ok(self.into_script());
        }
        self.end_line(alloc)?;
        Ok(self.into_script())
    }
}

//! One case: a script, and what the engine has to write for it.
use crate::given::GivenBytes;
use crate::narrow::Narrow;
use crate::text::{append_text, byte_of, malformed};
use reclaimed_engine::{Output, engine};
use reclaimed_load::load;
use std::alloc::{AllocError, Global};
use std::io;
use std::sync::Wait;
use std::thread::Threads;

/// A script, how its input and outputs behave, and what is wanted of it.
#[derive(Drop)]
pub struct Case {
    /// The number of its last line in its file, counted from 1, and 0 where it has none yet.
    line: usize,
    words: Vec<String>,
    script: Vec<u8>,
    printed: Vec<u8>,
    told: Vec<u8>,
    piece: usize,
    interruptions: u64,
    breaks: bool,
    room: usize,
    errors_room: usize,
    differs: bool,
}

/// How a case ended.
#[derive(Drop)]
pub struct Ended {
    status: u8,
    printed: Vec<u8>,
    told: Vec<u8>,
}

/// As much of a text as there is room for.
fn fitting(text: &[u8], room: usize) -> &[u8] {
    &text[..text.len().min(room)]
}

impl Case {
    /// Makes a case with no line.
    pub fn new(alloc: Global) -> Self {
        Case {
            line: 0,
            words: Vec::new(alloc),
            script: Vec::new(alloc),
            printed: Vec::new(alloc),
            told: Vec::new(alloc),
            piece: usize::MAX,
            interruptions: 0,
            breaks: false,
            room: usize::MAX,
            errors_room: usize::MAX,
            differs: false,
        }
    }

    /// Returns whether it has a line that is no comment.
    pub fn is_begun(&self) -> bool {
        self.line > 0
    }

    /// Returns where its last line stands in its file.
    pub fn line(&self) -> usize {
        self.line
    }

    /// Takes in a line of the file, with so many lines in front of it.
    pub fn take_line(&mut self, before: usize, line: &str) -> io::Result<()> {
        let (kind, rest) = line.split_once(' ').unwrap_or((line, ""));
        if kind == "#" {
            return Ok(());
        }
        self.line = before.saturating_add(1);
        if kind == "%" {
            return self.behave(rest);
        }
        self.take_pieces(line)
    }

    /// Takes in the pieces of a line.
    fn take_pieces(&mut self, line: &str) -> io::Result<()> {
        for piece in line.split(" | ") {
            self.take_piece(piece)?;
        }
        Ok(())
    }

    /// Takes in a piece: a line of the script, or of what is printed or told.
    fn take_piece(&mut self, piece: &str) -> io::Result<()> {
        let (kind, rest) = piece.split_once(' ').unwrap_or((piece, ""));
        match kind {
            ">" => append_line(&mut self.script, rest),
            "~" => append_text(&mut self.script, rest),
            "!" => append_line(&mut self.told, rest),
            _ => append_line(&mut self.printed, piece),
        }
    }

    /// How it differs from a plain case: there is no script, but these are the program's arguments (`words load 4 1000`); a line stands once for each of
    /// these numbers, which `*` stands for (`for 1 9 > call g m insert * x | none`); the script goes on with so many times a byte (`repeat 300 61`); one read gives so many bytes at most (`pieces 3`); so many reads are interrupted
    /// first (`interrupted 3`); the input fails behind the script (`breaks`); a write fails once so many bytes were written (`room 3`,
    /// `errors_room 3`); it has to end in another way than what stands there (`differs`).
    fn behave(&mut self, how: &str) -> io::Result<()> {
        let (word, rest) = how.split_once(' ').unwrap_or((how, ""));
        match word {
            "words" => self.take_words(rest)?,
            "for" => self.take_each(rest)?,
            "repeat" => self.repeat(rest)?,
            "pieces" => self.piece = number_of(rest)?,
            "interrupted" => self.interruptions = number_of(rest)? as u64,
            "breaks" => self.breaks = true,
            "room" => self.room = number_of(rest)?,
            "errors_room" => self.errors_room = number_of(rest)?,
            "differs" => self.differs = true,
            _ => return Err(malformed()),
        }
        Ok(())
    }

    fn take_words(&mut self, rest: &str) -> io::Result<()> {
        let alloc = *self.script.allocator();
        for word in rest.split(' ') {
            self.words.push(word.to_string(alloc)?)?;
        }
        Ok(())
    }

    fn take_each(&mut self, rest: &str) -> io::Result<()> {
        let (first, rest) = rest.split_once(' ').ok_or(malformed())?;
        let (last, line) = rest.split_once(' ').ok_or(malformed())?;
        let alloc = *self.script.allocator();
        for number in number_of(first)?..number_of(last)?.saturating_add(1) {
            let digits = number.to_string(alloc)?;
            self.take_pieces(line.replace(alloc, '*', digits.as_str())?.as_str())?;
        }
        Ok(())
    }

    fn repeat(&mut self, rest: &str) -> io::Result<()> {
        let (count, code) = rest.split_once(' ').ok_or(malformed())?;
        let byte = match code.as_bytes() {
            [high, low] => byte_of(*high, *low)?,
            _ => return Err(malformed()),
        };
        for _ in 0..number_of(count)? {
            self.script.push(byte)?;
        }
        Ok(())
    }

    /// Runs the script, or does what the arguments say.
    pub fn run<R: Threads + Wait + Sync>(
        &self,
        rt: &R,
        alloc: Global,
    ) -> Result<Ended, AllocError> {
        let mut input = GivenBytes {
            left: &self.script,
            piece: self.piece,
            interruptions: self.interruptions,
            breaks: self.breaks,
        };
        let mut output = Output::new(Narrow::new(alloc, self.room));
        let mut errors = Output::new(Narrow::new(alloc, self.errors_room));
        let status = if self.words.is_empty() {
            engine(alloc, &mut input, &mut output, &mut errors)?
        } else {
            load(rt, alloc, &self.words, &mut output, &mut errors)?
        };
        Ok(Ended {
            status,
            printed: output.into_writer().into_bytes(),
            told: errors.into_writer().into_bytes(),
        })
    }

    /// The status that is wanted: 0 where nothing is told, and all is printed.
    fn status(&self) -> u8 {
        if self.told.is_empty() && self.printed.len() <= self.room {
            0
        } else {
            1
        }
    }

    /// Returns whether it ended as it had to.
    pub fn is_right(&self, ended: &Ended) -> bool {
        let is_same = ended.status == self.status()
            && ended.printed.as_slice() == fitting(&self.printed, self.room)
            && ended.told.as_slice() == fitting(&self.told, self.errors_room);
        is_same != self.differs
    }
}

impl Ended {
    /// Tells of a case of this file that ends at this line how it ended.
    pub fn tell(&self, rt: &impl Eprint, name: &str, line: usize) -> io::Result<()> {
        let printed = str::from_utf8(&self.printed).unwrap_or("?");
        let told = str::from_utf8(&self.told).unwrap_or("?");
        eprintln!(rt;
            "{name}: the case up to line {line} ended with status {}, printed\n{printed}and told\n{told}",
            self.status
        )
    }
}

fn append_line(out: &mut Vec<u8>, text: &str) -> io::Result<()> {
    append_text(out, text)?;
    out.push(b'\n')?;
    Ok(())
}

fn number_of(word: &str) -> io::Result<usize> {
    word.parse::<usize>().ok().ok_or(malformed())
}

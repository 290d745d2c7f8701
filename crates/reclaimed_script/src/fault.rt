//! Why a script gives no schedule.
ghost use Rattle.std.specs.Prelude.{◌≡◌};
ghost use Rattle.reclaimed_script.specs.FaultTexts.{fault_text};
ghost use Rattle.reclaimed_script.specs.declared.fault.LineStop.TheVariants.{Fault, Memory};

use std::alloc::AllocError;

/// What is wrong with a line: the first of these that holds.
#[derive(Clone, Copy)]
pub enum LineFault {
    /// It has more than 256 bytes.
    TooLong,
    /// Its number is above 1,000,000.
    TooManyLines,
    /// Its first word names no event.
    UnknownEvent,
    /// The event takes more words or fewer.
    WrongNumberOfWords,
    /// A word is no name, no value or no number as it stands.
    BadWord,
}

impl LineFault {
    /// Returns what is printed for it.
    pub fn text(self) -> &'static str
        ensures { result.now ≡ fault_text self }
    {
        match self {
            LineFault::TooLong => "line too long",
            LineFault::TooManyLines => "too many lines",
            LineFault::UnknownEvent => "unknown event",
            LineFault::WrongNumberOfWords => "wrong number of words",
            LineFault::BadWord => "bad word",
        }
    }
}

/// Why reading a script ended before its end.
#[derive(Clone, Copy)]
pub enum ScriptStop {
    /// The first faulty line, counted from 1, and its fault.
    Line { number: u64, fault: LineFault },
    /// The input failed after this many whole lines.
    ReadFailed { lines: u64 },
    /// Memory ran out when this many lines were read.
    NoMemory { lines: u64 },
}

/// Why a line gives no event.
#[derive(Drop)]
pub enum LineStop {
    Fault(LineFault),
    Memory,
}

impl From<LineFault> for LineStop {
    ghost from_gives = { λ fault stop. stop ≡ Fault fault };

    fn from(fault: LineFault) -> LineStop {
        LineStop::Fault(fault)
    }
}

impl From<AllocError> for LineStop {
    ghost from_gives = { λ _ stop. stop ≡ Memory };

    fn from(_error: AllocError) -> LineStop {
        LineStop::Memory
    }
}

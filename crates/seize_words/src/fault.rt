//! What a call can be refused for.
ghost use Rattle.std.specs.Prelude.{◌≡◌, Some};
ghost use Rattle.seize_words.specs.OneMemory.Fault.{name_of, number_of, text_of};
ghost use Rattle.seize_words.specs.declared.fault.Fault.TheVariants.{Memory};

use std::alloc::{AllocError, AllocFailed};
use std::error::Error;
use std::{fmt, io};

/// Why an event was refused. The faults are tested in this order.
#[derive(Clone, Copy, Debug, PartialEq, Eq)]
pub enum Fault {
    /// A guard, registration or pass of another collector. Nothing changed.
    ForeignGuard,
    /// A chunk of no places. No map was made.
    ZeroChunk,
    /// A table of more than 2^48 places, or a count past 64 bits. No pair changed.
    Capacity,
    /// Each slot was in use. Nothing changed.
    SlotsUsedUp,
    /// The id source has given its last number. Nothing changed.
    CollectorsUsedUp,
    /// Each root link was in use. No map was made.
    RootsUsedUp,
    /// The registration has as many guards as it can count. Nothing changed.
    GuardsFull,
    /// A removal where there is nothing. No pair changed.
    RemoveNothing,
    /// An event out of turn, or of an unknown name. Nothing changed.
    Busy,
    /// A growth was refused. No pair changed.
    Memory,
}

impl Fault {
    /// Returns its number, 1 to 10.
    pub fn number(self) -> u8
        ensures { result ≡ number_of self }
    {
        self as u8 + 1
    }

    /// Returns its name, as printed.
    pub fn name(self) -> &'static str
        ensures { result.now ≡ name_of self }
    {
        match self {
            Fault::ForeignGuard => "ForeignGuard",
            Fault::ZeroChunk => "ZeroChunk",
            Fault::Capacity => "Capacity",
            Fault::SlotsUsedUp => "SlotsUsedUp",
            Fault::CollectorsUsedUp => "CollectorsUsedUp",
            Fault::RootsUsedUp => "RootsUsedUp",
            Fault::GuardsFull => "GuardsFull",
            Fault::RemoveNothing => "RemoveNothing",
            Fault::Busy => "Busy",
            Fault::Memory => "Memory",
        }
    }

    /// Returns its name, and what it says in a few words.
    pub fn text(self) -> &'static str
        ensures { result.now ≡ text_of self }
    {
        match self {
            Fault::ForeignGuard =>
                "ForeignGuard: a guard, registration or pass of another collector",
            Fault::ZeroChunk => "ZeroChunk: a chunk has no places",
            Fault::Capacity => "Capacity: a table would be too long, or a count too great",
            Fault::SlotsUsedUp => "SlotsUsedUp: each slot is in use",
            Fault::CollectorsUsedUp => "CollectorsUsedUp: each number of a collector was given",
            Fault::RootsUsedUp => "RootsUsedUp: each root is in use",
            Fault::GuardsFull => "GuardsFull: the registration can count no further guard",
            Fault::RemoveNothing => "RemoveNothing: nothing is there to be removed",
            Fault::Busy => "Busy: out of turn, or of an unknown name",
            Fault::Memory => "Memory: memory was refused",
        }
    }
}

impl fmt::Display for Fault {
    ghost output = { λ fault. Some (text_of fault) };

    fn fmt<W: fmt::Write>(&self, f: &mut fmt::Formatter<W>) -> fmt::Result {
        f.write_str(self.text())
    }
}

impl Error for Fault {}

impl From<Fault> for io::Error {
    fn from(fault: Fault) -> io::Error {
        io::Error::other(fault.text())
    }
}

impl From<AllocError> for Fault {
    ghost from_gives = { λ _ e. e ≡ Memory };

    fn from(_error: AllocError) -> Fault {
        Fault::Memory
    }
}

impl<T: Drop> From<AllocFailed<T>> for Fault {
    ghost from_gives = { λ _ e. e ≡ Memory };

    fn from(_error: AllocFailed<T>) -> Fault {
        Fault::Memory
    }
}

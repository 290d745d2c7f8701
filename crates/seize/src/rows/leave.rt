//! A slot's section ends: its list is taken, and counted down.
ghost use Rattle.std.specs.Prelude.{◌≡◌, true, false};
ghost use Rattle.seize_words.specs.OneMemory.Plan.{May, Steps};
ghost use Rattle.seize.specs.declared.rows.leave.Leaving.TheVariants as at;
ghost use Rattle.seize.specs.declared.states.TheConstants.{IDLE, ACTIVE};
ghost use Rattle.seize.specs.Leave.{leaving, counted_down, standing, swaps, settled, frees, leave_plan};

use crate::machine::StepMachine;
use crate::rows::settle::{Settle, Settled};
use crate::states::{ACTIVE, FREE, HEAD, IDLE};
use seize_words::{At, Defers, Memory};

/// Where a leaving stands.
#[derive(Clone, Copy)]
pub enum Leaving {
    /// Takes the slot's list: here its section ends.
    Swaps,
    /// Counts the list down.
    Settles(Settle),
    /// Makes the slot free again.
    Frees,
    /// It has ended.
    Over,
}

/// A slot's section ends: its whole list is taken and counted down. A refresh begins the next section with its last step.
#[derive(Clone, Copy)]
pub struct Leave {
    /// The slot.
    pub slot: u64,
    /// The length from which on a batch is tried.
    pub batch_size: u64,
    /// What its head becomes: `IDLE`, or `ACTIVE` where the next section begins.
    pub becomes: u64,
    /// Whether the slot's number is free again after it.
    pub frees: bool,
    /// Where it stands.
    pub stands: Leaving,
}

impl Leave {
    /// Ends the section of a slot that stays taken.
    pub fn leave(slot: u64, batch_size: u64) -> Self
        ensures { result ≡ leaving slot batch_size IDLE false }
    {
        Leave::begin(slot, batch_size, IDLE, false)
    }

    /// Ends the section of a slot, and begins the next one.
    pub fn refresh(slot: u64, batch_size: u64) -> Self
        ensures { result ≡ leaving slot batch_size ACTIVE false }
    {
        Leave::begin(slot, batch_size, ACTIVE, false)
    }

    /// Ends the section of a slot, and gives its number up.
    pub fn leave_owned(slot: u64, batch_size: u64) -> Self
        ensures { result ≡ leaving slot batch_size IDLE true }
    {
        Leave::begin(slot, batch_size, IDLE, true)
    }

    /// A slot that leaves: what its head becomes, and whether its number is free again after it.
    fn begin(slot: u64, batch_size: u64, becomes: u64, frees: bool) -> Self
        ensures { result ≡ leaving slot batch_size becomes frees }
    {
        Leave {
            slot,
            batch_size,
            becomes,
            frees,
            stands: Leaving::Swaps,
        }
    }

    /// Takes the slot's list. A head that names no entry has none.
    fn swaps<T, M: Memory<T>>(&mut self, memory: &mut M) -> Settled<T>
        requires { May M.can M.took M.shown memory.old (swaps self.old) }
        ensures { Steps M.took M.shown memory.old (swaps self.old) memory.new (self.new, result) }
    {
        let head = memory.swap(At::Slot(self.slot, HEAD), self.becomes);
        if head > ACTIVE {
            self.stands = Leaving::Settles(Settle::count_down(self.slot, self.batch_size, head));
        } else {
            self.go_on();
        }
        Settled::Goes
    }

    /// Takes a step of the settling, where it stands.
    fn settles<T: Defers, M: Memory<T>>(&mut self, memory: &mut M) -> Settled<T>
        requires settling { (settle : Settle) × (self.old.stands ≡ at.Settles settle) }
        requires may { May M.can M.took M.shown memory.old (leave_plan T.defers self.old) }
        ensures { Steps M.took M.shown memory.old (leave_plan T.defers self.old) memory.new (self.new, result) }
    {
        let Leaving::Settles(settle) = &mut self.stands else {
            unreachable!()
        };
        let progress = settle.step(memory);
        self.settled(progress)
    }

    /// Goes on after a step of the settling.
    fn settled<T>(&mut self, progress: Settled<T>) -> Settled<T>
        ensures { (begun : Leave) (settle : Settle) → self.old ≡ standing begun (at.Settles settle) → (self.new, result) ≡ settled begun (settle, progress) }
    {
        match progress {
            Settled::Goes => Settled::Goes,
            Settled::Waits => Settled::Waits,
            Settled::Gave(value) => Settled::Gave(value),
            Settled::Done => {
                self.go_on();
                Settled::Goes
            }
        }
    }

    /// Makes the slot free again.
    fn frees<T, M: Memory<T>>(&mut self, memory: &mut M) -> Settled<T>
        requires { May M.can M.took M.shown memory.old (frees self.old) }
        ensures { Steps M.took M.shown memory.old (frees self.old) memory.new (self.new, result) }
    {
        memory.store(At::Slot(self.slot, HEAD), FREE);
        self.stands = Leaving::Over;
        Settled::Goes
    }

    /// Goes on once the list is counted down.
    fn go_on(&mut self)
        ensures { self.new ≡ counted_down self.old }
    {
        self.stands = if self.frees {
            Leaving::Frees
        } else {
            Leaving::Over
        };
    }
}

impl<T: Defers> StepMachine<T> for Leave {
    type Progress = Settled<T>;

    ghost plan = { leave_plan T.defers };

    fn step<M: Memory<T>>(&mut self, memory: &mut M) -> Settled<T> {
        match self.stands {
            Leaving::Swaps => self.swaps(memory),
            Leaving::Settles(_) => self.settles(memory),
            Leaving::Frees => self.frees(memory),
            Leaving::Over => Settled::Done,
        }
    }
}

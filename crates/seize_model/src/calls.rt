//! Slots are taken, entered and given up, and values are reclaimed, each in one whole call.
ghost use Rattle.std.specs.Prelude.{◌≡◌, ℕ, ◌<◌, ◌^◌, List, [], IsSome, Some, false, ◌+◌};
ghost use Rattle.seize.specs.Given.SeizeWordsMem.{Mem, word_at};
ghost use Rattle.seize.specs.Given.SeizeWordsDeclared.at.At.TheVariants.{Slot};
ghost use Rattle.seize.specs.World.{Outside, Inside, Cutting, IsTaken, MayStep, Request, Retire, Flush, Leave', LeaveOwned, Refresh};
ghost use Rattle.seize_model.specs.Alone.Alone.{History, IsHistory, IsMidway, Continues, RegisteringAnswers, registered, entered, given_up, row_of, CallSteps, Spares, SameLinks, SameLeft, blocks_in};

use seize::rows::{Defers, Enter, Leave, Register, Settle, Settled, Unregister};
use seize::states::{FREE, HEAD, IDLE, LAST_SLOT};
use seize::{Advance, At, Fault, Link, Memory, Plain, StepMachine};

/// A call that may reclaim values while it runs.
#[derive(Clone, Copy)]
pub enum WholeCall {
    /// A block is retired, or a slot's batch is flushed.
    Settles(Settle),
    /// A slot's section ends, and another one may begin.
    Leaves(Leave),
}

/// Takes the least slot that is vacant, and enters it if asked to. The faults are `Fault::SlotsUsedUp`, where no slot is vacant, and
/// `Fault::Memory`, where that slot was never taken, and the words that it needs are not there and were refused; then nothing has happened.
pub fn register<T: Defers>(memory: &mut Plain<T>, enters: bool) -> Result<u64, Fault>
    requires { (batch_size : ℕ) × (roots : ℕ) × (h : History) × IsHistory T.defers batch_size roots memory.old h }
    ensures told { (batch_size roots : ℕ) (h : History) → IsHistory T.defers batch_size roots memory.old h → RegisteringAnswers T.defers batch_size roots memory.new enters h result }
    ensures spares { Spares memory.old memory.new [] }
    ensures links { SameLinks memory.old memory.new }
{
    let mut row = Register::new(enters);
    loop {
        match row.step(memory) {
            Advance::Goes | Advance::Waits => {}
            Advance::Done(slot) => return Ok(slot),
            Advance::Refused(fault) => return Err(fault),
        }
    }
}

/// Enters a slot that is registered: its section begins.
pub fn enter<T: Defers>(memory: &mut Plain<T>, slot: u64)
    requires { (batch_size : ℕ) × (roots : ℕ) × (h : History) × IsHistory T.defers batch_size roots memory.old h × (h.uses slot ≡ Outside 0) }
    ensures history { (batch_size roots : ℕ) (h : History) → IsHistory T.defers batch_size roots memory.old h → h.uses slot ≡ Outside 0 → IsHistory T.defers batch_size roots memory.new (entered slot h) }
    ensures spares { Spares memory.old memory.new [] }
    ensures links { SameLinks memory.old memory.new }
{
    let _ = Enter { slot }.step(memory);
}

/// Gives up a slot with no section: it is vacant again.
pub fn unregister<T: Defers>(memory: &mut Plain<T>, slot: u64)
    requires { (batch_size : ℕ) × (roots : ℕ) × (h : History) × IsHistory T.defers batch_size roots memory.old h × (h.uses slot ≡ Outside 0) }
    ensures history { (batch_size roots : ℕ) (h : History) → IsHistory T.defers batch_size roots memory.old h → h.uses slot ≡ Outside 0 → IsHistory T.defers batch_size roots memory.new (given_up slot h) }
    ensures spares { Spares memory.old memory.new [] }
    ensures links { SameLinks memory.old memory.new }
{
    let _ = Unregister { slot }.step(memory);
}

/// Takes a slot again that was given up, where each slot below it is registered and has no section.
pub fn retake<T: Defers>(memory: &mut Plain<T>, slot: u64)
    requires slot { slot < LAST_SLOT + 1 }
    requires free { word_at memory.old (Slot slot HEAD) ≡ Some FREE }
    requires may { (batch_size : ℕ) × (roots : ℕ) × (h : History) × IsHistory T.defers batch_size roots memory.old h × ((s : ℕ) → s < slot → h.uses s ≡ Outside 0) }
    ensures history { (batch_size roots : ℕ) (h : History) → IsHistory T.defers batch_size roots memory.old h → ((s : ℕ) → s < slot → h.uses s ≡ Outside 0) → IsHistory T.defers batch_size roots memory.new (registered false slot h) }
    ensures spares { Spares memory.old memory.new [] }
    ensures links { SameLinks memory.old memory.new }
{
    memory.store(At::Slot(slot, HEAD), IDLE);
}

impl WholeCall {
    /// Retires a block that cannot be reached any more, under a slot that is registered.
    pub fn retire<T: Defers>(_memory: &Plain<T>, slot: u64, batch_size: u64, block: u64) -> Self
        requires block { block < 2 ^ 53 }
        requires may { (roots : ℕ) × (h : History) × IsHistory T.defers batch_size roots _memory.now h × IsTaken (h.uses slot) × (h.hand block ≡ Cutting 0) }
        ensures { (roots : ℕ) (h : History) → IsHistory T.defers batch_size roots _memory.now h → IsTaken (h.uses slot) → h.hand block ≡ Cutting 0 → IsMidway T.defers batch_size roots _memory.now h (Retire slot block) (row_of result) _memory.now [] }
    {
        WholeCall::Settles(Settle::retire(slot, batch_size, Link::to(block)))
    }

    /// Tries the batch of a slot that is registered, at any length above 0.
    pub fn flush<T: Defers>(_memory: &Plain<T>, slot: u64, batch_size: u64) -> Self
        requires { (roots : ℕ) × (h : History) × IsHistory T.defers batch_size roots _memory.now h × IsTaken (h.uses slot) }
        ensures { (roots : ℕ) (h : History) → IsHistory T.defers batch_size roots _memory.now h → IsTaken (h.uses slot) → IsMidway T.defers batch_size roots _memory.now h (Flush slot) (row_of result) _memory.now [] }
    {
        WholeCall::Settles(Settle::flush(slot, batch_size))
    }

    /// Ends the section of a slot, which stays registered.
    pub fn leave<T: Defers>(_memory: &Plain<T>, slot: u64, batch_size: u64) -> Self
        requires { (roots : ℕ) × (h : History) × IsHistory T.defers batch_size roots _memory.now h × (h.uses slot ≡ Inside 0) }
        ensures { (roots : ℕ) (h : History) → IsHistory T.defers batch_size roots _memory.now h → h.uses slot ≡ Inside 0 → IsMidway T.defers batch_size roots _memory.now h (Leave' slot) (row_of result) _memory.now [] }
    {
        WholeCall::Leaves(Leave::leave(slot, batch_size))
    }

    /// Ends the section of a slot, and gives the slot up.
    pub fn leave_owned<T: Defers>(_memory: &Plain<T>, slot: u64, batch_size: u64) -> Self
        requires { (roots : ℕ) × (h : History) × IsHistory T.defers batch_size roots _memory.now h × (h.uses slot ≡ Inside 0) }
        ensures { (roots : ℕ) (h : History) → IsHistory T.defers batch_size roots _memory.now h → h.uses slot ≡ Inside 0 → IsMidway T.defers batch_size roots _memory.now h (LeaveOwned slot) (row_of result) _memory.now [] }
    {
        WholeCall::Leaves(Leave::leave_owned(slot, batch_size))
    }

    /// Ends the section of a slot, and begins its next one.
    pub fn refresh<T: Defers>(_memory: &Plain<T>, slot: u64, batch_size: u64) -> Self
        requires { (roots : ℕ) × (h : History) × IsHistory T.defers batch_size roots _memory.now h × (h.uses slot ≡ Inside 0) }
        ensures { (roots : ℕ) (h : History) → IsHistory T.defers batch_size roots _memory.now h → h.uses slot ≡ Inside 0 → IsMidway T.defers batch_size roots _memory.now h (Refresh slot) (row_of result) _memory.now [] }
    {
        WholeCall::Leaves(Leave::refresh(slot, batch_size))
    }

    /// Goes on until a value is reclaimed, and answers it, or until the call has ended.
    pub fn next<T: Defers>(&mut self, memory: &mut Plain<T>) -> Option<T>
        requires { (batch_size : ℕ) × (roots : ℕ) × (m : Mem T) × (h : History) × (request : Request) × (given : List T) × IsMidway T.defers batch_size roots m h request (row_of self.old) memory.old given }
        ensures fewer { IsSome result → blocks_in memory.new < blocks_in memory.old }
        ensures goes { (batch_size roots : ℕ) (m : Mem T) (h : History) (request : Request) (given : List T) → IsMidway T.defers batch_size roots m h request (row_of self.old) memory.old given → Continues T.defers batch_size roots m h request given (row_of self.new) memory.new result }
        ensures left { (batch_size roots : ℕ) (m : Mem T) (h : History) (request : Request) (given : List T) → IsMidway T.defers batch_size roots m h request (row_of self.old) memory.old given → SameLeft h m memory.new }
    {
        loop {
            match self.step(memory) {
                Settled::Goes | Settled::Waits => {}
                Settled::Gave(value) => return Some(value),
                Settled::Done => return None,
            }
        }
    }

    /// One step.
    fn step<T: Defers>(&mut self, memory: &mut Plain<T>) -> Settled<T>
        requires { MayStep T.defers (row_of self.old) memory.old }
        ensures { CallSteps T.defers memory.old self.old memory.new self.new result }
    {
        match *self {
            WholeCall::Settles(mut settle) => {
                let progress = settle.step(memory);
                *self = WholeCall::Settles(settle);
                progress
            }
            WholeCall::Leaves(mut leave) => {
                let progress = leave.step(memory);
                *self = WholeCall::Leaves(leave);
                progress
            }
        }
    }
}

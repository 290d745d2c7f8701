//! The first slot that can be taken is taken.
ghost use Rattle.std.specs.Prelude.{◌≡◌};
ghost use Rattle.seize.specs.Register.{bucket_needed, NeedsEnough, NeedsTheNext, going, refused, registered, further, plan_at};
ghost use Rattle.seize_words.specs.OneMemory.Plan.{May, Steps};

use crate::advance::Advance;
use crate::machine::StepMachine;
use crate::states::{ACTIVE, FREE, HEAD, IDLE, LAST_SLOT, NEVER};
use seize_words::slots::place_of;
use seize_words::{At, Fault, Memory};

/// Where registering stands.
#[derive(Clone, Copy)]
pub enum Registering {
    /// The words of the first bucket of slots are to be there.
    Begin,
    /// The slot's head is to be read.
    Look,
    /// The slot can be taken, but first the words of the bucket behind it are to be there.
    Widen {
        /// That bucket.
        bucket: u64,
        /// The head that was read.
        seen: u64,
    },
    /// The slot is to be taken, if its head is still the one that was read.
    Take {
        /// The head that was read.
        seen: u64,
    },
    /// The slot is taken, and to be made active.
    Enter,
    /// It has ended, and the slot is taken.
    Registered,
    /// It has ended without a slot.
    Refused(Fault),
}

/// Registering: it tries the slots in ascending order, and takes the first one that no other caller has. It is refused as
/// `Fault::SlotsUsedUp` where each slot is in use, and as `Fault::Memory` where there is none for the words of slots.
#[derive(Drop)]
pub struct Register {
    /// The slot that it has come to, and in the end the one it has taken.
    pub slot: u64,
    /// Whether the slot is made active, too, as an owned guard's is.
    pub enters: bool,
    /// Where it stands.
    pub stands: Registering,
}

/// Registering makes room in time. When it takes a slot, the words of the slot behind it are there, if there is a slot behind:
/// either they were before, or they are in the bucket that it has asked for, which could be made then.
pub fn room_is_made_in_time()
    ensures enough { NeedsEnough }
    ensures next { NeedsTheNext }
{}

/// Returns the bucket whose words must be there before a slot is taken: where the slot is the last of its bucket, the next one.
pub fn needed_bucket(slot: u64) -> Option<u64>
    ensures { result ≡ bucket_needed slot }
{
    if slot >= LAST_SLOT {
        return None;
    }
    let (bucket, index) = place_of(slot + 1);
    if index == 0 { Some(bucket) } else { None }
}

impl Register {
    /// Begins a registering; `enters` says whether the slot is made active, too.
    pub fn new(enters: bool) -> Self
        ensures { result ≡ record { slot = 0; enters = enters; stands = Registering.Begin } }
    {
        Register {
            slot: 0,
            enters,
            stands: Registering::Begin,
        }
    }

    fn refuse(&mut self, fault: Fault) -> Advance<u64>
        ensures { (self.new, result) ≡ refused self.old fault }
    {
        self.stands = Registering::Refused(fault);
        Advance::Refused(fault)
    }

    fn go_to(&mut self, stands: Registering) -> Advance<u64>
        ensures { (self.new, result) ≡ going self.old stands }
    {
        self.stands = stands;
        Advance::Goes
    }

    fn advance(&mut self) -> Advance<u64>
        ensures { (self.new, result) ≡ further self.old }
    {
        if self.slot < LAST_SLOT {
            self.slot += 1;
            self.go_to(Registering::Look)
        } else {
            self.refuse(Fault::SlotsUsedUp)
        }
    }

    fn end(&mut self) -> Advance<u64>
        ensures { (self.new, result) ≡ registered self.old }
    {
        self.stands = Registering::Registered;
        Advance::Done(self.slot)
    }

    fn begin<T, M: Memory<T>>(&mut self, memory: &mut M) -> Advance<u64>
        requires { May M.can M.took M.shown memory.old (plan_at self.old Registering.Begin) }
        ensures { Steps M.took M.shown memory.old (plan_at self.old Registering.Begin) memory.new (self.new, result) }
    {
        match memory.room(0) {
            Ok(()) => self.go_to(Registering::Look),
            Err(fault) => self.refuse(fault),
        }
    }

    fn look<T, M: Memory<T>>(&mut self, memory: &mut M) -> Advance<u64>
        requires { May M.can M.took M.shown memory.old (plan_at self.old Registering.Look) }
        ensures { Steps M.took M.shown memory.old (plan_at self.old Registering.Look) memory.new (self.new, result) }
    {
        let seen = memory.load(At::Slot(self.slot, HEAD));
        if seen == NEVER || seen == FREE {
            match needed_bucket(self.slot) {
                Some(bucket) => self.go_to(Registering::Widen { bucket, seen }),
                None => self.go_to(Registering::Take { seen }),
            }
        } else {
            self.advance()
        }
    }

    fn widen<T, M: Memory<T>>(&mut self, memory: &mut M, bucket: u64, seen: u64) -> Advance<u64>
        requires { May M.can M.took M.shown memory.old (plan_at self.old (Registering.Widen bucket seen)) }
        ensures { Steps M.took M.shown memory.old (plan_at self.old (Registering.Widen bucket seen)) memory.new (self.new, result) }
    {
        match memory.room(bucket) {
            Ok(()) => self.go_to(Registering::Take { seen }),
            Err(fault) => self.refuse(fault),
        }
    }

    fn take<T, M: Memory<T>>(&mut self, memory: &mut M, seen: u64) -> Advance<u64>
        requires { May M.can M.took M.shown memory.old (plan_at self.old (Registering.Take seen)) }
        ensures { Steps M.took M.shown memory.old (plan_at self.old (Registering.Take seen)) memory.new (self.new, result) }
    {
        match memory.exchange(At::Slot(self.slot, HEAD), seen, IDLE) {
            Ok(_) if self.enters => self.go_to(Registering::Enter),
            Ok(_) => self.end(),
            Err(_) => self.advance(),
        }
    }

    fn enter<T, M: Memory<T>>(&mut self, memory: &mut M) -> Advance<u64>
        requires { May M.can M.took M.shown memory.old (plan_at self.old Registering.Enter) }
        ensures { Steps M.took M.shown memory.old (plan_at self.old Registering.Enter) memory.new (self.new, result) }
    {
        memory.store(At::Slot(self.slot, HEAD), ACTIVE);
        self.end()
    }
}

impl<T> StepMachine<T> for Register {
    ghost use Rattle.seize.specs.Register.{register_plan};

    type Progress = Advance<u64>;

    ghost plan = { register_plan };

    fn step<M: Memory<T>>(&mut self, memory: &mut M) -> Advance<u64> {
        match self.stands {
            Registering::Begin => self.begin(memory),
            Registering::Look => self.look(memory),
            Registering::Widen { bucket, seen } => self.widen(memory, bucket, seen),
            Registering::Take { seen } => self.take(memory, seen),
            Registering::Enter => self.enter(memory),
            Registering::Registered => Advance::Done(self.slot),
            Registering::Refused(fault) => Advance::Refused(fault),
        }
    }
}

//! A slot that is held, and its section, which is open or not.
ghost use Rattle.std.specs.Prelude.{◌≡◌, ◌<◌, ◌^◌, Some, IfOk, IfErr, true, false};
ghost use Rattle.seize_shared.specs.OnThreads.Refused.{HasNoSlot};
ghost use Rattle.seize_shared.specs.OnThreads.Standing.{standing};
ghost use Rattle.seize_views.specs.declared.view.Began.TheVariants.{Section, Trial};

mod roots;

use crate::shared::Shared;
use seize::rows::Defers;
use seize_blocks::Blocks;
use seize_callers::Caller;
use seize_views::{Content, Fixed, OfRows};
use seize_words::{Fault, Receiver};

/// Why no slot is taken, as it is told: where it is not that each is in use it is memory.
pub(crate) fn refusal(fault: Fault) -> Fault
    ensures { HasNoSlot result }
{
    match fault {
        Fault::SlotsUsedUp => Fault::SlotsUsedUp,
        _ => Fault::Memory,
    }
}

/// A caller who holds a slot: whether its section is open, which block was seen there, 0 for none, and how many seats watch that section. The slot is given up
/// as this ends, but for one whose section somebody has forgotten to watch no longer.
pub struct Stay<'a, T: Defers + Drop, C: Content<T> = OfRows> {
    /// Who it is.
    pub caller: Caller<'a, T, C>,
    /// The slot.
    pub slot: u64,
    /// How many roots there are of single blocks.
    pub roots: u64,
    /// How many of chains.
    pub chains: u64,
    /// Whether its section is open.
    pub inside: bool,
    /// The block that was seen there, 0 for none.
    pub seen: u64,
    /// How many seats watch that section.
    pub guards: u64,
    ghost counted: { (C.notes caller.seat.view).guards ≡ guards },
    ghost stands: { standing (C.notes caller.seat.view).knows ≡ Some (slot, inside, seen) },
    ghost rooted: { caller.blocks.now.words.fixed.roots ≡ roots },
    ghost chained: { caller.blocks.now.words.fixed.chains ≡ chains },
    ghost few: { slot < 65536 },
    ghost fits: { seen < 2 ^ 53 },
}

impl<'a, T: Defers + Drop, C: Content<T>> Stay<'a, T, C> {
    /// Takes the first slot that can be taken. What was chosen as the memory was opened is handed in.
    pub fn new(blocks: &'a Blocks<T, C>, fixed: &Fixed) -> Result<Self, Fault>
        requires fixed { blocks.now.words.fixed ≡ fixed.now }
        ensures home { IfOk result (λ stay. stay.caller.blocks.now ≡ blocks.now) }
        ensures alone { IfOk result (λ stay. stay.guards ≡ 0) }
        ensures closed { IfOk result (λ stay. stay.inside ≡ false) }
        ensures refused { IfErr result (λ fault. HasNoSlot fault) }
    {
        let mut caller = Caller::new(blocks, fixed.batch_size);
        let slot = match caller.register() {
            Ok(slot) => slot,
            Err(fault) => return Err(refusal(fault)),
        };
        Ok(Stay {
            caller,
            slot,
            roots: fixed.roots,
            chains: fixed.chains,
            inside: false,
            seen: 0,
            guards: 0,
        })
    }

    /// Its collector, which has this number, for those who share it.
    pub(crate) fn shared<R: Receiver<T>>(&self, number: u64) -> Shared<'a, T, C, R>
        ensures home { result.blocks.now ≡ self.now.caller.blocks.now }
        ensures number { result.number ≡ number }
    {
        let chosen = Fixed {
            batch_size: self.caller.batch_size(),
            roots: self.roots,
            chains: self.chains,
        };
        Shared::of(self.caller.blocks(), chosen, number)
    }

    /// Begins a section anew, or opens one.
    pub fn refreshes(&mut self)
        requires alone { self.old.guards ≡ 0 }
        ensures home { self.new.caller.blocks ≡ self.old.caller.blocks }
        ensures beside { C.beside self.new.caller.seat.view ≡ C.beside self.old.caller.seat.view }
        ensures slot { self.new.slot ≡ self.old.slot }
        ensures guards { self.new.guards ≡ self.old.guards }
        ensures inside { self.new.inside ≡ true }
        ensures fresh { self.new.seen ≡ 0 }
        ensures began { (C.notes self.new.caller.seat.view).began ≡ Section }
    {
        if self.inside {
            self.caller.refresh(self.slot);
        } else {
            self.caller.enter(self.slot);
            self.inside = true;
        }
        self.seen = 0;
    }

    /// Opens a section, where none is open. What was seen is not known any more.
    pub fn opens(&mut self)
        ensures home { self.new.caller.blocks ≡ self.old.caller.blocks }
        ensures beside { C.beside self.new.caller.seat.view ≡ C.beside self.old.caller.seat.view }
        ensures slot { self.new.slot ≡ self.old.slot }
        ensures guards { self.new.guards ≡ self.old.guards }
        ensures inside { self.new.inside ≡ true }
        ensures fresh { self.new.seen ≡ 0 }
    {
        if self.inside {
            self.caller.forgets(self.slot);
        } else {
            self.caller.enter(self.slot);
            self.inside = true;
        }
        self.seen = 0;
    }

    /// Ends the section that is open, if one is.
    pub fn closes(&mut self)
        requires alone { self.old.guards ≡ 0 }
        ensures home { self.new.caller.blocks ≡ self.old.caller.blocks }
        ensures beside { C.beside self.new.caller.seat.view ≡ C.beside self.old.caller.seat.view }
        ensures slot { self.new.slot ≡ self.old.slot }
        ensures guards { self.new.guards ≡ self.old.guards }
        ensures closed { self.new.inside ≡ false }
    {
        if self.inside {
            self.caller.leave(self.slot);
            self.inside = false;
        }
        self.seen = 0;
    }

    /// Lets go of what was seen.
    fn forgets(&mut self)
        ensures home { self.new.caller.blocks ≡ self.old.caller.blocks }
        ensures beside { C.beside self.new.caller.seat.view ≡ C.beside self.old.caller.seat.view }
        ensures slot { self.new.slot ≡ self.old.slot }
        ensures guards { self.new.guards ≡ self.old.guards }
        ensures inside { self.new.inside ≡ self.old.inside }
        ensures fresh { self.new.seen ≡ 0 }
    {
        if self.inside {
            self.caller.forgets(self.slot);
        }
        self.seen = 0;
    }

    /// Tries the slot's batch, whatever its length, where its section is open.
    pub fn flushes(&mut self)
        ensures home { self.new.caller.blocks ≡ self.old.caller.blocks }
        ensures beside { C.beside self.new.caller.seat.view ≡ C.beside self.old.caller.seat.view }
        ensures slot { self.new.slot ≡ self.old.slot }
        ensures guards { self.new.guards ≡ self.old.guards }
        ensures inside { self.new.inside ≡ self.old.inside }
        ensures fresh { self.new.seen ≡ 0 }
        ensures began { (C.notes self.new.caller.seat.view).began ≡ Trial }
    {
        if self.inside {
            self.caller.flush(self.slot);
        } else {
            self.caller.flush_idle(self.slot);
        }
        self.seen = 0;
    }
}

impl<'a, T: Defers + Drop, C: Content<T>> Drop for Stay<'a, T, C> {
    fn drop(self) {
        let Stay {
            caller,
            slot,
            roots: _,
            chains: _,
            inside,
            seen: _,
            guards,
        } = self;
        let mut caller = caller;
        if guards != 0 {
            caller.stays(slot);
            return;
        }
        if inside {
            caller.leave(slot);
        }
        caller.unregister(slot);
    }
}

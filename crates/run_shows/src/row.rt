//! Rows between calls: what a caller does with a slot.
ghost use Rattle.std.specs.Prelude.{◌≡◌};
ghost use Rattle.run_shows.specs.Scenes.Rows.{begun_row, change_of, left_by, taken_as, of_registering, of_settling, of_storing};

use seize::Advance;
use seize::rows::{Enter, Leave, Leaving, Register, Registering, Settle, Settled, Unregister};
use seize::states::ACTIVE;
use seize_words::Fault;

/// How a slot is used.
#[derive(Clone, Copy)]
pub enum SlotUse {
    /// Nobody is registered at it.
    Vacant,
    /// Somebody is registered at it, and it is not entered.
    Outside,
    /// It is entered.
    Inside,
    /// A row enters, leaves or refreshes it, or gives it up.
    Changing,
}

/// What a caller does with a slot.
#[derive(Clone, Copy)]
pub enum SlotCall {
    /// It takes the first slot that it finds, and enters it, too, if it is to.
    Register { enters: bool },
    /// It enters its slot.
    Enter,
    /// It leaves its slot.
    Leave,
    /// It leaves its slot, and gives it up.
    LeaveOwned,
    /// It leaves its slot, and enters it anew.
    Refresh,
    /// It tries the batch of its slot, at any length.
    Flush,
    /// It gives its slot up.
    Unregister,
}

/// A row that is under way between calls.
#[derive(Drop)]
pub enum SlotRow {
    /// A slot is taken.
    Registers(Register),
    /// A slot is entered.
    Enters(Enter),
    /// A slot is left, or refreshed.
    Leaves(Leave),
    /// A slot's batch is tried.
    Flushes(Settle),
    /// A slot is given up.
    Frees(Unregister),
}

/// How far a row is after a step.
#[derive(Drop)]
pub enum RowTold<T> {
    /// Further steps are needed.
    Goes,
    /// Nothing changed: another row holds the slot's batch. The same step is taken again.
    Waits,
    /// Further steps are needed, and this value was reclaimed.
    Gave(T),
    /// It has ended.
    Done,
    /// It has ended, and has taken this slot.
    Registered(u64),
    /// It has ended without a slot.
    Refused(Fault),
}

/// What a step of a row makes of a slot.
#[derive(Clone, Copy)]
pub enum SlotChange {
    /// The slot that it tells is used so from then on.
    Takes { used: SlotUse },
    /// This slot is used so.
    Becomes { slot: u64, used: SlotUse },
    /// None is used otherwise than before.
    Stays,
}

/// What a leaving makes of its slot by its next step.
fn left_by(leave: &Leave) -> SlotChange
    ensures { result ≡ left_by leave.now leave.now.stands }
{
    let slot = leave.slot;
    match leave.stands {
        Leaving::Frees => SlotChange::Becomes {
            slot,
            used: SlotUse::Vacant,
        },
        Leaving::Over if leave.frees => SlotChange::Stays,
        Leaving::Over if leave.becomes == ACTIVE => SlotChange::Becomes {
            slot,
            used: SlotUse::Inside,
        },
        Leaving::Over => SlotChange::Becomes {
            slot,
            used: SlotUse::Outside,
        },
        Leaving::Swaps | Leaving::Settles(_) => SlotChange::Stays,
    }
}

/// How the slot is used that a registering takes by its next step, if it takes one.
fn taken_as(stands: Registering) -> SlotUse
    ensures { result ≡ taken_as stands }
{
    match stands {
        Registering::Enter => SlotUse::Inside,
        _ => SlotUse::Outside,
    }
}

impl SlotRow {
    /// Returns what it makes of a slot by its next step.
    pub fn change(&self) -> SlotChange
        ensures { result ≡ change_of self.now }
    {
        match self {
            SlotRow::Registers(register) => {
                let used = taken_as(register.stands);
                SlotChange::Takes { used }
            }
            SlotRow::Enters(enter) => SlotChange::Becomes {
                slot: enter.slot,
                used: SlotUse::Inside,
            },
            SlotRow::Leaves(leave) => left_by(leave),
            SlotRow::Flushes(_) => SlotChange::Stays,
            SlotRow::Frees(unregister) => SlotChange::Becomes {
                slot: unregister.slot,
                used: SlotUse::Vacant,
            },
        }
    }
}

impl SlotCall {
    /// Begins the row, on this slot.
    pub fn begin(self, slot: u64, batch_size: u64) -> SlotRow
        ensures { result ≡ begun_row slot batch_size self }
    {
        match self {
            SlotCall::Register { enters } => SlotRow::Registers(Register::new(enters)),
            SlotCall::Enter => SlotRow::Enters(Enter { slot }),
            SlotCall::Leave => SlotRow::Leaves(Leave::leave(slot, batch_size)),
            SlotCall::LeaveOwned => SlotRow::Leaves(Leave::leave_owned(slot, batch_size)),
            SlotCall::Refresh => SlotRow::Leaves(Leave::refresh(slot, batch_size)),
            SlotCall::Flush => SlotRow::Flushes(Settle::flush(slot, batch_size)),
            SlotCall::Unregister => SlotRow::Frees(Unregister { slot }),
        }
    }
}

impl<T> RowTold<T> {
    /// Returns what a registering tells.
    pub fn of_registering(progress: Advance<u64>) -> Self
        ensures { result ≡ of_registering progress }
    {
        match progress {
            Advance::Goes => RowTold::Goes,
            Advance::Waits => RowTold::Waits,
            Advance::Done(slot) => RowTold::Registered(slot),
            Advance::Refused(fault) => RowTold::Refused(fault),
        }
    }

    /// Returns what a row of one store tells.
    pub fn of_storing(progress: Advance<()>) -> Self
        ensures { result ≡ of_storing progress }
    {
        match progress {
            Advance::Goes => RowTold::Goes,
            Advance::Waits => RowTold::Waits,
            Advance::Done(()) => RowTold::Done,
            Advance::Refused(fault) => RowTold::Refused(fault),
        }
    }

    /// Returns what a leaving or a flush tells.
    pub fn of_settling(progress: Settled<T>) -> Self
        ensures { result ≡ of_settling progress }
    {
        match progress {
            Settled::Goes => RowTold::Goes,
            Settled::Waits => RowTold::Waits,
            Settled::Gave(value) => RowTold::Gave(value),
            Settled::Done => RowTold::Done,
        }
    }
}

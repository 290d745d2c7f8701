//! A caller's seat on an errand: what leaves rest is done by it, and comes to rest again.
ghost use Rattle.std.specs.Prelude.{◌≡◌, ◌≢◌, ◌<◌, ◌+◌, None, true, false, IfOk, IfErr};
ghost use Rattle.seize.specs.declared.states.TheConstants.{LAST_SLOT};
ghost use Rattle.seize.specs.declared.rows.register.Registering.TheVariants.{Take};
ghost use Rattle.seize_callers.specs.Kept.{kept};
ghost use Rattle.seize_callers.specs.Seeking.{seeks};
ghost use Rattle.seize_views.specs.Views.Begun.{seeker_at};
ghost use Rattle.seize_views.specs.declared.view.Began.TheVariants.{Section};
ghost use Rattle.seize_views.specs.declared.view.SlotView.TheVariants.{Rests, Registers, Outside, Inside};
ghost use Rattle.seize_views.specs.declared.view.Has.TheVariants.{Nothing};

mod settling;

use seize::rows::{Defers, needed_bucket};
use seize::states::{ACTIVE, FREE, HEAD, IDLE, LAST_SLOT, NEVER};
use seize_blocks::{Blocks, Seat};
use seize_views::Content;
use seize_views::turns::{Entering, Freeing, RegisteringBegins};
use seize_words::{At, Fault, Look, Memory};

/// A caller's seat on an errand, with the memory. It is a memory for the rows that it has under way.
#[derive(Drop)]
pub(crate) struct Within<'a, T: Defers, C: Content<T>> {
    blocks: &'a Blocks<T, C>,
    batch_size: u64,
    seat: &'a mut Seat<T, C>,
    ghost own: { seat.now.base ≡ blocks.now.words.id.views_name },
    ghost sized: { blocks.now.words.fixed.batch_size ≡ batch_size },
    ghost away: { seat.now.away ≢ None },
}

impl<'a, T: Defers, C: Content<T>> Within<'a, T, C> {
    /// The errand begins.
    pub(crate) fn new(blocks: &'a Blocks<T, C>, batch_size: u64, seat: &'a mut Seat<T, C>) -> Self
        requires own { seat.old.base ≡ blocks.now.words.id.views_name }
        requires away { seat.old.away ≢ None }
        requires sized { blocks.now.words.fixed.batch_size ≡ batch_size }
        ensures name { result.seat.ghost_name ≡ seat.entry.ghost_name }
        ensures seat { result.seat.now ≡ seat.old }
        ensures blocks { result.blocks.now ≡ blocks.now }
    {
        Within {
            blocks,
            batch_size,
            seat,
        }
    }

    /// Begins to look for a slot.
    fn begin(&mut self) -> Result<(), Fault>
        requires rests { (C.notes self.old.seat.now.view).knows ≡ Rests }
        ensures looks { IfOk result (λ _. (C.notes self.new.seat.now.view).knows ≡ seeks 0) }
        ensures refused { IfErr result (λ fault. (C.notes self.new.seat.now.view).knows ≡ Rests) }
        ensures same { kept self.new.blocks self.new.seat.ghost_name self.new.seat.now.id self.new.seat.now.away
            ≡ kept self.old.blocks self.old.seat.ghost_name self.old.seat.now.id self.old.seat.now.away }
        ensures beside { C.beside self.new.seat.now.view ≡ C.beside self.old.seat.now.view }
        ensures guards { (C.notes self.new.seat.now.view).guards ≡ (C.notes self.old.seat.now.view).guards }
    {
        C::goes_on();
        self.blocks.part::<RegisteringBegins<T, C>>(&mut *self.seat);
        self.room(0)
    }

    /// Takes a slot whose head was seen so, if no other caller is faster.
    fn occupy(&mut self, slot: u64, seen: u64) -> bool
        requires { (C.notes self.old.seat.now.view).knows ≡ Registers (seeker_at slot (Take seen)) }
        ensures taken { result ≡ true → (C.notes self.new.seat.now.view).knows ≡ Outside slot }
        ensures lost { result ≡ false → (C.notes self.new.seat.now.view).knows ≡ seeks (slot + 1) }
        ensures same { kept self.new.blocks self.new.seat.ghost_name self.new.seat.now.id self.new.seat.now.away
            ≡ kept self.old.blocks self.old.seat.ghost_name self.old.seat.now.id self.old.seat.now.away }
        ensures beside { C.beside self.new.seat.now.view ≡ C.beside self.old.seat.now.view }
        ensures guards { (C.notes self.new.seat.now.view).guards ≡ (C.notes self.old.seat.now.view).guards }
    {
        self.exchange(At::Slot(slot, HEAD), seen, IDLE).is_ok()
    }

    /// Tries one slot, and tells whether it is taken.
    fn tries(&mut self, slot: u64) -> Result<bool, Fault>
        requires slot { slot < LAST_SLOT + 1 }
        requires seeks { (C.notes self.old.seat.now.view).knows ≡ seeks slot }
        ensures taken { IfOk result (λ t. t ≡ true → (C.notes self.new.seat.now.view).knows ≡ Outside slot) }
        ensures lost { IfOk result (λ t. t ≡ false → (C.notes self.new.seat.now.view).knows ≡ seeks (slot + 1)) }
        ensures refused { IfErr result (λ fault. (C.notes self.new.seat.now.view).knows ≡ Rests) }
        ensures same { kept self.new.blocks self.new.seat.ghost_name self.new.seat.now.id self.new.seat.now.away
            ≡ kept self.old.blocks self.old.seat.ghost_name self.old.seat.now.id self.old.seat.now.away }
        ensures beside { C.beside self.new.seat.now.view ≡ C.beside self.old.seat.now.view }
        ensures guards { (C.notes self.new.seat.now.view).guards ≡ (C.notes self.old.seat.now.view).guards }
    {
        let seen = self.load(At::Slot(slot, HEAD));
        if seen != NEVER && seen != FREE {
            return Ok(false);
        }
        if let Some(bucket) = needed_bucket(slot) {
            self.room(bucket)?;
        }
        Ok(self.occupy(slot, seen))
    }

    /// Takes the first slot that can be taken.
    pub(crate) fn register(&mut self) -> Result<u64, Fault>
        requires rests { (C.notes self.old.seat.now.view).knows ≡ Rests }
        ensures taken { IfOk result (λ slot. (C.notes self.new.seat.now.view).knows ≡ Outside slot) }
        ensures few { IfOk result (λ slot. slot < 65536) }
        ensures refused { IfErr result (λ fault. (C.notes self.new.seat.now.view).knows ≡ Rests) }
        ensures same { kept self.new.blocks self.new.seat.ghost_name self.new.seat.now.id self.new.seat.now.away
            ≡ kept self.old.blocks self.old.seat.ghost_name self.old.seat.now.id self.old.seat.now.away }
        ensures beside { C.beside self.new.seat.now.view ≡ C.beside self.old.seat.now.view }
        ensures guards { (C.notes self.new.seat.now.view).guards ≡ (C.notes self.old.seat.now.view).guards }
    {
        self.begin()?;
        for slot in 0..LAST_SLOT + 1 {
            if self.tries(slot)? {
                return Ok(slot);
            }
        }
        Err(Fault::SlotsUsedUp)
    }

    /// Opens a section of its slot.
    pub(crate) fn enter(&mut self, slot: u64)
        requires outside { (C.notes self.old.seat.now.view).knows ≡ Outside slot }
        ensures inside { (C.notes self.new.seat.now.view).knows ≡ Inside slot Nothing }
        ensures began { (C.notes self.new.seat.now.view).began ≡ Section }
        ensures same { kept self.new.blocks self.new.seat.ghost_name self.new.seat.now.id self.new.seat.now.away
            ≡ kept self.old.blocks self.old.seat.ghost_name self.old.seat.now.id self.old.seat.now.away }
        ensures beside { C.beside self.new.seat.now.view ≡ C.beside self.old.seat.now.view }
        ensures guards { (C.notes self.new.seat.now.view).guards ≡ (C.notes self.old.seat.now.view).guards }
    {
        C::goes_on();
        self.blocks.part::<Entering<T, C>>(&mut *self.seat);
        self.store(At::Slot(slot, HEAD), ACTIVE);
    }

    /// Gives its slot up.
    pub(crate) fn unregister(&mut self, slot: u64)
        requires outside { (C.notes self.old.seat.now.view).knows ≡ Outside slot }
        ensures rests { (C.notes self.new.seat.now.view).knows ≡ Rests }
        ensures began { (C.notes self.new.seat.now.view).began ≡ (C.notes self.old.seat.now.view).began }
        ensures did { (C.notes self.new.seat.now.view).did ≡ (C.notes self.old.seat.now.view).did }
        ensures same { kept self.new.blocks self.new.seat.ghost_name self.new.seat.now.id self.new.seat.now.away
            ≡ kept self.old.blocks self.old.seat.ghost_name self.old.seat.now.id self.old.seat.now.away }
        ensures beside { C.beside self.new.seat.now.view ≡ C.beside self.old.seat.now.view }
        ensures guards { (C.notes self.new.seat.now.view).guards ≡ (C.notes self.old.seat.now.view).guards }
    {
        C::goes_on();
        self.blocks.part::<Freeing<T, C>>(&mut *self.seat);
        self.store(At::Slot(slot, HEAD), FREE);
    }
}

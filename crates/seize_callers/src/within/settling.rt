//! A caller's seat on an errand as the memory of the rows that it has under way: it retires blocks, and leaves.
ghost use Rattle.std.specs.Prelude.{◌≡◌, ◌≢◌, ◌<◌, ◌^◌, ℕ, true, false};
ghost use Rattle.seize.specs.declared.rows.settle.Settling.TheVariants.{Over};
ghost use Rattle.seize.specs.declared.states.TheConstants.{ACTIVE};
ghost use Rattle.seize.specs.Settle.{retiring};
ghost use Rattle.seize_views.specs.Views.Begun.{IsBegun, left_with};
ghost use Rattle.seize_callers.specs.Kept.{kept};
ghost use Rattle.seize_callers.specs.Made.{IsSettling, Task, left_in, task_of};
ghost use Rattle.seize_views.specs.Views.Notes.{SameNotes};
ghost use Rattle.seize_views.specs.declared.view.Began.TheVariants.{Retirement, Section, Trial};
ghost use Rattle.seize_views.specs.Views.Promises.{IsLooking};
ghost use Rattle.seize_views.specs.Views.Told.{list_taken};
ghost use Rattle.seize_views.specs.declared.view.Becomes.{Becomes};
ghost use Rattle.seize_views.specs.declared.view.Has.{Has};
ghost use Rattle.seize_views.specs.declared.view.Has.TheVariants.{Nothing, Cut};
ghost use Rattle.seize_views.specs.declared.view.SlotView.TheVariants.{Outside, Owes, Inside, Left};
ghost use Rattle.seize_views.specs.declared.view.Why.TheVariants as reason;

use crate::within::Within;
use seize::StepMachine;
use seize::rows::{Defers, Settle, Settled, Settling};
use seize::states::{ACTIVE, HEAD, IDLE};
use seize_straight::{Retired, reclaims, retire, settle_of};
use seize_views::Content;
use seize_views::turns::{BegunEnds, Flushing, LeavingBegins, Refreshing, Retiring};
use seize_words::{At, Fault, Link, Look, Memory};

/// Whether a settling has ended.
fn is_over(row: &Settle) -> bool
    ensures over { result ≡ true → row.now.stands ≡ Over }
    ensures not { result ≡ false → row.now.stands ≢ Over }
{
    matches!(row.stands, Settling::Over)
}

impl<'a, T: Defers, C: Content<T>> Within<'a, T, C> {
    /// Takes the next step of a settling that is not over, and answers the value that it has reclaimed, if it has.
    fn steps(&mut self, row: &mut Settle) -> Option<T>
        requires settling { (task : Task T) × IsSettling task row.old (C.notes self.old.seat.now.view) }
        requires not { row.old.stands ≢ Over }
        ensures settling { (task : Task T) → IsSettling task row.old (C.notes self.old.seat.now.view)
            → IsSettling task row.new (C.notes self.new.seat.now.view) }
        ensures falls { left_in (C.notes self.new.seat.now.view) < left_in (C.notes self.old.seat.now.view) }
        ensures slot { row.new.slot ≡ row.old.slot }
        ensures same { kept self.new.blocks self.new.seat.ghost_name self.new.seat.now.id self.new.seat.now.away
            ≡ kept self.old.blocks self.old.seat.ghost_name self.old.seat.now.id self.old.seat.now.away }
        ensures beside { C.beside self.new.seat.now.view ≡ C.beside self.old.seat.now.view }
    {
        match row.step(self) {
            Settled::Gave(value) => Some(value),
            _ => None,
        }
    }
}

impl<'a, T: Defers + Drop, C: Content<T>> Within<'a, T, C> {
    /// Takes a settling to its end: others can't make it longer. A value that is reclaimed is dropped.
    fn settles(&mut self, row: &mut Settle)
        requires settling { (task : Task T) × IsSettling task row.old (C.notes self.old.seat.now.view) }
        ensures settling { (task : Task T) → IsSettling task row.old (C.notes self.old.seat.now.view)
            → IsSettling task row.new (C.notes self.new.seat.now.view) }
        ensures over { row.new.stands ≡ Over }
        ensures slot { row.new.slot ≡ row.old.slot }
        ensures same { kept self.new.blocks self.new.seat.ghost_name self.new.seat.now.id self.new.seat.now.away
            ≡ kept self.old.blocks self.old.seat.ghost_name self.old.seat.now.id self.old.seat.now.away }
        ensures beside { C.beside self.new.seat.now.view ≡ C.beside self.old.seat.now.view }
    {
        while !is_over(row) {
            drop(self.steps(row));
            reclaims(row, self);
        }
    }

    /// Takes a settling to its end by which a block is retired, or a batch tried.
    fn ends(&mut self, row: Settle)
        requires settling { (way : Becomes) × IsSettling (task_of (reason.Retiring way) (C.notes self.old.seat.now.view)) row (C.notes self.old.seat.now.view) }
        ensures rests { (way : Becomes) → IsSettling (task_of (reason.Retiring way) (C.notes self.old.seat.now.view)) row (C.notes self.old.seat.now.view)
            → (C.notes self.new.seat.now.view).knows ≡ left_with way row.slot }
        ensures notes { SameNotes (C.notes self.old.seat.now.view) (C.notes self.new.seat.now.view) }
        ensures same { kept self.new.blocks self.new.seat.ghost_name self.new.seat.now.id self.new.seat.now.away
            ≡ kept self.old.blocks self.old.seat.ghost_name self.old.seat.now.id self.old.seat.now.away }
        ensures beside { C.beside self.new.seat.now.view ≡ C.beside self.old.seat.now.view }
    {
        C::goes_on();
        let mut row = row;
        self.settles(&mut row);
        self.blocks.part::<BegunEnds<T, C>>(&mut *self.seat);
    }

    /// Retires the block of this link, whose retirement has begun.
    fn retires(&mut self, slot: u64, link: u64)
        requires begun { (way : Becomes)
            × IsBegun way (retiring slot self.old.blocks.now.words.fixed.batch_size link) (C.notes self.old.seat.now.view).knows }
        ensures rests { (way : Becomes)
            → IsBegun way (retiring slot self.old.blocks.now.words.fixed.batch_size link) (C.notes self.old.seat.now.view).knows
            → (C.notes self.new.seat.now.view).knows ≡ left_with way slot }
        ensures notes { SameNotes (C.notes self.old.seat.now.view) (C.notes self.new.seat.now.view) }
        ensures same { kept self.new.blocks self.new.seat.ghost_name self.new.seat.now.id self.new.seat.now.away
            ≡ kept self.old.blocks self.old.seat.ghost_name self.old.seat.now.id self.old.seat.now.away }
        ensures beside { C.beside self.new.seat.now.view ≡ C.beside self.old.seat.now.view }
    {
        C::goes_on();
        let size = self.batch_size;
        let retired = retire(self, slot, size, link);
        match retired {
            Retired::Ended => self.blocks.part::<BegunEnds<T, C>>(&mut *self.seat),
            _ => self.ends(settle_of(slot, size, link, retired)),
        }
    }

    /// Counts a list down that was taken from its slot.
    fn counts_down(&mut self, slot: u64, head: u64)
        requires taken { (way : Becomes) × (left : ℕ)
            × ((C.notes self.old.seat.now.view).knows ≡ list_taken slot self.old.blocks.now.words.fixed.batch_size way head left) }
        ensures left { (way : Becomes) (left : ℕ)
            → (C.notes self.old.seat.now.view).knows ≡ list_taken slot self.old.blocks.now.words.fixed.batch_size way head left
            → (C.notes self.new.seat.now.view).knows ≡ Left slot self.old.blocks.now.words.fixed.batch_size way }
        ensures notes { SameNotes (C.notes self.old.seat.now.view) (C.notes self.new.seat.now.view) }
        ensures same { kept self.new.blocks self.new.seat.ghost_name self.new.seat.now.id self.new.seat.now.away
            ≡ kept self.old.blocks self.old.seat.ghost_name self.old.seat.now.id self.old.seat.now.away }
        ensures beside { C.beside self.new.seat.now.view ≡ C.beside self.old.seat.now.view }
    {
        if head <= ACTIVE {
            return;
        }
        self.counts_entries(slot, head);
    }

    /// The same, of a list that has entries. It is a call of its own, so that a section which finds none has nothing to save.
    #[cold]
    #[inline(never)]
    fn counts_entries(&mut self, slot: u64, head: u64)
        requires some { ACTIVE < head }
        requires taken { (way : Becomes) × (left : ℕ)
            × ((C.notes self.old.seat.now.view).knows ≡ list_taken slot self.old.blocks.now.words.fixed.batch_size way head left) }
        ensures left { (way : Becomes) (left : ℕ)
            → (C.notes self.old.seat.now.view).knows ≡ list_taken slot self.old.blocks.now.words.fixed.batch_size way head left
            → (C.notes self.new.seat.now.view).knows ≡ Left slot self.old.blocks.now.words.fixed.batch_size way }
        ensures notes { SameNotes (C.notes self.old.seat.now.view) (C.notes self.new.seat.now.view) }
        ensures same { kept self.new.blocks self.new.seat.ghost_name self.new.seat.now.id self.new.seat.now.away
            ≡ kept self.old.blocks self.old.seat.ghost_name self.old.seat.now.id self.old.seat.now.away }
        ensures beside { C.beside self.new.seat.now.view ≡ C.beside self.old.seat.now.view }
    {
        C::goes_on();
        let mut row = Settle::count_down(slot, self.batch_size, head);
        self.settles(&mut row);
        self.blocks.part::<BegunEnds<T, C>>(&mut *self.seat);
    }

    /// Ends the section: what its slot's list owes is settled. A value that is reclaimed is dropped.
    pub(crate) fn leave(&mut self, slot: u64)
        requires inside { (has : Has T) × IsLooking has × ((C.notes self.old.seat.now.view).knows ≡ Inside slot has) }
        requires none { (C.notes self.old.seat.now.view).guards ≡ 0 }
        ensures outside { (C.notes self.new.seat.now.view).knows ≡ Outside slot }
        ensures same { kept self.new.blocks self.new.seat.ghost_name self.new.seat.now.id self.new.seat.now.away
            ≡ kept self.old.blocks self.old.seat.ghost_name self.old.seat.now.id self.old.seat.now.away }
        ensures beside { C.beside self.new.seat.now.view ≡ C.beside self.old.seat.now.view }
        ensures guards { (C.notes self.new.seat.now.view).guards ≡ (C.notes self.old.seat.now.view).guards }
    {
        C::goes_on();
        self.blocks.part::<LeavingBegins<T, C>>(&mut *self.seat);
        let head = self.swap(At::Slot(slot, HEAD), IDLE);
        self.counts_down(slot, head);
        self.blocks.part::<BegunEnds<T, C>>(&mut *self.seat);
    }

    /// Ends the section and begins the next one, by one step. What it has seen it doesn't know any more. A value that is reclaimed is dropped.
    pub(crate) fn refresh(&mut self, slot: u64)
        requires inside { (has : Has T) × IsLooking has × ((C.notes self.old.seat.now.view).knows ≡ Inside slot has) }
        requires none { (C.notes self.old.seat.now.view).guards ≡ 0 }
        ensures inside { (C.notes self.new.seat.now.view).knows ≡ Inside slot Nothing }
        ensures began { (C.notes self.new.seat.now.view).began ≡ Section }
        ensures same { kept self.new.blocks self.new.seat.ghost_name self.new.seat.now.id self.new.seat.now.away
            ≡ kept self.old.blocks self.old.seat.ghost_name self.old.seat.now.id self.old.seat.now.away }
        ensures beside { C.beside self.new.seat.now.view ≡ C.beside self.old.seat.now.view }
        ensures guards { (C.notes self.new.seat.now.view).guards ≡ (C.notes self.old.seat.now.view).guards }
    {
        C::goes_on();
        self.blocks.part::<Refreshing<T, C>>(&mut *self.seat);
        let head = self.swap(At::Slot(slot, HEAD), ACTIVE);
        self.counts_down(slot, head);
        self.blocks.part::<BegunEnds<T, C>>(&mut *self.seat);
    }

    /// Tries its batch, whatever its length. A value that is reclaimed is dropped. What it has seen it doesn't know any more.
    pub(crate) fn flush(&mut self, slot: u64)
        requires inside { (has : Has T) × IsLooking has × ((C.notes self.old.seat.now.view).knows ≡ Inside slot has) }
        ensures inside { (C.notes self.new.seat.now.view).knows ≡ Inside slot Nothing }
        ensures began { (C.notes self.new.seat.now.view).began ≡ Trial }
        ensures same { kept self.new.blocks self.new.seat.ghost_name self.new.seat.now.id self.new.seat.now.away
            ≡ kept self.old.blocks self.old.seat.ghost_name self.old.seat.now.id self.old.seat.now.away }
        ensures beside { C.beside self.new.seat.now.view ≡ C.beside self.old.seat.now.view }
        ensures guards { (C.notes self.new.seat.now.view).guards ≡ (C.notes self.old.seat.now.view).guards }
    {
        C::goes_on();
        self.blocks.part::<Flushing<T, C>>(&mut *self.seat);
        self.ends(Settle::flush(slot, self.batch_size));
    }

    /// Tries its batch, whatever its length, while no section of its slot is open. A value that is reclaimed is dropped.
    pub(crate) fn flush_idle(&mut self, slot: u64)
        requires outside { (C.notes self.old.seat.now.view).knows ≡ Outside slot }
        ensures outside { (C.notes self.new.seat.now.view).knows ≡ Outside slot }
        ensures began { (C.notes self.new.seat.now.view).began ≡ Trial }
        ensures same { kept self.new.blocks self.new.seat.ghost_name self.new.seat.now.id self.new.seat.now.away
            ≡ kept self.old.blocks self.old.seat.ghost_name self.old.seat.now.id self.old.seat.now.away }
        ensures beside { C.beside self.new.seat.now.view ≡ C.beside self.old.seat.now.view }
        ensures guards { (C.notes self.new.seat.now.view).guards ≡ (C.notes self.old.seat.now.view).guards }
    {
        C::goes_on();
        self.blocks.part::<Flushing<T, C>>(&mut *self.seat);
        self.ends(Settle::flush(slot, self.batch_size));
    }

    /// Retires the block that it has taken from a root. A value that is reclaimed is dropped.
    pub(crate) fn retire(&mut self, slot: u64, block: u64)
        requires cut { (C.notes self.old.seat.now.view).knows ≡ Inside slot (Cut block) }
        requires fits { block < 2 ^ 53 }
        ensures inside { (C.notes self.new.seat.now.view).knows ≡ Inside slot Nothing }
        ensures began { (C.notes self.new.seat.now.view).began ≡ Retirement }
        ensures did { (C.notes self.new.seat.now.view).did ≡ (C.notes self.old.seat.now.view).did }
        ensures same { kept self.new.blocks self.new.seat.ghost_name self.new.seat.now.id self.new.seat.now.away
            ≡ kept self.old.blocks self.old.seat.ghost_name self.old.seat.now.id self.old.seat.now.away }
        ensures beside { C.beside self.new.seat.now.view ≡ C.beside self.old.seat.now.view }
        ensures guards { (C.notes self.new.seat.now.view).guards ≡ (C.notes self.old.seat.now.view).guards }
    {
        C::goes_on();
        self.blocks.part::<Retiring<T, C>>(&mut *self.seat);
        self.retires(slot, Link::to(block));
    }

    /// Retires the block that it has taken from a root while no section of its slot was open, nor is. A value that is reclaimed is dropped.
    pub(crate) fn retire_idle(&mut self, slot: u64, block: u64)
        requires owes { (C.notes self.old.seat.now.view).knows ≡ Owes slot block }
        requires fits { block < 2 ^ 53 }
        ensures outside { (C.notes self.new.seat.now.view).knows ≡ Outside slot }
        ensures began { (C.notes self.new.seat.now.view).began ≡ Retirement }
        ensures did { (C.notes self.new.seat.now.view).did ≡ (C.notes self.old.seat.now.view).did }
        ensures same { kept self.new.blocks self.new.seat.ghost_name self.new.seat.now.id self.new.seat.now.away
            ≡ kept self.old.blocks self.old.seat.ghost_name self.old.seat.now.id self.old.seat.now.away }
        ensures beside { C.beside self.new.seat.now.view ≡ C.beside self.old.seat.now.view }
        ensures guards { (C.notes self.new.seat.now.view).guards ≡ (C.notes self.old.seat.now.view).guards }
    {
        C::goes_on();
        self.blocks.part::<Retiring<T, C>>(&mut *self.seat);
        self.retires(slot, Link::to(block));
    }
}

impl<'a, T: Defers, C: Content<T>> Look<T> for Within<'a, T, C> {
    ghost use Rattle.seize_callers.specs.Made.{CanMake, HasMade, IsAllowed, shown_of};

    ghost can = { CanMake (λ c. C.notes c.seat.now.view)
        (λ c. IsAllowed C.holds C.keeps C.notes C.beside T.defers C.then c.blocks.now.words.fixed c.seat.now.id c.seat.now.view) T.defers };

    ghost took = { HasMade (λ c. C.notes c.seat.now.view) T.defers (λ c. C.beside c.seat.now.view)
        (λ c. kept c.blocks c.seat.ghost_name c.seat.now.id c.seat.now.away) };

    ghost shown = { shown_of (λ c. C.notes c.seat.now.view) };

    #[inline(always)]
    fn load(&mut self, at: At) -> u64 {
        C::goes_on();
        self.blocks.load(&mut *self.seat, at)
    }

    #[inline(always)]
    fn value(&self, block: u64) -> &T {
        C::goes_on();
        self.blocks.value(&*self.seat, block)
    }
}

impl<'a, T: Defers, C: Content<T>> Memory<T> for Within<'a, T, C> {
    #[inline(always)]
    fn store(&mut self, at: At, word: u64) {
        C::goes_on();
        self.blocks.store(&mut *self.seat, at, word);
    }

    #[inline(always)]
    fn swap(&mut self, at: At, word: u64) -> u64 {
        C::goes_on();
        self.blocks.swap(&mut *self.seat, at, word)
    }

    #[inline(always)]
    fn add(&mut self, at: At, by: u64) -> u64 {
        C::goes_on();
        self.blocks.add(&mut *self.seat, at, by)
    }

    #[inline(always)]
    fn or(&mut self, at: At, bits: u64) -> u64 {
        C::goes_on();
        self.blocks.or(&mut *self.seat, at, bits)
    }

    #[inline(always)]
    fn exchange(&mut self, at: At, old: u64, new: u64) -> Result<u64, u64> {
        C::goes_on();
        self.blocks.exchange(&mut *self.seat, at, old, new)
    }

    #[inline(always)]
    fn make(&mut self, value: T, words: u64) -> Result<u64, T> {
        C::goes_on();
        let mut near = 0;
        self.blocks.make(&mut *self.seat, &mut near, value, words)
    }

    #[inline(always)]
    fn take(&mut self, block: u64) -> T {
        C::goes_on();
        self.blocks.take(&mut *self.seat, block)
    }

    #[inline(always)]
    fn rewrite(&mut self, block: u64, value: T) -> T {
        C::goes_on();
        self.blocks.rewrite(&mut *self.seat, block, value)
    }

    #[inline(always)]
    fn room(&mut self, bucket: u64) -> Result<(), Fault> {
        C::goes_on();
        self.blocks.room(&mut *self.seat, bucket)
    }
}

//! What a caller does by rows that settle: it retires blocks, tries its batch, refreshes and leaves.
ghost use Rattle.std.specs.Prelude.{◌≡◌, ◌<◌, ◌^◌};
ghost use Rattle.seize_views.specs.Views.Promises.{IsLooking};
ghost use Rattle.seize_views.specs.declared.view.Began.TheVariants.{Retirement, Section, Trial};
ghost use Rattle.seize_views.specs.declared.view.Has.{Has};
ghost use Rattle.seize_views.specs.declared.view.Has.TheVariants.{Nothing, Cut};
ghost use Rattle.seize_views.specs.declared.view.SlotView.TheVariants.{Outside, Owes, Inside};

use crate::caller::Caller;
use crate::errands::{Flushes, FlushesIdle, Leaves, Refreshes, Retires, RetiresIdle};
use seize::rows::Defers;
use seize_views::Content;

impl<'a, T: Defers + Drop, C: Content<T>> Caller<'a, T, C> {
    /// Ends the section: what its slot's list owes is settled. A value that is reclaimed is dropped.
    pub fn leave(&mut self, slot: u64)
        requires inside { (has : Has T) × IsLooking has × ((C.notes self.old.seat.view).knows ≡ Inside slot has) }
        requires none { (C.notes self.old.seat.view).guards ≡ 0 }
        ensures outside { (C.notes self.new.seat.view).knows ≡ Outside slot }
        ensures blocks { self.new.blocks ≡ self.old.blocks }
        ensures beside { C.beside self.new.seat.view ≡ C.beside self.old.seat.view }
        ensures guards { (C.notes self.new.seat.view).guards ≡ (C.notes self.old.seat.view).guards }
    {
        C::goes_on();
        self.sends(Leaves {
            slot,
            batch_size: self.batch_size,
        });
    }

    /// Ends the section and begins the next one, by one step. What it has seen it doesn't know any more. A value that is reclaimed is dropped.
    pub fn refresh(&mut self, slot: u64)
        requires inside { (has : Has T) × IsLooking has × ((C.notes self.old.seat.view).knows ≡ Inside slot has) }
        requires none { (C.notes self.old.seat.view).guards ≡ 0 }
        ensures inside { (C.notes self.new.seat.view).knows ≡ Inside slot Nothing }
        ensures began { (C.notes self.new.seat.view).began ≡ Section }
        ensures blocks { self.new.blocks ≡ self.old.blocks }
        ensures beside { C.beside self.new.seat.view ≡ C.beside self.old.seat.view }
        ensures guards { (C.notes self.new.seat.view).guards ≡ (C.notes self.old.seat.view).guards }
    {
        C::goes_on();
        self.sends(Refreshes {
            slot,
            batch_size: self.batch_size,
        });
    }

    /// Tries its batch, whatever its length. A value that is reclaimed is dropped. What it has seen it doesn't know any more.
    pub fn flush(&mut self, slot: u64)
        requires inside { (has : Has T) × IsLooking has × ((C.notes self.old.seat.view).knows ≡ Inside slot has) }
        ensures inside { (C.notes self.new.seat.view).knows ≡ Inside slot Nothing }
        ensures began { (C.notes self.new.seat.view).began ≡ Trial }
        ensures blocks { self.new.blocks ≡ self.old.blocks }
        ensures beside { C.beside self.new.seat.view ≡ C.beside self.old.seat.view }
        ensures guards { (C.notes self.new.seat.view).guards ≡ (C.notes self.old.seat.view).guards }
    {
        C::goes_on();
        self.sends(Flushes {
            slot,
            batch_size: self.batch_size,
        });
    }

    /// Tries its batch, whatever its length, while no section of its slot is open. A value that is reclaimed is dropped.
    pub fn flush_idle(&mut self, slot: u64)
        requires outside { (C.notes self.old.seat.view).knows ≡ Outside slot }
        ensures outside { (C.notes self.new.seat.view).knows ≡ Outside slot }
        ensures began { (C.notes self.new.seat.view).began ≡ Trial }
        ensures blocks { self.new.blocks ≡ self.old.blocks }
        ensures beside { C.beside self.new.seat.view ≡ C.beside self.old.seat.view }
        ensures guards { (C.notes self.new.seat.view).guards ≡ (C.notes self.old.seat.view).guards }
    {
        C::goes_on();
        self.sends(FlushesIdle {
            slot,
            batch_size: self.batch_size,
        });
    }

    /// Retires the block that it has taken from a root. A value that is reclaimed is dropped.
    pub fn retire(&mut self, slot: u64, block: u64)
        requires cut { (C.notes self.old.seat.view).knows ≡ Inside slot (Cut block) }
        requires fits { block < 2 ^ 53 }
        ensures inside { (C.notes self.new.seat.view).knows ≡ Inside slot Nothing }
        ensures began { (C.notes self.new.seat.view).began ≡ Retirement }
        ensures did { (C.notes self.new.seat.view).did ≡ (C.notes self.old.seat.view).did }
        ensures blocks { self.new.blocks ≡ self.old.blocks }
        ensures beside { C.beside self.new.seat.view ≡ C.beside self.old.seat.view }
        ensures guards { (C.notes self.new.seat.view).guards ≡ (C.notes self.old.seat.view).guards }
    {
        C::goes_on();
        self.sends(Retires {
            slot,
            block,
            batch_size: self.batch_size,
        });
    }

    /// Retires the block that it has taken from a root while no section of its slot was open, nor is. A value that is reclaimed is dropped.
    pub fn retire_idle(&mut self, slot: u64, block: u64)
        requires owes { (C.notes self.old.seat.view).knows ≡ Owes slot block }
        requires fits { block < 2 ^ 53 }
        ensures outside { (C.notes self.new.seat.view).knows ≡ Outside slot }
        ensures began { (C.notes self.new.seat.view).began ≡ Retirement }
        ensures did { (C.notes self.new.seat.view).did ≡ (C.notes self.old.seat.view).did }
        ensures blocks { self.new.blocks ≡ self.old.blocks }
        ensures beside { C.beside self.new.seat.view ≡ C.beside self.old.seat.view }
        ensures guards { (C.notes self.new.seat.view).guards ≡ (C.notes self.old.seat.view).guards }
    {
        C::goes_on();
        self.sends(RetiresIdle {
            slot,
            block,
            batch_size: self.batch_size,
        });
    }
}

//! Guards of sections: one of a slot that stays on its thread, and one with a slot of its own that may be sent.
ghost use Rattle.std.specs.Prelude.{◌≡◌, ◌≢◌, ◌<◌, None, Some, IfOk, IfErr, true, false};
ghost use Rattle.seize_words.specs.declared.fault.Fault.TheVariants.{ForeignGuard};
ghost use Rattle.seize_shared.specs.Guards.Deeds.{has_taken};
ghost use Rattle.seize_shared.specs.Guards.Homes.{OneSource};
ghost use Rattle.seize_shared.specs.OnThreads.Refused.{HasNoSlot};
ghost use Rattle.seize_views.specs.Views.Notes.{written_at};
ghost use Rattle.seize_views.specs.declared.view.Began.TheVariants.{Retirement, Trial};
ghost use Rattle.seize_views.specs.declared.view.SlotView.TheVariants.{Brings};

use crate::shared::Shared;
use crate::stay::Stay;
use crate::{Guard, Owned, Pass, Protected, RootGuard, Tagged, Unlinked};
use seize::rows::Defers;
use seize_blocks::Blocks;
use seize_callers::Caller;
use seize_views::{Content, Fixed, OfRows};
use seize_words::{Drops, Fault, Receiver};
use std::marker::PhantomData;

/// A slot of its owner's, on whose thread it stays. It is given up as this ends.
#[derive(Drop)]
pub struct Registration<'a, T: Defers + Drop, C: Content<T> = OfRows, R: Receiver<T> = Drops> {
    /// Who holds the slot.
    pub stay: Stay<'a, T, C>,
    /// The number of its collector, 0 where there is none.
    number: u64,
    thread: PhantomData<*const R>,
    ghost alone: { stay.guards ≡ 0 },
}

impl<'a, T: Defers + Drop, C: Content<T>> Registration<'a, T, C> {
    /// Takes the first slot that can be taken, of a memory that has no collector. What was chosen as the memory was opened is handed in.
    pub fn new(blocks: &'a Blocks<T, C>, fixed: &Fixed) -> Result<Self, Fault>
        requires fixed { blocks.now.words.fixed ≡ fixed.now }
        ensures home { IfOk result (λ registration. registration.stay.caller.blocks.now ≡ blocks.now) }
        ensures number { IfOk result (λ registration. registration.number ≡ 0) }
        ensures refused { IfErr result (λ fault. HasNoSlot fault) }
    {
        Registration::of(blocks, fixed, 0)
    }
}

impl<'a, T: Defers + Drop, C: Content<T>, R: Receiver<T>> Registration<'a, T, C, R> {
    /// Returns the same, of a collector of this number.
    pub fn of(blocks: &'a Blocks<T, C>, fixed: &Fixed, number: u64) -> Result<Self, Fault>
        requires fixed { blocks.now.words.fixed ≡ fixed.now }
        ensures home { IfOk result (λ registration. registration.stay.caller.blocks.now ≡ blocks.now) }
        ensures number { IfOk result (λ registration. registration.number ≡ number) }
        ensures refused { IfErr result (λ fault. HasNoSlot fault) }
    {
        let stay = Stay::new(blocks, fixed)?;
        Ok(Registration {
            stay,
            number,
            thread: PhantomData,
        })
    }

    /// Returns the number of its collector, 0 where there is none.
    pub fn number(&self) -> u64
        ensures { result ≡ self.now.number }
    {
        self.number
    }

    /// Returns its collector, for those who share it.
    pub fn collector(&self) -> Shared<'a, T, C, R>
        ensures home { result.blocks.now ≡ self.now.stay.caller.blocks.now }
        ensures number { result.number ≡ self.now.number }
    {
        self.stay.shared(self.number)
    }

    /// Tries the slot's batch without a section. A value that is reclaimed is dropped. Where a guard was forgotten its section ends first.
    pub fn flush(&mut self)
        ensures home { self.new.stay.caller.blocks ≡ self.old.stay.caller.blocks }
        ensures beside { C.beside self.new.stay.caller.seat.view ≡ C.beside self.old.stay.caller.seat.view }
        ensures slot { self.new.stay.slot ≡ self.old.stay.slot }
        ensures number { self.new.number ≡ self.old.number }
        ensures closed { self.new.stay.inside ≡ false }
        ensures began { (C.notes self.new.stay.caller.seat.view).began ≡ Trial }
    {
        self.stay.closes();
        self.stay.flushes();
    }

    /// Opens a section of the slot. Where a guard was forgotten its section ends first.
    pub fn enter<'r>(&'r mut self) -> LocalGuard<'r, 'a, T, C, R>
        ensures inside { result.registration.now.stay.inside ≡ true }
        ensures home { result.registration.now.stay.caller.blocks ≡ self.old.stay.caller.blocks }
        ensures beside { C.beside result.registration.now.stay.caller.seat.view ≡ C.beside self.old.stay.caller.seat.view }
        ensures slot { result.registration.now.stay.slot ≡ self.old.stay.slot }
        ensures number { result.registration.now.number ≡ self.old.number }
        ensures fresh { result.registration.now.stay.seen ≡ 0 }
    {
        self.stay.refreshes();
        LocalGuard { registration: self }
    }
}

impl<'a, T: Defers + Drop, R: Receiver<T>> Registration<'a, T, OfRows, R> {
    /// Takes the value from a root, and retires it, without a section; tells whether there was one. Where a guard was forgotten its section ends first.
    pub fn clear(&mut self, root: u64) -> bool
        ensures home { self.new.stay.caller.blocks ≡ self.old.stay.caller.blocks }
        ensures slot { self.new.stay.slot ≡ self.old.stay.slot }
        ensures number { self.new.number ≡ self.old.number }
        ensures closed { self.new.stay.inside ≡ false }
        ensures taken { result ≡ true → has_taken self.new.stay.caller.seat.view.did ≡ Some root }
        ensures none { result ≡ false → root < self.old.stay.caller.blocks.now.words.fixed.roots
            → written_at self.new.stay.caller.seat.view.did ≡ Some (root, None, 0) }
    {
        self.stay.withdraws(root)
    }

    /// Retires a block that was taken from a root of the same collector, without a section. Where a guard was forgotten its section stays open. A block of
    /// another collector is `Fault::ForeignGuard`: nothing changes, and it comes back.
    pub fn retire<'u>(&mut self, old: Unlinked<'u, T>) -> Result<(), (Fault, Unlinked<'u, T>)>
        requires source { OneSource old.number old.caller.blocks.now.words.id.views_name
            record { number = self.old.number; memory = self.old.stay.caller.blocks.now.words.id.views_name; roots = self.old.stay.caller.blocks.now.words.fixed.roots } }
        ensures home { self.new.stay.caller.blocks ≡ self.old.stay.caller.blocks }
        ensures slot { self.new.stay.slot ≡ self.old.stay.slot }
        ensures number { self.new.number ≡ self.old.number }
        ensures foreign { IfErr result (λ refused. (refused.0 ≡ ForeignGuard) × (old.entry.number ≢ self.old.number)) }
        ensures back { IfErr result (λ refused. (refused.1 ≡ old.entry) × (self.new ≡ self.old)) }
        ensures own { IfOk result (λ _. old.entry.number ≡ self.old.number) }
        ensures began { IfOk result (λ _. self.new.stay.caller.seat.view.began ≡ Retirement) }
    {
        if old.number() != self.number {
            return Err((Fault::ForeignGuard, old));
        }
        let (bearer, block) = old.parted();
        let mut bearer = bearer;
        self.stay.takes_over(&mut bearer, block);
        Ok(())
    }
}

/// A section that is open as long as this lives. What it has seen is there until its next step. It stays on its thread.
pub struct LocalGuard<'r, 'a, T: Defers + Drop, C: Content<T> = OfRows, R: Receiver<T> = Drops> {
    /// The registration that it is of.
    pub registration: &'r mut Registration<'a, T, C, R>,
}

impl<'r, 'a, T: Defers + Drop, C: Content<T>, R: Receiver<T>> Guard<T>
    for LocalGuard<'r, 'a, T, C, R> {
    type Content = C;

    type Receiver = R;

    ghost home = { λ g. record { number = g.registration.now.number; memory = g.registration.now.stay.caller.blocks.now.words.id.views_name; roots = g.registration.now.stay.caller.blocks.now.words.fixed.roots } };

    ghost slot = { λ g. g.registration.now.stay.slot };

    ghost inside = { λ g. g.registration.now.stay.inside };

    ghost seen = { λ g. g.registration.now.stay.seen };

    ghost began = { λ g. (C.notes g.registration.now.stay.caller.seat.view).began };

    ghost Beside = { C.Beside };

    ghost beside = { λ g. C.beside g.registration.now.stay.caller.seat.view };

    fn number(&self) -> u64 {
        self.registration.number
    }

    fn thread_id(&self) -> u64 {
        self.registration.stay.slot
    }

    fn refresh(&mut self) {
        let registration = &mut *self.registration;
        registration.stay.refreshes();
    }

    fn flush(&mut self) {
        let registration = &mut *self.registration;
        registration.stay.flushes();
    }
}

impl<'r, 'a, T: Defers + Drop, R: Receiver<T>> RootGuard<T> for LocalGuard<'r, 'a, T, OfRows, R> {
    ghost use Rattle.seize_shared.specs.Guards.Lent.{IsLent};

    ghost lends = { λ g. IsLent T.defers g.registration.now.stay.caller.blocks.now.words.fixed g.registration.now.stay.caller.seat.id g.registration.now.stay.caller.seat.view };

    ghost did = { λ g. g.registration.now.stay.caller.seat.view.did };

    fn see(&mut self, root: u64) -> bool {
        let registration = &mut *self.registration;
        registration.stay.sees(root)
    }

    fn protect(&mut self, root: u64) -> Option<Tagged> {
        let registration = &mut *self.registration;
        registration.stay.protects(root)
    }

    fn protect_by<'g>(
        &'g self,
        root: u64,
        pass: &mut Pass<T>,
    ) -> Result<Option<Protected<'g, T>>, Fault> {
        let registration = &*self.registration;
        if pass.number() != registration.number {
            return Err(Fault::ForeignGuard);
        }
        Ok(registration.stay.protects_by(root, pass))
    }

    fn mark_by<'g>(
        &'g self,
        root: u64,
        marks: u64,
        pass: &mut Pass<T>,
    ) -> Result<Option<Protected<'g, T>>, Fault> {
        let registration = &*self.registration;
        if registration.number != pass.number() {
            return Err(Fault::ForeignGuard);
        }
        Ok(registration.stay.marks_by(root, marks, pass))
    }

    fn mark(&mut self, root: u64, marks: u64) -> Option<Tagged> {
        let registration = &mut *self.registration;
        registration.stay.marks(root, marks)
    }

    fn value(&self) -> Option<&T> {
        self.registration.stay.value()
    }

    fn put(&mut self, root: u64, value: T) -> Result<(), T> {
        let registration = &mut *self.registration;
        registration.stay.puts(root, value)
    }

    fn exchange(&mut self, root: u64, value: T) -> Result<(), T> {
        let registration = &mut *self.registration;
        registration.stay.exchanges(root, value)
    }

    fn clear(&mut self, root: u64) -> bool {
        let registration = &mut *self.registration;
        registration.stay.clears(root)
    }

    fn takes_over<'b>(&mut self, bearer: &mut Caller<'b, T>, block: u64) {
        let registration = &mut *self.registration;
        registration.stay.takes_over(bearer, block);
    }
}

impl<'r, 'a, T: Defers + Drop, C: Content<T>, R: Receiver<T>> LocalGuard<'r, 'a, T, C, R> {
    /// Returns its collector, for those who share it: it may be asked for further slots while the guard is there.
    pub fn collector(&self) -> Shared<'a, T, C, R>
        ensures home { result.blocks.now ≡ self.now.registration.now.stay.caller.blocks.now }
        ensures number { result.number ≡ self.now.registration.now.number }
    {
        let registration = &*self.registration;
        registration.collector()
    }
}

impl<'r, 'a, T: Defers + Drop, R: Receiver<T>> LocalGuard<'r, 'a, T, OfRows, R> {
    /// Makes a block of a value, which is of its collector; a number is looked for from `near` on, which says then where to look next. Without words for it, or
    /// memory, the value comes back. What it has seen it knows still.
    pub fn make(&self, near: &mut u64, value: T) -> Result<Owned<'a, T>, T>
        ensures made { IfOk result (λ owned. owned.caller.seat.view.knows ≡ Brings owned.block value) }
        ensures home { IfOk result (λ owned. owned.caller.blocks.now ≡ self.now.registration.now.stay.caller.blocks.now) }
        ensures number { IfOk result (λ owned. owned.number ≡ self.now.registration.now.number) }
        ensures back { IfErr result (λ back. back ≡ value) }
    {
        let registration = &*self.registration;
        registration.stay.makes(registration.number, near, value)
    }
}

impl<'r, 'a, T: Defers + Drop, C: Content<T>, R: Receiver<T>> Drop for LocalGuard<'r, 'a, T, C, R> {
    fn drop(self)
        ensures closed { self.exit.0.now.stay.inside ≡ false }
        ensures home { self.exit.0.now.stay.caller.blocks ≡ self.entry.registration.now.stay.caller.blocks }
        ensures slot { self.exit.0.now.stay.slot ≡ self.entry.registration.now.stay.slot }
        ensures number { self.exit.0.now.number ≡ self.entry.registration.now.number }
    {
        let LocalGuard { registration } = self;
        registration.stay.closes();
    }
}

/// A section of a slot of its own, open as long as this lives: the slot is given up as it ends. What it has seen is there until its next step. It may be
/// sent to another thread, and end there.
#[derive(Drop)]
pub struct OwnedGuard<'a, T: Defers + Drop, C: Content<T> = OfRows, R: Receiver<T> = Drops> {
    /// Who holds its slot.
    pub stay: Stay<'a, T, C>,
    /// The number of its collector, 0 where there is none.
    number: u64,
    receiver: PhantomData<R>,
    ghost within: { stay.inside ≡ true },
    ghost alone: { stay.guards ≡ 0 },
}

impl<'a, T: Defers + Drop, C: Content<T>> OwnedGuard<'a, T, C> {
    /// Takes the first slot that can be taken, and opens a section of it, of a memory that has no collector. What was chosen as the memory was opened is handed
    /// in.
    pub fn enter(blocks: &'a Blocks<T, C>, fixed: &Fixed) -> Result<Self, Fault>
        requires fixed { blocks.now.words.fixed ≡ fixed.now }
        ensures home { IfOk result (λ guard. guard.stay.caller.blocks.now ≡ blocks.now) }
        ensures number { IfOk result (λ guard. guard.number ≡ 0) }
        ensures fresh { IfOk result (λ guard. guard.stay.seen ≡ 0) }
        ensures refused { IfErr result (λ fault. HasNoSlot fault) }
    {
        OwnedGuard::of(blocks, fixed, 0)
    }
}

impl<'a, T: Defers + Drop, C: Content<T>, R: Receiver<T>> OwnedGuard<'a, T, C, R> {
    /// Returns the same, of a collector of this number.
    pub fn of(blocks: &'a Blocks<T, C>, fixed: &Fixed, number: u64) -> Result<Self, Fault>
        requires fixed { blocks.now.words.fixed ≡ fixed.now }
        ensures home { IfOk result (λ guard. guard.stay.caller.blocks.now ≡ blocks.now) }
        ensures number { IfOk result (λ guard. guard.number ≡ number) }
        ensures fresh { IfOk result (λ guard. guard.stay.seen ≡ 0) }
        ensures refused { IfErr result (λ fault. HasNoSlot fault) }
    {
        let mut stay = Stay::new(blocks, fixed)?;
        stay.refreshes();
        Ok(OwnedGuard {
            stay,
            number,
            receiver: PhantomData,
        })
    }

    /// Returns its collector, for those who share it: it may be asked for further slots while the guard is there.
    pub fn collector(&self) -> Shared<'a, T, C, R>
        ensures home { result.blocks.now ≡ self.now.stay.caller.blocks.now }
        ensures number { result.number ≡ self.now.number }
    {
        self.stay.shared(self.number)
    }
}

impl<'a, T: Defers + Drop, R: Receiver<T>> OwnedGuard<'a, T, OfRows, R> {
    /// Makes a block of a value, which is of its collector; a number is looked for from `near` on, which says then where to look next. Without words for it, or
    /// memory, the value comes back. What it has seen it knows still.
    pub fn make(&self, near: &mut u64, value: T) -> Result<Owned<'a, T>, T>
        ensures made { IfOk result (λ owned. owned.caller.seat.view.knows ≡ Brings owned.block value) }
        ensures home { IfOk result (λ owned. owned.caller.blocks.now ≡ self.now.stay.caller.blocks.now) }
        ensures number { IfOk result (λ owned. owned.number ≡ self.now.number) }
        ensures back { IfErr result (λ back. back ≡ value) }
    {
        self.stay.makes(self.number, near, value)
    }
}

impl<'a, T: Defers + Drop, C: Content<T>, R: Receiver<T>> Guard<T> for OwnedGuard<'a, T, C, R> {
    type Content = C;

    type Receiver = R;

    ghost home = { λ g. record { number = g.number; memory = g.stay.caller.blocks.now.words.id.views_name; roots = g.stay.caller.blocks.now.words.fixed.roots } };

    ghost slot = { λ g. g.stay.slot };

    ghost inside = { λ g. g.stay.inside };

    ghost seen = { λ g. g.stay.seen };

    ghost began = { λ g. (C.notes g.stay.caller.seat.view).began };

    ghost Beside = { C.Beside };

    ghost beside = { λ g. C.beside g.stay.caller.seat.view };

    fn number(&self) -> u64 {
        self.number
    }

    fn thread_id(&self) -> u64 {
        self.stay.slot
    }

    fn refresh(&mut self) {
        self.stay.refreshes();
    }

    fn flush(&mut self) {
        self.stay.flushes();
    }
}

impl<'a, T: Defers + Drop, R: Receiver<T>> RootGuard<T> for OwnedGuard<'a, T, OfRows, R> {
    ghost use Rattle.seize_shared.specs.Guards.Lent.{IsLent};

    ghost lends = { λ g. IsLent T.defers g.stay.caller.blocks.now.words.fixed g.stay.caller.seat.id g.stay.caller.seat.view };

    ghost did = { λ g. g.stay.caller.seat.view.did };

    fn see(&mut self, root: u64) -> bool {
        self.stay.sees(root)
    }

    fn protect(&mut self, root: u64) -> Option<Tagged> {
        self.stay.protects(root)
    }

    fn protect_by<'g>(
        &'g self,
        root: u64,
        pass: &mut Pass<T>,
    ) -> Result<Option<Protected<'g, T>>, Fault> {
        if pass.number() != self.number {
            return Err(Fault::ForeignGuard);
        }
        Ok(self.stay.protects_by(root, pass))
    }

    fn mark_by<'g>(
        &'g self,
        root: u64,
        marks: u64,
        pass: &mut Pass<T>,
    ) -> Result<Option<Protected<'g, T>>, Fault> {
        if self.number != pass.number() {
            return Err(Fault::ForeignGuard);
        }
        Ok(self.stay.marks_by(root, marks, pass))
    }

    fn mark(&mut self, root: u64, marks: u64) -> Option<Tagged> {
        self.stay.marks(root, marks)
    }

    fn value(&self) -> Option<&T> {
        self.stay.value()
    }

    fn put(&mut self, root: u64, value: T) -> Result<(), T> {
        self.stay.puts(root, value)
    }

    fn exchange(&mut self, root: u64, value: T) -> Result<(), T> {
        self.stay.exchanges(root, value)
    }

    fn clear(&mut self, root: u64) -> bool {
        self.stay.clears(root)
    }

    fn takes_over<'b>(&mut self, bearer: &mut Caller<'b, T>, block: u64) {
        self.stay.takes_over(bearer, block);
    }
}

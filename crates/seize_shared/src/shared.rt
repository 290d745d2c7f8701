//! A collector as those have it who share it: they take slots of it, and make blocks.
ghost use Rattle.std.specs.Prelude.{◌≡◌, IfOk, IfErr};
ghost use Rattle.seize_shared.specs.OnThreads.Refused.{HasNoSlot};
ghost use Rattle.seize_views.specs.declared.view.SlotView.TheVariants.{Brings};

use crate::guard::{OwnedGuard, Registration};
use crate::{Owned, Pass};
use seize::rows::Defers;
use seize_blocks::Blocks;
use seize_views::{Content, Fixed, OfRows};
use seize_words::{Drops, Fault, Receiver};
use std::marker::PhantomData;

/// A collector, lent: it may go to other threads, and each of them may take slots of it.
#[derive(Drop)]
pub struct Shared<'c, T: Defers + Drop, C: Content<T> = OfRows, R: Receiver<T> = Drops> {
    blocks: &'c Blocks<T, C>,
    chosen: Fixed,
    number: u64,
    receiver: PhantomData<R>,
    ghost fixed: { blocks.now.words.fixed ≡ chosen },
}

impl<'c, T: Defers + Drop, C: Content<T>, R: Receiver<T>> Shared<'c, T, C, R> {
    /// Makes that of this number, which has this memory, for which this was chosen.
    pub fn of(blocks: &'c Blocks<T, C>, chosen: Fixed, number: u64) -> Self
        requires fixed { blocks.now.words.fixed ≡ chosen }
        ensures home { result.blocks.now ≡ blocks.now }
        ensures number { result.number ≡ number }
    {
        Shared {
            blocks,
            chosen,
            number,
            receiver: PhantomData,
        }
    }

    /// Returns its number, which no other collector of its source has.
    pub fn number(&self) -> u64
        ensures { result ≡ self.now.number }
    {
        self.number
    }

    /// Returns how many roots it has.
    pub fn roots(&self) -> u64
        ensures { result ≡ self.now.blocks.now.words.fixed.roots }
    {
        self.chosen.roots
    }

    /// Returns its memory, and what was chosen for it, for those who take slots of it in a way of their own.
    pub fn memory(&self) -> (&'c Blocks<T, C>, Fixed)
        ensures blocks { result.0.now ≡ self.now.blocks.now }
        ensures chosen { result.0.now.words.fixed ≡ result.1 }
    {
        (self.blocks, self.chosen)
    }

    /// Takes the first slot that can be taken. Where none can be nothing changes.
    pub fn register(&self) -> Result<Registration<'c, T, C, R>, Fault>
        ensures home { IfOk result (λ registration. registration.stay.caller.blocks.now ≡ self.now.blocks.now) }
        ensures number { IfOk result (λ registration. registration.number ≡ self.now.number) }
        ensures refused { IfErr result (λ fault. HasNoSlot fault) }
    {
        Registration::of(self.blocks, &self.chosen, self.number)
    }

    /// Takes the first slot that can be taken, and opens a section of it, by a guard that may be sent. Where none can be taken nothing changes.
    pub fn enter_owned(&self) -> Result<OwnedGuard<'c, T, C, R>, Fault>
        ensures home { IfOk result (λ guard. guard.stay.caller.blocks.now ≡ self.now.blocks.now) }
        ensures number { IfOk result (λ guard. guard.number ≡ self.now.number) }
        ensures fresh { IfOk result (λ guard. guard.stay.seen ≡ 0) }
        ensures refused { IfErr result (λ fault. HasNoSlot fault) }
    {
        OwnedGuard::of(self.blocks, &self.chosen, self.number)
    }
}

impl<'c, T: Defers + Drop, R: Receiver<T>> Shared<'c, T, OfRows, R> {
    /// Makes a block of a value, without a slot; a number is looked for from `near` on, which says then where to look next. Without words for it, or memory, the
    /// value comes back.
    pub fn make(&self, near: &mut u64, value: T) -> Result<Owned<'c, T>, T>
        ensures made { IfOk result (λ owned. owned.caller.seat.view.knows ≡ Brings owned.block value) }
        ensures home { IfOk result (λ owned. owned.caller.blocks.now ≡ self.now.blocks.now) }
        ensures number { IfOk result (λ owned. owned.number ≡ self.now.number) }
        ensures back { IfErr result (λ back. back ≡ value) }
    {
        Owned::of(self.blocks, &self.chosen, self.number, near, value)
    }

    /// Makes a pass, by which a thread takes steps under a guard that others may have, too.
    pub fn pass(&self) -> Pass<T>
        ensures memory { result.pass.seat.base ≡ self.now.blocks.now.words.id.views_name }
        ensures number { result.number ≡ self.now.number }
    {
        Pass::of(self.blocks, self.number)
    }
}

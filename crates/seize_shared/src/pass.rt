//! Passes: by a pass a thread takes steps under a guard that it has by `&`, so that many may at a time.
ghost use Rattle.std.specs.Prelude.{◌≡◌, ◌<◌, ◌^◌, ◌%◌, Some, IfOk, IfErr, IfSome, IfNone};
ghost use Rattle.seize_words.specs.OneMemory.Word.{block_in};
ghost use Rattle.seize_callers.specs.Owning.{borne_by};
ghost use Rattle.seize_views.specs.declared.view.Began.TheVariants.{Retirement};
ghost use Rattle.seize_views.specs.declared.view.Deed.TheVariants.{Looked, Marked};
ghost use Rattle.seize_views.specs.declared.view.SlotView.TheVariants.{Rests};
ghost use Rattle.seize_views.specs.Views.Watched.{open_at};
ghost use Rattle.seize_shared.specs.Guards.Lent.{IsLent};
ghost use Rattle.seize_shared.specs.OnThreads.Refused.{HasNoSlot};

use crate::stay::refusal;
use crate::tagged::{Protected, Tagged};
use seize::rows::Defers;
use seize_blocks::Blocks;
use seize_callers::{Caller, PassSeat as Seat};
use seize_views::OfRows;
use seize_words::Fault;

/// A pass of a collector. It rests between two calls, and may go to another thread, and outlive the guards that it was under.
#[derive(Drop)]
pub struct Pass<T: Defers> {
    pass: Seat<T>,
    /// The number of its collector, 0 where there is none.
    number: u64,
}

impl<T: Defers> Pass<T> {
    /// Makes one more of this memory, of a collector of this number.
    pub fn of(blocks: &Blocks<T, OfRows>, number: u64) -> Self
        ensures memory { result.pass.seat.base ≡ blocks.now.words.id.views_name }
        ensures number { result.number ≡ number }
    {
        Pass {
            pass: Seat::new(blocks),
            number,
        }
    }

    /// Returns the number of its collector, 0 where there is none.
    pub fn number(&self) -> u64
        ensures { result ≡ self.now.number }
    {
        self.number
    }

    /// Looks which word is at a root, under a caller of the same memory whose section is open: the value of the block to which it links is lent for as long as
    /// the caller is borrowed.
    pub fn protect<'g, 'a>(
        &mut self,
        caller: &'g Caller<'a, T>,
        slot: u64,
        root: u64,
    ) -> Protected<'g, T>
        requires own { self.old.pass.seat.base ≡ caller.now.blocks.now.words.id.views_name }
        requires inside { open_at caller.now.seat.view.knows ≡ Some slot }
        requires there { root < caller.now.blocks.now.words.fixed.roots }
        ensures memory { self.new.pass.seat.base ≡ self.old.pass.seat.base }
        ensures number { self.new.number ≡ self.old.number }
        ensures looked { self.new.pass.seat.view.did ≡ Looked root result.tagged.word }
        ensures lent { IfSome result.value (λ value. IsLent T.defers caller.now.blocks.now.words.fixed caller.now.seat.id caller.now.seat.view
            (block_in result.tagged.word) value.now) }
        ensures none { IfNone result.value (block_in result.tagged.word ≡ 0) }
    {
        let (word, value) = caller.protect_by(slot, root, &mut self.pass);
        Protected::of(Tagged::of(word), value)
    }

    /// Returns the same, and it sets marks of the word, of which three bits count. The word that it answers is the one before.
    pub fn mark<'g, 'a>(
        &mut self,
        caller: &'g Caller<'a, T>,
        slot: u64,
        root: u64,
        marks: u64,
    ) -> Protected<'g, T>
        requires own { self.old.pass.seat.base ≡ caller.now.blocks.now.words.id.views_name }
        requires inside { open_at caller.now.seat.view.knows ≡ Some slot }
        requires there { root < caller.now.blocks.now.words.fixed.roots }
        ensures memory { self.new.pass.seat.base ≡ self.old.pass.seat.base }
        ensures number { self.new.number ≡ self.old.number }
        ensures marked { self.new.pass.seat.view.did ≡ Marked root (marks % 8) result.tagged.word }
        ensures lent { IfSome result.value (λ value. IsLent T.defers caller.now.blocks.now.words.fixed caller.now.seat.id caller.now.seat.view
            (block_in result.tagged.word) value.now) }
        ensures none { IfNone result.value (block_in result.tagged.word ≡ 0) }
    {
        let (before, value) = caller.mark_by(slot, root, marks % 8, &mut self.pass);
        Protected::of(Tagged::of(before), value)
    }
}

impl<T: Defers + Drop> Pass<T> {
    /// Retires a block that a caller of the same memory has unlinked, who has no slot (`Unlinked` does so by it): to the batch of the first slot that can be
    /// taken, which is given up then. Where none can be taken the caller has the block still.
    pub fn retires<'b>(&mut self, bearer: &mut Caller<'b, T>, block: u64) -> Result<(), Fault>
        requires own { bearer.old.blocks.now.words.id.views_name ≡ self.old.pass.seat.base }
        requires bears { borne_by bearer.old.seat.view.knows ≡ Some block }
        requires fits { block < 2 ^ 53 }
        ensures memory { self.new.pass.seat.base ≡ self.old.pass.seat.base }
        ensures number { self.new.number ≡ self.old.number }
        ensures began { IfOk result (λ _. self.new.pass.seat.view.began ≡ Retirement) }
        ensures rests { IfOk result (λ _. bearer.new.seat.view.knows ≡ Rests) }
        ensures refused { IfErr result (λ fault. HasNoSlot fault × (bearer.new ≡ bearer.old)) }
    {
        match self.pass.retires(bearer, block) {
            Ok(()) => Ok(()),
            Err(fault) => Err(refusal(fault)),
        }
    }
}

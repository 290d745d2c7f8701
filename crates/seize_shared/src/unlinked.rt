//! A block that was taken from a root, and has a seat of its own, and so needs no slot.
ghost use Rattle.std.specs.Prelude.{◌≡◌, ◌≢◌, ◌<◌, ◌^◌, Some, IfOk, IfErr, IfSome, IfNone};
ghost use Rattle.seize_words.specs.OneMemory.Word.{block_in};
ghost use Rattle.seize_words.specs.declared.fault.Fault.TheVariants.{ForeignGuard};
ghost use Rattle.seize_callers.specs.Owning.{borne_by};
ghost use Rattle.seize_shared.specs.Guards.Homes.{OneSource};
ghost use Rattle.seize_shared.specs.Guards.Lent.{IsLent};
ghost use Rattle.seize_shared.specs.OnThreads.Refused.{HasNoSlot};
ghost use Rattle.seize_views.specs.Views.Told.{alone_with, cut_in};
ghost use Rattle.seize_views.specs.declared.view.Began.TheVariants.{Retirement};

use crate::guarding::RootGuard;
use crate::pass::Pass;
use crate::tagged::Tagged;
use seize::rows::Defers;
use seize_callers::{Caller, named};
use seize_views::{Content, OfRows};
use seize_words::Fault;

/// A block that was taken from a root, and is to be retired. It is spent by that.
pub struct Unlinked<'a, T: Defers, C: Content<T> = OfRows> {
    caller: Caller<'a, T, C>,
    /// The number of its collector, 0 where there is none.
    number: u64,
    /// The word that was there.
    word: u64,
    block: u64,
    ghost names: { block_in word ≡ block },
    ghost bears: { borne_by (C.notes caller.seat.view).knows ≡ Some block },
    ghost fits: { block < 2 ^ 53 },
}

impl<'a, T: Defers> Unlinked<'a, T> {
    /// That of a caller who has unlinked the block of this word, if it names one.
    pub(crate) fn of(caller: Caller<'a, T>, number: u64, word: u64) -> Option<Self>
        requires is { caller.seat.view.knows ≡ alone_with (cut_in word) }
        ensures some { IfSome result (λ old. (old.caller ≡ caller.entry) × (old.number ≡ number) × (old.word ≡ word)) }
        ensures none { IfNone result (block_in word ≡ 0) }
    {
        let block = named(word)?;
        Some(Unlinked {
            caller,
            number,
            word,
            block,
        })
    }

    /// Returns the number of its collector, 0 where there is none.
    pub fn number(&self) -> u64
        ensures { result ≡ self.now.number }
    {
        self.number
    }

    /// Returns the word that was there: a link to it, with its tag.
    pub fn tagged(&self) -> Tagged
        ensures { result.word ≡ self.now.word }
    {
        Tagged::of(self.word)
    }

    /// Returns its value, for as long as it is borrowed: others may look at it still, so it is only lent.
    pub fn value(&self) -> &T
        ensures { IsLent T.defers self.now.caller.blocks.now.words.fixed self.now.caller.seat.id self.now.caller.seat.view self.now.block result.now }
    {
        self.caller.borne(self.block)
    }

    /// Keeps it: its value is there until the memory ends.
    pub fn kept(self) {
        let Unlinked {
            caller,
            number: _,
            word: _,
            block,
        } = self;
        caller.keeps(block);
    }

    /// Parts who has unlinked it from the block: for one who has a slot, and retires it there (`Registration` does so by it).
    pub fn parted(self) -> (Caller<'a, T>, u64)
        ensures caller { result.0 ≡ self.entry.caller }
        ensures block { result.1 ≡ self.entry.block }
    {
        let Unlinked {
            caller,
            number: _,
            word: _,
            block,
        } = self;
        (caller, block)
    }

    /// Retires it under a guard of the same collector. What the guard has seen it doesn't know any more. Under a guard of another collector it is
    /// `Fault::ForeignGuard`: nothing changes, and it comes back.
    pub fn retire<G: RootGuard<T>>(self, guard: &mut G) -> Result<(), (Fault, Self)>
        requires source { OneSource self.number self.caller.blocks.now.words.id.views_name (G.home guard.old) }
        ensures home { G.home guard.new ≡ G.home guard.old }
        ensures slot { G.slot guard.new ≡ G.slot guard.old }
        ensures inside { G.inside guard.new ≡ G.inside guard.old }
        ensures did { G.did guard.new ≡ G.did guard.old }
        ensures foreign { IfErr result (λ refused. (refused.0 ≡ ForeignGuard) × (self.entry.number ≢ (G.home guard.old).number)) }
        ensures back { IfErr result (λ refused. (refused.1 ≡ self.entry) × (guard.new ≡ guard.old)) }
        ensures own { IfOk result (λ _. self.entry.number ≡ (G.home guard.old).number) }
        ensures fresh { IfOk result (λ _. G.seen guard.new ≡ 0) }
        ensures began { IfOk result (λ _. G.began guard.new ≡ Retirement) }
    {
        if guard.number() != self.number {
            return Err((Fault::ForeignGuard, self));
        }
        let (bearer, block) = self.parted();
        let mut bearer = bearer;
        guard.takes_over(&mut bearer, block);
        Ok(())
    }
}

impl<'a, T: Defers + Drop> Unlinked<'a, T> {
    /// Retires it by a pass of the same collector, also where each guard is only lent: to the batch of the first slot that can be taken, which is given up then.
    /// By a pass of another collector it is `Fault::ForeignGuard`: the pass is as it was. Where no slot can be taken the fault says why. It comes back then.
    pub fn retire_by(self, pass: &mut Pass<T>) -> Result<(), (Fault, Self)>
        requires source { OneSource pass.old.number pass.old.pass.seat.base record {
          number = self.number;
          memory = self.caller.blocks.now.words.id.views_name;
          roots = self.caller.blocks.now.words.fixed.roots;
        } }
        ensures memory { pass.new.pass.seat.base ≡ pass.old.pass.seat.base }
        ensures number { pass.new.number ≡ pass.old.number }
        ensures foreign { pass.old.number ≢ self.entry.number → IfErr result (λ refused. (refused.0 ≡ ForeignGuard) × (refused.1 ≡ self.entry) × (pass.new ≡ pass.old)) }
        ensures refused { pass.old.number ≡ self.entry.number → IfErr result (λ refused. HasNoSlot refused.0 × (refused.1.caller ≡ self.entry.caller)) }
        ensures back { IfErr result (λ refused. (refused.1.number ≡ self.entry.number) × (refused.1.word ≡ self.entry.word) × (refused.1.block ≡ self.entry.block)) }
        ensures own { IfOk result (λ _. pass.old.number ≡ self.entry.number) }
        ensures began { IfOk result (λ _. pass.new.pass.seat.view.began ≡ Retirement) }
    {
        if pass.number() != self.number {
            return Err((Fault::ForeignGuard, self));
        }
        let Unlinked {
            caller,
            number,
            word,
            block,
        } = self;
        let mut caller = caller;
        match pass.retires(&mut caller, block) {
            Ok(()) => Ok(()),
            Err(fault) => Err((
                fault,
                Unlinked {
                    caller,
                    number,
                    word,
                    block,
                },
            )),
        }
    }
}

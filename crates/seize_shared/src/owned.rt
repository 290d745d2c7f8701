//! A block that was made, and has a seat of its own, and so needs no slot.
ghost use Rattle.std.specs.Prelude.{◌≡◌, ◌≢◌, ◌<◌, ◌^◌, None, Some, IfOk, IfErr};
ghost use Rattle.seize_words.specs.OneMemory.Word.{link_to};
ghost use Rattle.seize_words.specs.declared.fault.Fault.TheVariants.{ForeignGuard};
ghost use Rattle.seize_callers.specs.Owning.{brought_by};
ghost use Rattle.seize_shared.specs.Guards.Tags.{with_marks};
ghost use Rattle.seize_views.specs.declared.view.Deed.TheVariants.{Looked, Wrote};
ghost use Rattle.seize_views.specs.declared.view.SlotView.TheVariants.{Brings};

use crate::before::Before;
use crate::guarding::RootGuard;
use crate::tagged::Tagged;
use seize::rows::Defers;
use seize_blocks::Blocks;
use seize_callers::Caller;
use seize_views::{Content, Fixed, OfRows};
use seize_words::Fault;

/// A block that was made, of its holder's alone: nobody else can reach it. It is spent, by taking it away, or by putting it at a root.
pub struct Owned<'a, T: Defers, C: Content<T> = OfRows> {
    caller: Caller<'a, T, C>,
    /// The number of its collector, 0 where there is none.
    number: u64,
    roots: u64,
    block: u64,
    ghost rooted: { caller.blocks.now.words.fixed.roots ≡ roots },
    ghost brings: { brought_by (C.notes caller.seat.view).knows ≡ Some block },
    ghost fits: { block < 2 ^ 53 },
}

impl<'a, T: Defers> Owned<'a, T> {
    /// Makes a block of a memory that has no collector; a number is looked for from `near` on, which says then where to look next. Without words for it, or
    /// memory, the value comes back.
    pub fn new(
        blocks: &'a Blocks<T, OfRows>,
        fixed: &Fixed,
        near: &mut u64,
        value: T,
    ) -> Result<Self, T>
        requires fixed { blocks.now.words.fixed ≡ fixed.now }
        ensures made { IfOk result (λ owned. owned.caller.seat.view.knows ≡ Brings owned.block value) }
        ensures home { IfOk result (λ owned. owned.caller.blocks.now ≡ blocks.now) }
        ensures number { IfOk result (λ owned. owned.number ≡ 0) }
        ensures back { IfErr result (λ back. back ≡ value) }
    {
        Owned::of(blocks, fixed, 0, near, value)
    }

    /// Returns the same, of a collector of this number.
    pub fn of(
        blocks: &'a Blocks<T, OfRows>,
        fixed: &Fixed,
        number: u64,
        near: &mut u64,
        value: T,
    ) -> Result<Self, T>
        requires fixed { blocks.now.words.fixed ≡ fixed.now }
        ensures made { IfOk result (λ owned. owned.caller.seat.view.knows ≡ Brings owned.block value) }
        ensures home { IfOk result (λ owned. owned.caller.blocks.now ≡ blocks.now) }
        ensures number { IfOk result (λ owned. owned.number ≡ number) }
        ensures back { IfErr result (λ back. back ≡ value) }
    {
        let mut caller = Caller::new(blocks, fixed.batch_size);
        match caller.brings(near, value) {
            Ok(block) => Ok(Owned {
                caller,
                number,
                roots: fixed.roots,
                block,
            }),
            Err(value) => Err(value),
        }
    }

    /// Returns its value, for as long as it is borrowed.
    pub fn value(&self) -> &T
        ensures same { (value : T) → self.now.caller.seat.view.knows ≡ Brings self.now.block value → result.now ≡ value }
    {
        self.caller.brought(self.block)
    }

    /// Gives the block another value, and answers the one before. The new one keeps its list of further values in the same word as that one, or none as that
    /// one.
    pub fn rewrite(&mut self, value: T) -> T
        requires list { (was : T) → self.old.caller.seat.view.knows ≡ Brings self.old.block was → T.defers value ≡ T.defers was }
        ensures made { self.new.caller.seat.view.knows ≡ Brings self.new.block value }
        ensures back { (was : T) → self.old.caller.seat.view.knows ≡ Brings self.old.block was → result ≡ was }
        ensures block { self.new.block ≡ self.old.block }
        ensures home { self.new.caller.blocks ≡ self.old.caller.blocks }
        ensures number { self.new.number ≡ self.old.number }
        ensures did { self.new.caller.seat.view.did ≡ self.old.caller.seat.view.did }
    {
        self.caller.rewrites(self.block, value)
    }

    /// Takes the block away, and answers its value.
    pub fn into_value(self) -> T
        ensures back { (value : T) → self.entry.caller.seat.view.knows ≡ Brings self.entry.block value → result ≡ value }
    {
        let Owned {
            caller,
            number: _,
            roots: _,
            block,
        } = self;
        let mut caller = caller;
        caller.takes_back(block)
    }

    /// Puts the block at a root, and answers what was there. It comes back where there is no such root.
    pub fn publish(self, root: u64) -> Result<Before<'a, T>, Self>
        ensures home { IfOk result (λ before. before.caller.blocks.now ≡ self.entry.caller.blocks.now) }
        ensures number { IfOk result (λ before. before.number ≡ self.entry.number) }
        ensures back { IfErr result (λ back. back ≡ self.entry) }
        ensures put { IfOk result (λ before. (value : T) → self.entry.caller.seat.view.knows ≡ Brings self.entry.block value
            → before.caller.seat.view.did ≡ Wrote root (with_marks (link_to self.entry.block) 0) (Some value) before.word) }
    {
        if root >= self.roots {
            return Err(self);
        }
        let Owned {
            caller,
            number,
            roots: _,
            block,
        } = self;
        let mut caller = caller;
        let word = caller.links(root, block, 0);
        Ok(Before::of(caller, number, word))
    }

    /// Puts the block at a root, by a word with these marks, of which three bits count, while a guard of the same collector is there, and answers what was
    /// there. With a guard of another collector it is `Fault::ForeignGuard`: nothing changes, and the block comes back.
    pub fn swap<G: RootGuard<T>>(
        self,
        guard: &G,
        root: u64,
        marks: u64,
    ) -> Result<Before<'a, T>, (Fault, Self)>
        requires root { root < self.caller.blocks.now.words.fixed.roots }
        ensures foreign { IfErr result (λ refused. (refused.0 ≡ ForeignGuard) × (self.entry.number ≢ (G.home guard.now).number) × (refused.1 ≡ self.entry)) }
        ensures own { IfOk result (λ _. self.entry.number ≡ (G.home guard.now).number) }
        ensures home { IfOk result (λ before. before.caller.blocks.now ≡ self.entry.caller.blocks.now) }
        ensures number { IfOk result (λ before. before.number ≡ self.entry.number) }
        ensures put { IfOk result (λ before. (value : T) → self.entry.caller.seat.view.knows ≡ Brings self.entry.block value
            → before.caller.seat.view.did ≡ Wrote root (with_marks (link_to self.entry.block) marks) (Some value) before.word) }
    {
        if self.number != guard.number() {
            return Err((Fault::ForeignGuard, self));
        }
        let Owned {
            caller,
            number,
            roots: _,
            block,
        } = self;
        let mut caller = caller;
        let word = caller.links(root, block, marks % 8);
        Ok(Before::of(caller, number, word))
    }

    /// Puts the block at a root, by a word with these marks, of which three bits count, where the whole word is `old`, block and tag, while a guard of the same
    /// collector is there; and answers that it was there. Where another word is there it answers that one, and the block comes back. With a guard of another
    /// collector it is `Fault::ForeignGuard`: nothing changes, and the block comes back.
    pub fn compare_exchange<G: RootGuard<T>>(
        self,
        guard: &G,
        root: u64,
        old: Tagged,
        marks: u64,
    ) -> Result<Result<Before<'a, T>, (Tagged, Self)>, (Fault, Self)>
        requires root { root < self.caller.blocks.now.words.fixed.roots }
        ensures foreign { IfErr result (λ refused. (refused.0 ≡ ForeignGuard) × (self.entry.number ≢ (G.home guard.now).number) × (refused.1 ≡ self.entry)) }
        ensures own { IfOk result (λ _. self.entry.number ≡ (G.home guard.now).number) }
        ensures home { IfOk result (λ tried. IfOk tried (λ before. before.caller.blocks.now ≡ self.entry.caller.blocks.now)) }
        ensures number { IfOk result (λ tried. IfOk tried (λ before. before.number ≡ self.entry.number)) }
        ensures put { IfOk result (λ tried. IfOk tried (λ before. (value : T) → self.entry.caller.seat.view.knows ≡ Brings self.entry.block value
            → before.caller.seat.view.did ≡ Wrote root (with_marks (link_to self.entry.block) marks) (Some value) old.word)) }
        ensures word { IfOk result (λ tried. IfOk tried (λ before. before.word ≡ old.word)) }
        ensures other { IfOk result (λ tried. IfErr tried (λ found. (found.0.word ≢ old.word) × (found.1.caller.seat.view.did ≡ Looked root found.0.word))) }
        ensures same { IfOk result (λ tried. IfErr tried (λ found. (found.1.caller.blocks.now ≡ self.entry.caller.blocks.now) × (found.1.number ≡ self.entry.number)
            × (found.1.block ≡ self.entry.block))) }
        ensures back { IfOk result (λ tried. IfErr tried (λ found. (value : T) → self.entry.caller.seat.view.knows ≡ Brings self.entry.block value
            → found.1.caller.seat.view.knows ≡ Brings found.1.block value)) }
    {
        if self.number != guard.number() {
            return Err((Fault::ForeignGuard, self));
        }
        let Owned {
            caller,
            number,
            roots,
            block,
        } = self;
        let mut caller = caller;
        match caller.exchanges(root, old.word(), block, marks % 8) {
            Ok(()) => Ok(Ok(Before::of(caller, number, old.word()))),
            Err(now) => {
                let owned = Owned {
                    caller,
                    number,
                    roots,
                    block,
                };
                Ok(Err((Tagged::of(now), owned)))
            }
        }
    }

    /// Does the same: it fails only where that does.
    pub fn compare_exchange_weak<G: RootGuard<T>>(
        self,
        guard: &G,
        root: u64,
        old: Tagged,
        marks: u64,
    ) -> Result<Result<Before<'a, T>, (Tagged, Self)>, (Fault, Self)>
        requires root { root < self.caller.blocks.now.words.fixed.roots }
        ensures foreign { IfErr result (λ refused. (refused.0 ≡ ForeignGuard) × (self.entry.number ≢ (G.home guard.now).number) × (refused.1 ≡ self.entry)) }
        ensures own { IfOk result (λ _. self.entry.number ≡ (G.home guard.now).number) }
        ensures home { IfOk result (λ tried. IfOk tried (λ before. before.caller.blocks.now ≡ self.entry.caller.blocks.now)) }
        ensures number { IfOk result (λ tried. IfOk tried (λ before. before.number ≡ self.entry.number)) }
        ensures put { IfOk result (λ tried. IfOk tried (λ before. (value : T) → self.entry.caller.seat.view.knows ≡ Brings self.entry.block value
            → before.caller.seat.view.did ≡ Wrote root (with_marks (link_to self.entry.block) marks) (Some value) old.word)) }
        ensures word { IfOk result (λ tried. IfOk tried (λ before. before.word ≡ old.word)) }
        ensures other { IfOk result (λ tried. IfErr tried (λ found. (found.0.word ≢ old.word) × (found.1.caller.seat.view.did ≡ Looked root found.0.word))) }
        ensures same { IfOk result (λ tried. IfErr tried (λ found. (found.1.caller.blocks.now ≡ self.entry.caller.blocks.now) × (found.1.number ≡ self.entry.number)
            × (found.1.block ≡ self.entry.block))) }
        ensures back { IfOk result (λ tried. IfErr tried (λ found. (value : T) → self.entry.caller.seat.view.knows ≡ Brings self.entry.block value
            → found.1.caller.seat.view.knows ≡ Brings found.1.block value)) }
    {
        self.compare_exchange(guard, root, old, marks)
    }

    /// Puts the block at a root where no word is. Else, or where there is no such root, it comes back.
    pub fn place(self, root: u64) -> Result<Before<'a, T>, Self>
        ensures home { IfOk result (λ before. before.caller.blocks.now ≡ self.entry.caller.blocks.now) }
        ensures number { IfOk result (λ before. before.number ≡ self.entry.number) }
        ensures put { IfOk result (λ before. (value : T) → self.entry.caller.seat.view.knows ≡ Brings self.entry.block value
            → before.caller.seat.view.did ≡ Wrote root (with_marks (link_to self.entry.block) 0) (Some value) 0) }
        ensures word { IfOk result (λ before. before.word ≡ 0) }
        ensures same { IfErr result (λ back. (back.caller.blocks.now ≡ self.entry.caller.blocks.now) × (back.number ≡ self.entry.number)
            × (back.block ≡ self.entry.block)) }
        ensures back { IfErr result (λ back. (value : T) → self.entry.caller.seat.view.knows ≡ Brings self.entry.block value
            → back.caller.seat.view.knows ≡ Brings back.block value) }
    {
        if root >= self.roots {
            return Err(self);
        }
        let Owned {
            caller,
            number,
            roots,
            block,
        } = self;
        let mut caller = caller;
        match caller.exchanges(root, 0, block, 0) {
            Ok(()) => Ok(Before::of(caller, number, 0)),
            Err(_) => Err(Owned {
                caller,
                number,
                roots,
                block,
            }),
        }
    }
}

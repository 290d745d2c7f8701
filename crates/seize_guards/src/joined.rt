//! A block that was made for a chain, and has a seat of its own, and so needs no slot.
ghost use Rattle.std.specs.Prelude.{◌≡◌, ◌≢◌, ◌<◌, ◌^◌, Some, IfOk, IfErr, IfNone, IfSome, true, false};
ghost use Rattle.seize_guards.specs.Joining.{joined_by};
ghost use Rattle.seize_views.specs.Views.Chains.{IsChainRoot};
ghost use Rattle.seize_views.specs.declared.view.TheConstants.{LINK};
ghost use Rattle.seize_views.specs.declared.view.Deed.TheVariants.{Looked};
ghost use Rattle.seize_views.specs.declared.view.SlotView.TheVariants.{Joins};

use crate::joining::{joined, joins, names_below, stacks, takes_apart};
use seize::rows::Defers;
use seize_blocks::Blocks;
use seize_callers::Caller;
use seize_shared::Tagged;
use seize_views::{Content, Fixed, OfRows};

/// A block that was made for a chain, of its holder's alone: nobody else can reach it. It is spent, by taking it away, or by putting it at the root of a chain.
pub struct Joined<'a, T: Defers, C: Content<T> = OfRows> {
    caller: Caller<'a, T, C>,
    roots: u64,
    chains: u64,
    block: u64,
    /// The word that names the block which its link names.
    below: u64,
    ghost rooted: { caller.blocks.now.words.fixed.roots ≡ roots },
    ghost chained: { caller.blocks.now.words.fixed.chains ≡ chains },
    ghost joins: { joined_by (C.notes caller.seat.view).knows ≡ Some (block, below) },
    ghost fits: { block < 2 ^ 53 },
}

impl<'a, T: Defers> Joined<'a, T> {
    /// Makes a block of a value that keeps no list of further values in the word of the link; a number is looked for from `near` on, which says then where to
    /// look next. Without words for it, or memory, the value comes back.
    pub fn new(
        blocks: &'a Blocks<T, OfRows>,
        fixed: &Fixed,
        near: &mut u64,
        value: T,
    ) -> Result<Self, T>
        requires fixed { blocks.now.words.fixed ≡ fixed.now }
        requires link { T.defers value ≢ Some LINK }
        ensures made { IfOk result (λ joined. joined.caller.seat.view.knows ≡ Joins (Some (joined.block, value, joined.below))) }
        ensures home { IfOk result (λ joined. joined.caller.blocks.now ≡ blocks.now) }
        ensures back { IfErr result (λ back. back ≡ value) }
    {
        let mut caller = Caller::new(blocks, fixed.batch_size);
        match joins(blocks, &mut caller.seat, near, value) {
            Ok(block) => Ok(Joined {
                caller,
                roots: fixed.roots,
                chains: fixed.chains,
                block,
                below: 0,
            }),
            Err(value) => Err(value),
        }
    }

    /// Returns its value, for as long as it is borrowed.
    pub fn value(&self) -> &T
        ensures same { (value : T) → self.now.caller.seat.view.knows ≡ Joins (Some (self.now.block, value, self.now.below)) → result.now ≡ value }
    {
        joined(
            self.caller.blocks(),
            &self.caller.seat,
            self.block,
            self.below,
        )
    }

    /// Takes the block away, and answers its value.
    pub fn into_value(self) -> T
        ensures back { (value : T) → self.entry.caller.seat.view.knows ≡ Joins (Some (self.entry.block, value, self.entry.below)) → result ≡ value }
    {
        let Joined {
            caller,
            roots: _,
            chains: _,
            block,
            below,
        } = self;
        let mut caller = caller;
        let blocks = caller.blocks();
        takes_apart(blocks, &mut caller.seat, block, below)
    }

    /// Tells whether this is the root of a chain.
    fn has_chain(&self, root: u64) -> bool
        ensures is { result ≡ true → IsChainRoot self.now.caller.blocks.now.words.fixed root }
        ensures not { result ≡ false → IsChainRoot self.now.caller.blocks.now.words.fixed root → ⊥ }
    {
        root >= self.roots && root - self.roots < self.chains
    }

    /// Puts the block at the root of a chain, where this word is, above the block that it names. Where another word is there it answers that, and the block
    /// comes back. It comes back, too, where this is no such root.
    pub fn stack(self, root: u64, old: Tagged) -> Result<(), (Option<Tagged>, Self)>
        ensures home { IfErr result (λ back. back.1.caller.blocks.now ≡ self.entry.caller.blocks.now) }
        ensures block { IfErr result (λ back. back.1.block ≡ self.entry.block) }
        ensures back { IfErr result (λ back. (value : T) → self.entry.caller.seat.view.knows ≡ Joins (Some (self.entry.block, value, self.entry.below))
            → back.1.caller.seat.view.knows ≡ Joins (Some (back.1.block, value, back.1.below))) }
        ensures other { IfErr result (λ back. IfSome back.0 (λ found. (found.word ≢ old.word) × (back.1.caller.seat.view.did ≡ Looked root found.word))) }
        ensures none { IfErr result (λ back. IfNone back.0 ((IsChainRoot self.entry.caller.blocks.now.words.fixed root → ⊥) × (back.1 ≡ self.entry))) }
    {
        if !self.has_chain(root) {
            return Err((None, self));
        }
        let Joined {
            caller,
            roots,
            chains,
            block,
            below,
        } = self;
        let mut caller = caller;
        let unpacked = old.unpack();
        let blocks = caller.blocks();
        names_below(blocks, &mut caller.seat, block, below, old.word());
        match stacks(blocks, &mut caller.seat, root, old.word(), block) {
            Ok(()) => Ok(()),
            Err(now) => Err((
                Some(Tagged::of(now)),
                Joined {
                    caller,
                    roots,
                    chains,
                    block,
                    below: unpacked.block,
                },
            )),
        }
    }
}

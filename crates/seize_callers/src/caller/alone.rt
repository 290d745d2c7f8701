//! A caller without a slot, and a block of its own.
ghost use Rattle.std.specs.Prelude.{◌≡◌, ◌≢◌, ◌<◌, ◌+◌, ◌^◌, Some, IfOk, IfErr};
ghost use Rattle.seize_words.specs.OneMemory.Word.{link_to, block_in};
ghost use Rattle.seize_seats.specs.Seats.Lendings.{IsValueOf};
ghost use Rattle.seize_views.specs.Views.Notes.{NotedHolds};
ghost use Rattle.seize_callers.specs.Owning.{borne_by, brought_by};
ghost use Rattle.seize_views.specs.Views.Told.{alone_with, cut_in};
ghost use Rattle.seize_views.specs.declared.view.Deed.TheVariants.{Looked, Wrote};
ghost use Rattle.seize_views.specs.Views.Promises.{IsLooking, IsTaker};
ghost use Rattle.seize_views.specs.declared.view.Has.{Has};
ghost use Rattle.seize_views.specs.declared.view.Has.TheVariants.{Cut};
ghost use Rattle.seize_views.specs.declared.view.SlotView.TheVariants.{Brings, Inside, Outside, Owes, Rests};

use crate::caller::{Caller, words_for};
use seize::rows::Defers;
use seize_blocks::Seat;
use seize_views::OfRows;
use seize_views::turns::Handing;
use seize_words::{At, Link};

/// The word that links to a block, with these marks.
pub fn marked(block: u64, marks: u64) -> u64
    requires fits { block < 2 ^ 53 }
    requires marks { marks < 8 }
    ensures word { result ≡ link_to block + marks }
    ensures names { block_in result ≡ block }
{
    Link::to(block).wrapping_add(marks)
}

impl<'a, T: Defers> Caller<'a, T> {
    /// Makes its own block; a number is looked for from `near` on, which says then where to look next. Without words for it, or memory, the value comes back.
    pub fn brings(&mut self, near: &mut u64, value: T) -> Result<u64, T>
        requires rests { self.old.seat.view.knows ≡ Rests }
        ensures made { IfOk result (λ block. (self.new.seat.view.knows ≡ Brings block value) × (block < 2 ^ 53)) }
        ensures refused { IfErr result (λ back. self.new.seat.view.knows ≡ Rests) }
        ensures back { IfErr result (λ back. back ≡ value) }
        ensures blocks { self.new.blocks ≡ self.old.blocks }
    {
        match words_for(&value) {
            Some(words) => self.blocks.make(&mut self.seat, near, value, words),
            None => Err(value),
        }
    }

    /// Returns the value of its own block, for as long as it is borrowed.
    pub fn brought(&self, block: u64) -> &T
        requires brings { brought_by self.now.seat.view.knows ≡ Some block }
        ensures same { (value : T) → self.now.seat.view.knows ≡ Brings block value → result.now ≡ value }
    {
        self.blocks.value(&self.seat, block)
    }

    /// Gives its own block another value, which keeps its list of further values in the same word, or none as well, and answers the one before.
    pub fn rewrites(&mut self, block: u64, value: T) -> T
        requires brings { brought_by self.old.seat.view.knows ≡ Some block }
        requires list { (was : T) → self.old.seat.view.knows ≡ Brings block was → T.defers value ≡ T.defers was }
        ensures made { self.new.seat.view.knows ≡ Brings block value }
        ensures back { (was : T) → self.old.seat.view.knows ≡ Brings block was → result ≡ was }
        ensures did { self.new.seat.view.did ≡ self.old.seat.view.did }
        ensures blocks { self.new.blocks ≡ self.old.blocks }
    {
        self.blocks.rewrite(&mut self.seat, block, value)
    }

    /// Takes its own block away, and answers its value.
    pub fn takes_back(&mut self, block: u64) -> T
        requires brings { brought_by self.old.seat.view.knows ≡ Some block }
        ensures rests { self.new.seat.view.knows ≡ Rests }
        ensures back { (value : T) → self.old.seat.view.knows ≡ Brings block value → result ≡ value }
        ensures blocks { self.new.blocks ≡ self.old.blocks }
    {
        self.blocks.take(&mut self.seat, block)
    }

    /// Puts its own block at a root, by a word with these marks, and answers which word was there: the block that it names is to be handed on.
    pub fn links(&mut self, root: u64, block: u64, marks: u64) -> u64
        requires brings { brought_by self.old.seat.view.knows ≡ Some block }
        requires root { root < self.old.blocks.now.words.fixed.roots }
        requires fits { block < 2 ^ 53 }
        requires marks { marks < 8 }
        ensures is { self.new.seat.view.knows ≡ alone_with (cut_in result) }
        ensures put { (value : T) → self.old.seat.view.knows ≡ Brings block value
            → self.new.seat.view.did ≡ Wrote root (link_to block + marks) (Some value) result }
        ensures blocks { self.new.blocks ≡ self.old.blocks }
    {
        let word = marked(block, marks);
        self.blocks.swap(&mut self.seat, At::Root(root), word)
    }

    /// Puts its own block at a root, by a word with these marks, where this word is, whose block is to be handed on then. Else it answers which word is there.
    pub fn exchanges(&mut self, root: u64, old: u64, block: u64, marks: u64) -> Result<(), u64>
        requires brings { brought_by self.old.seat.view.knows ≡ Some block }
        requires root { root < self.old.blocks.now.words.fixed.roots }
        requires fits { block < 2 ^ 53 }
        requires marks { marks < 8 }
        ensures is { IfOk result (λ _. self.new.seat.view.knows ≡ alone_with (cut_in old)) }
        ensures put { IfOk result (λ _. (value : T) → self.old.seat.view.knows ≡ Brings block value
            → self.new.seat.view.did ≡ Wrote root (link_to block + marks) (Some value) old) }
        ensures other { IfErr result (λ now. now ≢ old) }
        ensures looked { IfErr result (λ now. self.new.seat.view.did ≡ Looked root now) }
        ensures still { IfErr result (λ now. brought_by self.new.seat.view.knows ≡ Some block) }
        ensures same { IfErr result (λ now. (value : T) → self.old.seat.view.knows ≡ Brings block value → self.new.seat.view.knows ≡ Brings block value) }
        ensures blocks { self.new.blocks ≡ self.old.blocks }
    {
        let word = marked(block, marks);
        match self
            .blocks
            .exchange(&mut self.seat, At::Root(root), old, word)
        {
            Ok(_) => Ok(()),
            Err(now) => Err(now),
        }
    }

    /// Returns the value of the block that it has unlinked, for as long as it is borrowed.
    pub fn borne(&self, block: u64) -> &T
        requires bears { borne_by self.now.seat.view.knows ≡ Some block }
        ensures { IsValueOf (NotedHolds T.defers self.now.blocks.now.words.fixed) self.now.seat.id self.now.seat.view block result.now }
    {
        self.blocks.value(&self.seat, block)
    }

    /// Hands the block that it has unlinked on, to a seat of the same memory that has a slot, and no block in its hand: what that one has seen it doesn't know
    /// any more.
    pub(crate) fn hands_on(&mut self, _block: u64, _slot: u64, taker: &mut Seat<T, OfRows>)
        requires own { taker.old.base ≡ self.old.blocks.now.words.id.views_name }
        requires bears { borne_by self.old.seat.view.knows ≡ Some _block }
        requires takes { IsTaker taker.old.view.knows }
        ensures outside { taker.old.view.knows ≡ Outside _slot → taker.new.view.knows ≡ Owes _slot _block }
        ensures inside { (has : Has T) → IsLooking has → taker.old.view.knows ≡ Inside _slot has
            → taker.new.view.knows ≡ Inside _slot (Cut _block) }
        ensures did { taker.new.view.did ≡ taker.old.view.did }
        ensures guards { taker.new.view.guards ≡ taker.old.view.guards }
        ensures same { (taker.new.base ≡ taker.old.base) × (taker.new.away ≡ taker.old.away) }
        ensures rests { self.new.seat.view.knows ≡ Rests }
        ensures blocks { self.new.blocks ≡ self.old.blocks }
    {
        self.blocks.meet::<Handing>(&mut self.seat, taker);
    }

    /// Lets the block be that it has unlinked: nobody retires it, and it is there until the memory ends.
    pub fn keeps(self, _block: u64)
        requires bears { borne_by self.seat.view.knows ≡ Some _block }
    {
        let Caller {
            blocks: _,
            batch_size: _,
            seat: _,
            near: _,
        } = self;
    }
}

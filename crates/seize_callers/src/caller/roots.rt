//! What a caller does at roots, and with blocks, where rows are all there is.
ghost use Rattle.std.specs.Prelude.{◌≡◌, ◌≢◌, ◌<◌, ◌^◌, Some, None, IfOk, IfErr, IfSome, IfNone, unwrap_or};
ghost use Rattle.seize_seats.specs.Seats.Lendings.{IsValueOf};
ghost use Rattle.seize_views.specs.Views.Promises.{IsLooking, IsTaker};
ghost use Rattle.seize_views.specs.Views.Notes.{NotedHolds, looked_at, written_at};
ghost use Rattle.seize_views.specs.Views.Told.{seen_as, seen_in, cut_as, made_beside};
ghost use Rattle.seize_callers.specs.Owning.{borne_by};
ghost use Rattle.seize_views.specs.declared.view.Deed.TheVariants.{Looked, Marked};
ghost use Rattle.seize_views.specs.declared.view.SlotView.TheVariants.{Rests, Outside, Owes, Inside};
ghost use Rattle.seize_views.specs.declared.view.Has.{Has};
ghost use Rattle.seize_views.specs.declared.view.Has.TheVariants.{Nothing, Made, Seen, Cut};

use crate::caller::{Caller, named, words_for};
use seize::rows::Defers;
use seize_words::{At, Link};

impl<'a, T: Defers> Caller<'a, T> {
    /// Makes a block within the section of its slot, with the words that its value asks for. Where there are none, or memory is refused, the value comes back.
    pub fn make(&mut self, _slot: u64, value: T) -> Result<u64, T>
        requires inside { self.old.seat.view.knows ≡ Inside _slot Nothing }
        ensures made { IfOk result (λ block. (self.new.seat.view.knows ≡ Inside _slot (Made block value)) × (block < 2 ^ 53)) }
        ensures refused { IfErr result (λ back. self.new.seat.view.knows ≡ Inside _slot Nothing) }
        ensures back { IfErr result (λ back. back ≡ value) }
        ensures blocks { self.new.blocks ≡ self.old.blocks }
        ensures guards { self.new.seat.view.guards ≡ self.old.seat.view.guards }
    {
        self.make_beside(_slot, 0, value)
    }

    /// Makes a block beside the one that it has seen, or none, which is 0. Where there are no words for it, or memory is refused, the value comes back.
    pub fn make_beside(&mut self, _slot: u64, _seen: u64, value: T) -> Result<u64, T>
        requires inside { self.old.seat.view.knows ≡ Inside _slot (seen_as _seen) }
        ensures made { IfOk result (λ block. (self.new.seat.view.knows ≡ Inside _slot (made_beside block value _seen)) × (block < 2 ^ 53)) }
        ensures refused { IfErr result (λ back. self.new.seat.view.knows ≡ Inside _slot (seen_as _seen)) }
        ensures back { IfErr result (λ back. back ≡ value) }
        ensures blocks { self.new.blocks ≡ self.old.blocks }
        ensures guards { self.new.seat.view.guards ≡ self.old.seat.view.guards }
    {
        match words_for(&value) {
            Some(words) => self
                .blocks
                .make(&mut self.seat, &mut self.near, value, words),
            None => Err(value),
        }
    }

    /// Takes the block away that it has made beside the one that it has seen, and answers its value.
    pub fn take_beside(&mut self, _slot: u64, _seen: u64, block: u64) -> T
        requires has { (value : T) × (self.old.seat.view.knows ≡ Inside _slot (made_beside block value _seen)) }
        ensures taken { self.new.seat.view.knows ≡ Inside _slot (seen_as _seen) }
        ensures back { (value : T) → self.old.seat.view.knows ≡ Inside _slot (made_beside block value _seen) → result ≡ value }
        ensures did { self.new.seat.view.did ≡ self.old.seat.view.did }
        ensures blocks { self.new.blocks ≡ self.old.blocks }
        ensures guards { self.new.seat.view.guards ≡ self.old.seat.view.guards }
    {
        self.blocks.take(&mut self.seat, block)
    }

    /// Takes the block away that it has made, and answers its value.
    pub fn take(&mut self, _slot: u64, block: u64) -> T
        requires has { (value : T) × (self.old.seat.view.knows ≡ Inside _slot (Made block value)) }
        ensures taken { self.new.seat.view.knows ≡ Inside _slot Nothing }
        ensures back { (value : T) → self.old.seat.view.knows ≡ Inside _slot (Made block value) → result ≡ value }
        ensures blocks { self.new.blocks ≡ self.old.blocks }
        ensures guards { self.new.seat.view.guards ≡ self.old.seat.view.guards }
    {
        self.take_beside(_slot, 0, block)
    }

    /// Puts the block that it has made at a root, and answers which one was there, and is to be retired.
    pub fn publish(&mut self, _slot: u64, root: u64, block: u64) -> Option<u64>
        requires has { (value : T) × (self.old.seat.view.knows ≡ Inside _slot (Made block value)) }
        requires root { root < self.old.blocks.now.words.fixed.roots }
        requires fits { block < 2 ^ 53 }
        ensures cut { IfSome result (λ old. (self.new.seat.view.knows ≡ Inside _slot (Cut old)) × (old < 2 ^ 53)) }
        ensures none { IfNone result (self.new.seat.view.knows ≡ Inside _slot Nothing) }
        ensures put { (value : T) → self.old.seat.view.knows ≡ Inside _slot (Made block value)
            → written_at self.new.seat.view.did ≡ Some (root, Some value, unwrap_or result 0) }
        ensures blocks { self.new.blocks ≡ self.old.blocks }
        ensures guards { self.new.seat.view.guards ≡ self.old.seat.view.guards }
    {
        let old = self
            .blocks
            .swap(&mut self.seat, At::Root(root), Link::to(block));
        named(old)
    }

    /// Puts the block that it has made at a root if the one that it has seen is there, or none where that is 0, which is then to be retired. Else it answers
    /// which one is there, 0 for none, and has seen that one.
    pub fn exchange(&mut self, _slot: u64, root: u64, seen: u64, block: u64) -> Result<(), u64>
        requires has { (value : T) × (self.old.seat.view.knows ≡ Inside _slot (made_beside block value seen)) }
        requires root { root < self.old.blocks.now.words.fixed.roots }
        requires fits { (block < 2 ^ 53) × (seen < 2 ^ 53) }
        ensures cut { IfOk result (λ _. self.new.seat.view.knows ≡ Inside _slot (cut_as seen)) }
        ensures other { IfErr result (λ now. (value : T) → self.old.seat.view.knows ≡ Inside _slot (made_beside block value seen)
            → self.new.seat.view.knows ≡ Inside _slot (made_beside block value now)) }
        ensures small { IfErr result (λ now. now < 2 ^ 53) }
        ensures put { IfOk result (λ _. (value : T) → self.old.seat.view.knows ≡ Inside _slot (made_beside block value seen)
            → written_at self.new.seat.view.did ≡ Some (root, Some value, seen)) }
        ensures looked { IfErr result (λ now. looked_at self.new.seat.view.did ≡ Some (root, now)) }
        ensures blocks { self.new.blocks ≡ self.old.blocks }
        ensures guards { self.new.seat.view.guards ≡ self.old.seat.view.guards }
    {
        let there = Link::to(seen);
        let word = Link::to(block);
        match self
            .blocks
            .exchange(&mut self.seat, At::Root(root), there, word)
        {
            Ok(_) => Ok(()),
            Err(word) => Err(Link::block_of(word)),
        }
    }

    /// Takes the block from a root, and answers which one was there, and is to be retired.
    pub fn remove(&mut self, _slot: u64, root: u64) -> Option<u64>
        requires inside { self.old.seat.view.knows ≡ Inside _slot Nothing }
        requires root { root < self.old.blocks.now.words.fixed.roots }
        ensures cut { IfSome result (λ old. (self.new.seat.view.knows ≡ Inside _slot (Cut old)) × (old < 2 ^ 53) × (old ≢ 0)) }
        ensures none { IfNone result (self.new.seat.view.knows ≡ Inside _slot Nothing) }
        ensures took { written_at self.new.seat.view.did ≡ Some (root, None, unwrap_or result 0) }
        ensures blocks { self.new.blocks ≡ self.old.blocks }
        ensures guards { self.new.seat.view.guards ≡ self.old.seat.view.guards }
    {
        let old = self.blocks.swap(&mut self.seat, At::Root(root), 0);
        named(old)
    }

    /// Takes the block from a root while no section of its slot is open, and answers which one was there, and is to be retired.
    pub fn withdraw(&mut self, _slot: u64, root: u64) -> Option<u64>
        requires outside { self.old.seat.view.knows ≡ Outside _slot }
        requires root { root < self.old.blocks.now.words.fixed.roots }
        ensures owes { IfSome result (λ old. (self.new.seat.view.knows ≡ Owes _slot old) × (old < 2 ^ 53) × (old ≢ 0)) }
        ensures none { IfNone result (self.new.seat.view.knows ≡ Outside _slot) }
        ensures took { written_at self.new.seat.view.did ≡ Some (root, None, unwrap_or result 0) }
        ensures blocks { self.new.blocks ≡ self.old.blocks }
        ensures guards { self.new.seat.view.guards ≡ self.old.seat.view.guards }
    {
        let old = self.blocks.swap(&mut self.seat, At::Root(root), 0);
        named(old)
    }

    /// Takes over a block that another caller of the same memory has unlinked, who has no slot. What it has seen it doesn't know any more.
    pub fn takes_over<'b>(&mut self, _slot: u64, bearer: &mut Caller<'b, T>, _block: u64)
        requires home { bearer.old.blocks.now.words.id.views_name ≡ self.old.blocks.now.words.id.views_name }
        requires bears { borne_by bearer.old.seat.view.knows ≡ Some _block }
        requires takes { IsTaker self.old.seat.view.knows }
        ensures outside { self.old.seat.view.knows ≡ Outside _slot → self.new.seat.view.knows ≡ Owes _slot _block }
        ensures inside { (has : Has T) → IsLooking has → self.old.seat.view.knows ≡ Inside _slot has
            → self.new.seat.view.knows ≡ Inside _slot (Cut _block) }
        ensures did { self.new.seat.view.did ≡ self.old.seat.view.did }
        ensures rests { bearer.new.seat.view.knows ≡ Rests }
        ensures home { bearer.new.blocks ≡ bearer.old.blocks }
        ensures blocks { self.new.blocks ≡ self.old.blocks }
        ensures guards { self.new.seat.view.guards ≡ self.old.seat.view.guards }
    {
        bearer.hands_on(_block, _slot, &mut self.seat);
    }

    /// Sees which block is at a root. Its section holds it from now on. What it has seen before it doesn't know any more.
    pub fn see(&mut self, _slot: u64, root: u64) -> Option<u64>
        requires inside { (has : Has T) × IsLooking has × (self.old.seat.view.knows ≡ Inside _slot has) }
        requires root { root < self.old.blocks.now.words.fixed.roots }
        ensures seen { IfSome result (λ block. self.new.seat.view.knows ≡ Inside _slot (Seen block)) }
        ensures some { IfSome result (λ block. (block ≢ 0) × (block < 2 ^ 53)) }
        ensures none { IfNone result (self.new.seat.view.knows ≡ Inside _slot Nothing) }
        ensures looked { looked_at self.new.seat.view.did ≡ Some (root, unwrap_or result 0) }
        ensures blocks { self.new.blocks ≡ self.old.blocks }
        ensures guards { self.new.seat.view.guards ≡ self.old.seat.view.guards }
    {
        let word = self.protect(_slot, root);
        named(word)
    }

    /// Sees which word is at a root. Its section holds the block that it names from now on. What it has seen before it doesn't know any more.
    pub fn protect(&mut self, _slot: u64, root: u64) -> u64
        requires inside { (has : Has T) × IsLooking has × (self.old.seat.view.knows ≡ Inside _slot has) }
        requires root { root < self.old.blocks.now.words.fixed.roots }
        ensures seen { self.new.seat.view.knows ≡ Inside _slot (seen_in result) }
        ensures looked { self.new.seat.view.did ≡ Looked root result }
        ensures blocks { self.new.blocks ≡ self.old.blocks }
        ensures guards { self.new.seat.view.guards ≡ self.old.seat.view.guards }
    {
        self.blocks.load(&mut self.seat, At::Root(root))
    }

    /// Sets bits of the tag of the word at a root, and answers which word was there: it has seen the block that this names.
    pub fn mark(&mut self, _slot: u64, root: u64, bits: u64) -> u64
        requires inside { (has : Has T) × IsLooking has × (self.old.seat.view.knows ≡ Inside _slot has) }
        requires root { root < self.old.blocks.now.words.fixed.roots }
        requires bits { bits < 2 ^ 11 }
        ensures seen { self.new.seat.view.knows ≡ Inside _slot (seen_in result) }
        ensures marked { self.new.seat.view.did ≡ Marked root bits result }
        ensures blocks { self.new.blocks ≡ self.old.blocks }
        ensures guards { self.new.seat.view.guards ≡ self.old.seat.view.guards }
    {
        self.blocks.or(&mut self.seat, At::Root(root), bits)
    }

    /// Returns the value of a block that it has seen, for as long as it is borrowed: whoever retires the block meanwhile, its section holds it.
    pub fn value(&self, _slot: u64, block: u64) -> &T
        requires seen { self.now.seat.view.knows ≡ Inside _slot (Seen block) }
        ensures { IsValueOf (NotedHolds T.defers self.now.blocks.now.words.fixed) self.now.seat.id self.now.seat.view block result.now }
    {
        self.blocks.value(&self.seat, block)
    }

    /// Returns the value of the block that it has made, for as long as it is borrowed.
    pub fn own(&self, _slot: u64, block: u64) -> &T
        requires made { (value : T) × (self.now.seat.view.knows ≡ Inside _slot (Made block value)) }
        ensures { IsValueOf (NotedHolds T.defers self.now.blocks.now.words.fixed) self.now.seat.id self.now.seat.view block result.now }
    {
        let seat = &self.seat;
        self.blocks.value(seat, block)
    }

    /// Returns the value of the block that it has taken from a root, for as long as it is borrowed: others may look at it still, so it is only lent.
    pub fn unlinked(&self, _slot: u64, block: u64) -> &T
        requires cut { self.now.seat.view.knows ≡ Inside _slot (Cut block) }
        ensures { IsValueOf (NotedHolds T.defers self.now.blocks.now.words.fixed) self.now.seat.id self.now.seat.view block result.now }
    {
        let seat = &self.seat;
        self.blocks.value(seat, block)
    }
}

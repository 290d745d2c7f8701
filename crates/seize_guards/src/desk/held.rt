//! A slot that lies in a desk's drawer, and the seats that watch its section.
ghost use Rattle.std.specs.Prelude.{◌≡◌, ◌≢◌, ◌<◌, ◌^◌, ℕ, Some, true, false, IfSome, unwrap_or};
ghost use Rattle.seize_shared.specs.Guards.Lent.{IsLent};
ghost use Rattle.seize_callers.specs.Owning.{borne_by};
ghost use Rattle.seize_views.specs.Views.Notes.{looked_at};
ghost use Rattle.seize_views.specs.declared.view.Began.TheVariants.{Retirement, Trial};
ghost use Rattle.seize_views.specs.declared.view.SlotView.TheVariants.{Rests, Watches};

use crate::drawer::Labelled;
use seize::rows::Defers;
use seize_blocks::{Blocks, Seat};
use seize_callers::{Caller, named};
use seize_shared::Stay;
use seize_views::{Content, OfRows};
use seize_words::At;

/// The most guards that a desk has at a time, those that were forgotten among them.
pub const MOST_GUARDS: u64 = 65_535;

/// The slot itself. Its section is open just while some guards are there.
pub(crate) struct Held<'a, T: Defers + Drop, C: Content<T> = OfRows> {
    pub(crate) stay: Stay<'a, T, C>,
    ghost begun: { stay.guards ≢ 0 → stay.inside ≡ true },
    ghost over: { stay.guards ≡ 0 → stay.inside ≡ false },
}

impl<'a, T: Defers + Drop, C: Content<T>> Labelled for Held<'a, T, C> {
    ghost label = { λ held. held.stay.caller.blocks.now.words.id.views_name };
}

impl<'a, T: Defers + Drop, C: Content<T>> Drop for Held<'a, T, C> {
    fn drop(self) {
        let Held { stay } = self;
        drop(stay);
    }
}

impl<'a, T: Defers + Drop> Held<'a, T> {
    /// One guard more, by this seat. It is refused where there are as many as there may be.
    pub(crate) fn opens(&mut self, seat: &mut Seat<T, OfRows>) -> bool
        requires own { seat.old.base ≡ self.old.stay.caller.blocks.now.words.id.views_name }
        requires rests { seat.old.view.knows ≡ Rests }
        ensures watches { result ≡ true → seat.new.view.knows ≡ Watches self.new.stay.slot 0 }
        ensures slot { self.new.stay.slot ≡ self.old.stay.slot }
        ensures home { self.new.stay.caller.blocks ≡ self.old.stay.caller.blocks }
        ensures base { seat.new.base ≡ seat.old.base }
    {
        if self.stay.guards >= MOST_GUARDS {
            return false;
        }
        let stay = &mut self.stay;
        if !stay.inside {
            stay.refreshes();
        }
        stay.admits(seat);
        true
    }

    /// One less. The last one ends the section. It is refused where the seat is of another slot.
    pub(crate) fn closes(&mut self, slot: u64, seat: &mut Seat<T, OfRows>) -> bool
        requires own { seat.old.base ≡ self.old.stay.caller.blocks.now.words.id.views_name }
        requires watches { (block : ℕ) × (seat.old.view.knows ≡ Watches slot block) }
        ensures home { self.new.stay.caller.blocks ≡ self.old.stay.caller.blocks }
        ensures rests { result ≡ true → seat.new.view.knows ≡ Rests }
    {
        let stay = &mut self.stay;
        if stay.slot != slot || !stay.inside {
            return false;
        }
        stay.excuses(seat);
        if stay.guards == 0 {
            stay.closes();
        }
        true
    }
}

impl<'a, T: Defers + Drop> Held<'a, T> {
    /// Begins the section anew, where this seat alone watches it, and tells whether it did.
    fn refreshes(&mut self, slot: u64, seat: &mut Seat<T, OfRows>) -> bool
        requires own { seat.old.base ≡ self.old.stay.caller.blocks.now.words.id.views_name }
        requires watches { (block : ℕ) × (seat.old.view.knows ≡ Watches slot block) }
        ensures watches { result ≡ true → seat.new.view.knows ≡ Watches slot 0 }
        ensures same { result ≡ false → seat.new.view ≡ seat.old.view }
        ensures home { self.new.stay.caller.blocks ≡ self.old.stay.caller.blocks }
        ensures base { seat.new.base ≡ seat.old.base }
    {
        let stay = &mut self.stay;
        if stay.slot != slot || !stay.inside || stay.guards != 1 {
            return false;
        }
        stay.excuses(seat);
        stay.refreshes();
        stay.admits(seat);
        true
    }
}

impl<'a, T: Defers + Drop> Held<'a, T> {
    /// Retires a block that a caller without a slot has unlinked.
    pub(crate) fn retires<'b>(&mut self, bearer: &mut Caller<'b, T>, block: u64)
        requires own { bearer.old.blocks.now.words.id.views_name ≡ self.old.stay.caller.blocks.now.words.id.views_name }
        requires bears { borne_by bearer.old.seat.view.knows ≡ Some block }
        requires fits { block < 2 ^ 53 }
        ensures home { self.new.stay.caller.blocks ≡ self.old.stay.caller.blocks }
        ensures rests { bearer.new.seat.view.knows ≡ Rests }
        ensures began { self.new.stay.caller.seat.view.began ≡ Retirement }
    {
        let stay = &mut self.stay;
        stay.takes_over(bearer, block);
    }

    /// Tries the slot's batch, whatever its length.
    pub(crate) fn flushes(&mut self)
        ensures home { self.new.stay.caller.blocks ≡ self.old.stay.caller.blocks }
        ensures began { self.new.stay.caller.seat.view.began ≡ Trial }
    {
        let stay = &mut self.stay;
        stay.flushes();
    }
}

/// The seat of a guard: it watches the section of this slot, where it has looked last at this block, 0 for none.
pub(crate) struct Watcher<T: Defers + Drop> {
    pub(crate) seat: Seat<T, OfRows>,
    pub(crate) slot: u64,
    pub(crate) last: u64,
    ghost watches: { seat.view.knows ≡ Watches slot last },
    ghost fits: { last < 2 ^ 53 },
}

impl<T: Defers + Drop> Watcher<T> {
    /// Looks which block is at a root.
    pub(crate) fn looks(&mut self, blocks: &Blocks<T, OfRows>, root: u64) -> Option<u64>
        requires home { self.old.seat.base ≡ blocks.now.words.id.views_name }
        requires root { root < blocks.now.words.fixed.roots }
        ensures looked { looked_at self.new.seat.view.did ≡ Some (root, unwrap_or result 0) }
        ensures seen { IfSome result (λ block. (block ≢ 0) × (block ≡ self.new.last)) }
        ensures slot { self.new.slot ≡ self.old.slot }
        ensures base { self.new.seat.base ≡ self.old.seat.base }
    {
        let word = blocks.load(&mut self.seat, At::Root(root));
        let block = named(word);
        self.last = block.unwrap_or(0);
        block
    }

    /// Begins the section anew, where no other seat watches it, and tells whether it did.
    pub(crate) fn refreshes<'a>(&mut self, held: &mut Held<'a, T>) -> bool
        requires own { self.old.seat.base ≡ held.old.stay.caller.blocks.now.words.id.views_name }
        ensures fresh { result ≡ true → self.new.last ≡ 0 }
        ensures same { result ≡ false → self.new.last ≡ self.old.last }
        ensures slot { self.new.slot ≡ self.old.slot }
        ensures home { held.new.stay.caller.blocks ≡ held.old.stay.caller.blocks }
        ensures base { self.new.seat.base ≡ self.old.seat.base }
    {
        let is_fresh = held.refreshes(self.slot, &mut self.seat);
        if is_fresh {
            self.last = 0;
        }
        is_fresh
    }

    /// The value of the block that it has looked at last.
    pub(crate) fn value<'g>(&'g self, blocks: &'g Blocks<T, OfRows>) -> &'g T
        requires home { self.now.seat.base ≡ blocks.now.words.id.views_name }
        requires some { self.now.last ≢ 0 }
        ensures { IsLent T.defers blocks.now.words.fixed self.now.seat.id self.now.seat.view self.now.last result.now }
    {
        blocks.value(&self.seat, self.last)
    }
}

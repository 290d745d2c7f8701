//! A seat that watches the open section of a caller's slot.
ghost use Rattle.std.specs.Prelude.{◌≡◌, ◌+◌, ℕ, Some};
ghost use Rattle.seize_views.specs.Views.Watched.{open_at};
ghost use Rattle.seize_views.specs.declared.view.SlotView.TheVariants.{Rests, Watches};

use crate::caller::Caller;
use seize::rows::Defers;
use seize_blocks::{Blocks, Seat};
use seize_views::OfRows;
use seize_views::turns::{Ceasing, Watching};

/// Makes a seat more.
pub fn watcher<T: Defers>(blocks: &Blocks<T, OfRows>) -> Seat<T, OfRows>
    ensures base { result.base ≡ blocks.now.words.id.views_name }
    ensures rests { result.view.knows ≡ Rests }
{
    blocks.seat()
}

impl<'a, T: Defers> Caller<'a, T> {
    /// Lets a seat begin to watch its section, which is open.
    pub fn admits(&mut self, _slot: u64, seat: &mut Seat<T, OfRows>)
        requires own { seat.old.base ≡ self.old.blocks.now.words.id.views_name }
        requires rests { seat.old.view.knows ≡ Rests }
        requires inside { open_at self.old.seat.view.knows ≡ Some _slot }
        ensures watches { seat.new.view.knows ≡ Watches _slot 0 }
        ensures counts { self.new.seat.view.guards ≡ self.old.seat.view.guards + 1 }
        ensures knows { self.new.seat.view.knows ≡ self.old.seat.view.knows }
        ensures did { self.new.seat.view.did ≡ self.old.seat.view.did }
        ensures base { seat.new.base ≡ seat.old.base }
        ensures blocks { self.new.blocks ≡ self.old.blocks }
    {
        self.blocks.meet::<Watching>(seat, &mut self.seat);
    }

    /// Lets a seat watch it no longer.
    pub fn excuses(&mut self, _slot: u64, seat: &mut Seat<T, OfRows>)
        requires own { seat.old.base ≡ self.old.blocks.now.words.id.views_name }
        requires watches { (block : ℕ) × (seat.old.view.knows ≡ Watches _slot block) }
        requires inside { open_at self.old.seat.view.knows ≡ Some _slot }
        ensures rests { seat.new.view.knows ≡ Rests }
        ensures counts { self.new.seat.view.guards + 1 ≡ self.old.seat.view.guards }
        ensures knows { self.new.seat.view.knows ≡ self.old.seat.view.knows }
        ensures base { seat.new.base ≡ seat.old.base }
        ensures blocks { self.new.blocks ≡ self.old.blocks }
    {
        self.blocks.meet::<Ceasing>(seat, &mut self.seat);
    }
}

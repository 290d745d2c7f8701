//! One of those who share the memory of maps.
ghost use Rattle.std.specs.Prelude.{◌≡◌, IsSome, None, true};
ghost use Rattle.threads_callers.specs.Standing.{come_to, known_by};
ghost use Rattle.threads_errands.specs.Given.ViewsRule.{at_rest};
ghost use Rattle.threads_errands.specs.Given.ViewsDeclared.view.SeatWork.TheVariants.{Nothing};
ghost use Rattle.seize_views.specs.declared.view.SlotView.TheVariants.{Rests};
ghost use Rattle.seize_callers.specs.Kept.{is_home};

mod calls;
mod pass;
mod rows;
mod seats;
mod sends;

use crate::showing::newcomer;
use map_tables::{Hashes, Node};
pub use pass::{MapPassSeat, MapReturning, Resorting};
use seize_blocks::{Blocks, Seat};
use threads_errands::{OfMaps, Sleepers};

/// One of those who share the memory of maps: a seat of it, which is on no errand, with the memory, and with those who sleep until another one has taken a step.
pub struct MapCaller<'a, K: Eq, V, S: Hashes<K>> {
    pub blocks: &'a Blocks<Node<K, V>, OfMaps<S>>,
    pub sleepers: &'a Sleepers,
    pub seat: Seat<Node<K, V>, OfMaps<S>>,
    near: u64,
    ghost own: { seat.base ≡ blocks.now.words.id.views_name },
    ghost home: { is_home seat.away ≡ true },
    ghost lone: { seat.view.under ≡ None },
    ghost good: { seat.view.by ≡ None },
}

impl<'a, K: Eq, V, S: Hashes<K>> MapCaller<'a, K, V, S> {
    /// Makes one more of them, who holds no slot and knows no map.
    pub fn new(blocks: &'a Blocks<Node<K, V>, OfMaps<S>>, sleepers: &'a Sleepers) -> Self
        ensures rests { result.seat.view ≡ at_rest }
        ensures blocks { result.blocks.now ≡ blocks.now }
    {
        let seat = blocks.seat();
        MapCaller {
            blocks,
            sleepers,
            seat,
            near: 0,
        }
    }

    /// Makes one more of them, who holds no slot, and to whom the map is handed on that this one knows.
    pub fn shows(&self) -> Self
        requires knows { IsSome (known_by self.now.seat.view) }
        ensures blocks { result.blocks.now ≡ self.now.blocks.now }
        ensures shown { result.seat.view ≡ come_to self.now.seat.view.map }
    {
        let seat = newcomer(self.blocks, &self.seat);
        MapCaller::of(self.blocks, self.sleepers, seat)
    }
}

impl<'a, K: Eq, V, S: Hashes<K>> Drop for MapCaller<'a, K, V, S> {
    fn drop(self)
        requires rests { self.seat.view.slot ≡ Rests }
        requires free { self.seat.view.work ≡ Nothing }
    {
        let MapCaller {
            blocks: _,
            sleepers: _,
            seat: _,
            near: _,
        } = self;
    }
}

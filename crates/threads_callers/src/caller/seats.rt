//! A caller is a seat that is on no errand, with the memory: it is made of both, and taken apart.
ghost use Rattle.std.specs.Prelude.{◌≡◌, None, true};
ghost use Rattle.seize_callers.specs.Kept.{is_home};

use crate::caller::MapCaller;
use map_tables::{Hashes, Node};
use seize_blocks::{Blocks, Seat};
use threads_errands::{OfMaps, Sleepers};

impl<'a, K: Eq, V, S: Hashes<K>> MapCaller<'a, K, V, S> {
    /// Returns the one of this seat.
    pub fn of(
        blocks: &'a Blocks<Node<K, V>, OfMaps<S>>,
        sleepers: &'a Sleepers,
        seat: Seat<Node<K, V>, OfMaps<S>>,
    ) -> Self
        requires own { seat.base ≡ blocks.now.words.id.views_name }
        requires home { is_home seat.away ≡ true }
        requires lone { seat.view.under ≡ None }
        requires good { seat.view.by ≡ None }
        ensures view { result.seat.view ≡ seat.view }
        ensures blocks { result.blocks.now ≡ blocks.now }
    {
        MapCaller {
            blocks,
            sleepers,
            seat,
            near: 0,
        }
    }

    /// Returns its seat.
    pub fn into_seat(self) -> Seat<Node<K, V>, OfMaps<S>>
        ensures own { result.base ≡ self.entry.blocks.now.words.id.views_name }
        ensures home { is_home result.away ≡ true }
        ensures lone { result.view.under ≡ None }
        ensures good { result.view.by ≡ None }
        ensures view { result.view ≡ self.entry.seat.view }
    {
        let MapCaller {
            blocks: _,
            sleepers: _,
            seat,
            near: _,
        } = self;
        seat
    }
}

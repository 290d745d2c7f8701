//! A session is a seat that knows a map, with the memory and the hasher: it is made of these, and taken apart, so that who owns them may keep the seat.
ghost use Rattle.std.specs.Prelude.{◌≡◌, Some, None, true};
ghost use Rattle.threads_callers.specs.Standing.{known_by};
ghost use Rattle.threads_callers.specs.Given.ViewsDeclared.view.SeatWork.TheVariants.{Nothing as NoWork};
ghost use Rattle.seize_callers.specs.Kept.{is_home};

use crate::session::SessionBase;
use map_tables::{Hashes, Node, Setting};
use seize_blocks::{Blocks, Seat};
use threads_callers::{MapCaller, OfMaps, Sleepers};

impl<'a, K: Eq, V, S: Hashes<K>> SessionBase<'a, K, V, S> {
    /// Returns the one of this seat, which knows a map of this setting and this hasher.
    pub fn of(
        blocks: &'a Blocks<Node<K, V>, OfMaps<S>>,
        sleepers: &'a Sleepers,
        hasher: &'a S,
        setting: Setting,
        seat: Seat<Node<K, V>, OfMaps<S>>,
    ) -> Self
        requires own { seat.base ≡ blocks.now.words.id.views_name }
        requires home { is_home seat.away ≡ true }
        requires lone { seat.view.under ≡ None }
        requires good { seat.view.by ≡ None }
        requires sized { blocks.now.words.fixed.batch_size ≡ setting.batch_size }
        requires knows { known_by seat.view ≡ Some (setting, hasher.now) }
        requires free { seat.view.work ≡ NoWork }
        ensures view { result.caller.seat.view ≡ seat.view }
        ensures blocks { result.caller.blocks.now ≡ blocks.now }
    {
        SessionBase {
            caller: MapCaller::of(blocks, sleepers, seat),
            hasher,
            setting,
            slot: 0,
        }
    }

    /// Returns its seat, and what each call on the map works with, but for the slot.
    pub fn into_seat(self) -> (Seat<Node<K, V>, OfMaps<S>>, Setting)
        ensures own { result.0.base ≡ self.entry.caller.blocks.now.words.id.views_name }
        ensures home { is_home result.0.away ≡ true }
        ensures lone { result.0.view.under ≡ None }
        ensures good { result.0.view.by ≡ None }
        ensures view { result.0.view ≡ self.entry.caller.seat.view }
        ensures setting { result.1 ≡ self.entry.setting }
        ensures sized { self.entry.caller.blocks.now.words.fixed.batch_size ≡ result.1.batch_size }
        ensures knows { known_by result.0.view ≡ Some (result.1, self.entry.hasher.now) }
        ensures free { result.0.view.work ≡ NoWork }
    {
        let SessionBase {
            caller,
            hasher: _,
            setting,
            slot: _,
        } = self;
        (caller.into_seat(), setting)
    }
}

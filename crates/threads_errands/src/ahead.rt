//! A seat of maps on an errand whose code runs ahead of the machine that it has under way: the seat takes the turns of that machine at once before the
//! operation that follows them.
ghost use Rattle.std.proofs.Props.{props};
ghost use Rattle.std.specs.Prelude.{◌≡◌, ◌≢◌, None};
ghost use Rattle.seize_blocks.specs.Parts.{IsFound};
ghost use Rattle.threads_steps.specs.Found.{in_block_prop};

mod helping;
mod memory;
mod removing;
mod storing;
mod turning;

use map_tables::{Hashes, Node};
use seize_blocks::{Blocks, Place, Seat};
pub(crate) use storing::Put;
use threads_steps::OfMaps;

/// A seat of maps on an errand, with the memory. It is a memory for code that makes the operations of the call that the seat has under way, and
/// knows at which place the block is whose own words it has had last.
#[derive(Drop)]
pub struct Ahead<'a, K: Eq, V, S: Hashes<K>> {
    blocks: &'a Blocks<Node<K, V>, OfMaps<S>>,
    seat: &'a mut Seat<Node<K, V>, OfMaps<S>>,
    near: u64,
    place: Place<Node<K, V>>,
    ghost own: { seat.now.base ≡ blocks.now.words.id.views_name },
    ghost away: { seat.now.away ≢ None },
    ghost found: { IsFound blocks.now.words.id place } by { Prim.hlevel (props, in_block_prop) },
}

impl<'a, K: Eq, V, S: Hashes<K>> Ahead<'a, K, V, S> {
    /// The code begins where the machine stands. Numbers for blocks are looked for from `near` on.
    #[inline(always)]
    pub(crate) fn new(
        blocks: &'a Blocks<Node<K, V>, OfMaps<S>>,
        seat: &'a mut Seat<Node<K, V>, OfMaps<S>>,
        near: u64,
    ) -> Self
        requires own { seat.old.base ≡ blocks.now.words.id.views_name }
        requires away { seat.old.away ≢ None }
        ensures name { result.seat.ghost_name ≡ seat.entry.ghost_name }
        ensures seat { result.seat.now ≡ seat.old }
        ensures blocks { result.blocks.now ≡ blocks.now }
    {
        Ahead {
            blocks,
            seat,
            near,
            place: blocks.place(),
        }
    }
}

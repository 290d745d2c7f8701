//! A seat of maps on an errand, with the memory.
ghost use Rattle.std.proofs.Props.{props};
ghost use Rattle.std.specs.Prelude.{◌≡◌, ◌≢◌, None};
ghost use Rattle.seize_blocks.specs.Parts.{IsFound};
ghost use Rattle.threads_steps.specs.Found.{in_block_prop};

mod asking;
mod calling;
mod counting;
mod looking;
mod making;
mod memory;
mod removing;
mod storing;
mod sweeping;

pub use asking::Halt;
pub use calling::{Ran, ended};
use map_tables::{Hashes, Node};
use seize_blocks::{Blocks, Place, Seat};
use threads_rule::OfMaps;

/// A seat of maps on an errand, with the memory. It is a memory for the machine that it has under way, and knows whether an operation was made, and
/// at which place the block is whose own words it has reached last.
#[derive(Drop)]
pub struct Within<'a, K: Eq, V, S: Hashes<K>> {
    blocks: &'a Blocks<Node<K, V>, OfMaps<S>>,
    seat: &'a mut Seat<Node<K, V>, OfMaps<S>>,
    near: u64,
    place: Place<Node<K, V>>,
    made: bool,
    ghost own: { seat.now.base ≡ blocks.now.words.id.views_name },
    ghost away: { seat.now.away ≢ None },
    ghost found: { IsFound blocks.now.words.id place } by { Prim.hlevel (props, in_block_prop) },
}

impl<'a, K: Eq, V, S: Hashes<K>> Within<'a, K, V, S> {
    /// Begins the errand. Numbers for blocks are looked for from `near` on.
    pub fn new(
        blocks: &'a Blocks<Node<K, V>, OfMaps<S>>,
        seat: &'a mut Seat<Node<K, V>, OfMaps<S>>,
        near: u64,
    ) -> Self
        requires own { seat.old.base ≡ blocks.now.words.id.views_name }
        requires away { seat.old.away ≢ None }
        ensures name { result.seat.ghost_name ≡ seat.entry.ghost_name }
        ensures seat { result.seat.now ≡ seat.old }
        ensures blocks { result.blocks.now ≡ blocks.now }
    {
        Within {
            blocks,
            seat,
            near,
            place: blocks.place(),
            made: false,
        }
    }

    /// Tells from where on it looks for the numbers of blocks next.
    pub fn near(&self) -> u64 {
        self.near
    }
}

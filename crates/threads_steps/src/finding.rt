//! A lookup of a seat on an errand: by straight code as far as that goes, and by steps from there on.
ghost use Rattle.std.specs.Prelude.{◌≡◌, ◌≢◌, None};
ghost use Rattle.threads_rule.specs.Errands.Looking.{HasLooked, HasSeen, HasProgressed, LooksFor, MayLook, StaysThere, found_of};
ghost use Rattle.map_straight.specs.Straight.Looking.{looks};
ghost use Rattle.map_machines.specs.Lookup.{looking};

use crate::within::Within;
use map_machines::{Looking, Lookup};
use map_straight::Sight;
use map_tables::{Equivalent, Hashes, Node, ResizeMode};
use seize_blocks::{Blocks, Seat};
use std::hash::Hash;
use std::sync::Wait;
use threads_rule::OfMaps;

/// Begins to look the key up in the map that the seat knows, within its section, and looks by straight code, as far as that goes.
#[inline(always)]
pub fn sees<K: Eq + Hash, V, S: Hashes<K>, Q: Equivalent<K>>(
    blocks: &Blocks<Node<K, V>, OfMaps<S>>,
    seat: &mut Seat<Node<K, V>, OfMaps<S>>,
    root: u64,
    mode: ResizeMode,
    hash: u64,
    key: &Q,
) -> Sight
    requires own { seat.old.base ≡ blocks.now.words.id.views_name }
    requires away { seat.old.away ≢ None }
    requires may { MayLook S.hash (Q.stands_for key.now) (looking root mode hash) seat.old.view }
    ensures same { (seat.new.base ≡ seat.old.base) × (seat.new.id ≡ seat.old.id) × (seat.new.away ≡ seat.old.away) }
    ensures seen { HasSeen K.eq S.hash (Q.stands_for key.now) root mode hash result seat.old.view seat.new.view }
{
    let mut within = Within::new(blocks, seat, 0);
    within.sees(root, mode, hash, key)
}

/// Takes the steps of the seat's lookup from this point on, until it has ended, and answers the word that names the pair found.
pub fn goes_on<R: Wait, K: Eq + Hash, V, S: Hashes<K>, Q: Equivalent<K>>(
    rt: &R,
    blocks: &Blocks<Node<K, V>, OfMaps<S>>,
    seat: &mut Seat<Node<K, V>, OfMaps<S>>,
    root: u64,
    mode: ResizeMode,
    hash: u64,
    stands: Looking,
    key: &Q,
) -> Option<u64>
    requires own { seat.old.base ≡ blocks.now.words.id.views_name }
    requires away { seat.old.away ≢ None }
    requires looks { LooksFor (Q.stands_for key.now) (looks root mode hash stands) seat.old.view }
    ensures same { (seat.new.base ≡ seat.old.base) × (seat.new.id ≡ seat.old.id) × (seat.new.away ≡ seat.old.away) }
    ensures looked { HasLooked K.eq (Q.stands_for key.now) result seat.new.view }
    ensures told { HasProgressed (found_of result) seat.old.view seat.new.view }
    ensures stays { StaysThere seat.old.view seat.new.view }
{
    let lookup = Lookup {
        root,
        mode,
        hash,
        stands,
    };
    let mut within = Within::new(blocks, seat, 0);
    within.goes_through(rt, lookup, key)
}

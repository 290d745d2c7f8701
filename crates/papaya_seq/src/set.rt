//! A hash set for one owner: the keys of a map with no values.

mod changes;
mod clones;
mod equal;
mod extending;
mod formatting;
mod json;
mod last;
mod lookups;
mod making;
mod sweeps;

use owner_map::{Drops, HashMap, Receiver};
use std::hash::{BuildHasher, BuildHasherDefault, FoldHasher, Hash};
use std::marker::Model;

/// A hash set for one owner.
///
/// It has its memory and its collector for itself, as a map has. The element that the last change took out of the set can be looked at until the
/// next one, by `taken`, and the one that it put there, by `met`.
///
/// A contract sees its elements, its hasher, these two elements, what the memory holds, the elements that were stored and not given back, and how many
/// places its tables have. The elements are in the order in which a walk shows them; a change may put them in any other order.
#[derive(Drop)]
pub struct HashSet<
    K: Eq + Hash,
    S: BuildHasher = BuildHasherDefault<FoldHasher>,
    R: Receiver<(K, ())> = Drops,
> {
    pub(crate) map: HashMap<K, (), S, R>,
}

impl<K: Eq + Hash, S: BuildHasher, R: Receiver<(K, ())>> Model for HashSet<K, S, R> {
    ghost use Rattle.papaya_seq.specs.Sets.{Set, set_of};

    ghost Value = { Set K S };

    ghost view = { λ m. set_of m.map };
}

//! A hash map for one owner.
ghost use Rattle.std.specs.Prelude.{◌≡◌, true};
ghost use Rattle.owner_rests.specs.Rests.Lasts.{is_named};
ghost use Rattle.map_straight.specs.Shown.Chain.{CountsTables, counts_tables_prop, root_link};

use map_tables::{Node, Setting};
use owner_rests::Last;
use seize_words::{Drops, Plain, Receiver};
use std::hash::{BuildHasher, BuildHasherDefault, FoldHasher, Hash};
use std::marker::{Model, PhantomData};

/// The memory of a map between its calls, with its setting, and the words of the pairs that the last change took out of it, and met. Only proofs
/// read how many tables it has.
#[derive(Drop)]
pub(crate) struct Resting<K, V> {
    pub(crate) memory: Plain<Node<K, V>>,
    pub(crate) setting: Setting,
    pub(crate) last: Last,
    pub(crate) ghost tables: { CountsTables memory (root_link memory setting) } by { counts_tables_prop memory (root_link memory setting) },
    pub(crate) ghost takes: { is_named memory last.taken ≡ true },
    pub(crate) ghost meets: { is_named memory last.met ≡ true },
}

/// A hash map for one owner.
///
/// Its hasher is that of the standard library's maps, where none is named; what is reclaimed is dropped. It has its memory and its collector for itself. Each change begins with a refresh of its one section: what changes before it took out of
/// the map may be given back then, once enough of it waits, and no earlier. So the pair that the last change took out of the map can be looked
/// at until the next one, by `taken`, and the one that it met at its key or put there, by `met`.
///
/// A contract sees its pairs, its hasher, these two pairs, what the memory holds, the pairs that were stored and not given back, and how many places its
/// tables have. The pairs are in the order in which a walk shows them; a change may put them in any other order.
#[derive(Drop)]
pub struct HashMap<
    K: Eq + Hash,
    V,
    S: BuildHasher = BuildHasherDefault<FoldHasher>,
    R: Receiver<(K, V)> = Drops,
> {
    pub(crate) resting: Resting<K, V>,
    pub(crate) hasher: S,
    /// What gets the pairs that are reclaimed. There is one such type, and no call takes a value of it.
    pub(crate) receiver: PhantomData<R>,
}

impl<K: Eq + Hash, V, S: BuildHasher, R: Receiver<(K, V)>> Model for HashMap<K, V, S, R> {
    ghost use Rattle.std.specs.Prelude.{List};
    ghost use Rattle.owner_rests.specs.Given.{held_in, Holds, hashed_by};
    ghost use Rattle.owner_rests.specs.Rests.Lasts.{pair_in};
    ghost use Rattle.owner_rests.specs.ShowsPairs.Maps.{Map, pairs_shown, tables_shown};

    ghost Value = { Map K V S };

    ghost view = { λ m. record { pairs = pairs_shown m.resting.memory m.resting.setting m.resting.tables; hasher = m.hasher; taken = pair_in m.resting.memory m.resting.last.taken; met = pair_in m.resting.memory m.resting.last.met; held = held_in m.resting.memory; tables = tables_shown m.resting.memory m.resting.setting m.resting.tables } };

    ghost invariant = { λ m. (xs : List (K × V)) × Holds K.eq (hashed_by S.Hasher.finish S.Hasher.write S.build_hasher K.hash_input m.hasher) m.resting.setting m.resting.memory xs };
}

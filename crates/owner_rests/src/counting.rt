//! How many pairs a memory has.
ghost use Rattle.std.specs.Prelude.{◌≡◌, List, length};
ghost use Rattle.owner_calls.specs.Owned.Owned.{Holds, hashed_by};

use map_tables::{Counter, Node, Setting};
use seize_words::{At, Look, Plain};
use std::hash::{BuildHasher, Hash};

/// Returns how many pairs a map in this memory has.
pub fn count<K: Eq + Hash, V, S: BuildHasher>(
    memory: &Plain<Node<K, V>>,
    setting: Setting,
    _hasher: &S,
) -> u64
    requires { (xs : List (K × V)) × Holds K.eq (hashed_by S.Hasher.finish S.Hasher.write S.build_hasher K.hash_input _hasher.now) setting memory.now xs }
    ensures { (xs : List (K × V)) → Holds K.eq (hashed_by S.Hasher.finish S.Hasher.write S.build_hasher K.hash_input _hasher.now) setting memory.now xs → result ≡ length xs }
{
    let mut look = memory.look();
    let total = look.load(At::Word(setting.counter, 0));
    Counter::read(total)
}

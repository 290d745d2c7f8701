//! A lookup. It reads words, and takes no memory.
ghost use Rattle.std.specs.Prelude.{◌≡◌, List, option_map};
ghost use Rattle.owner_calls.specs.Owned.Owned.{Holds, found_by, hashed_by};

use map_tables::{Equivalent, Hashes, Node, Setting};
use owner_calls::find;
use papaya_raw::machines::Lookup;
use seize_words::Plain;
use std::hash::{BuildHasher, Hash};

/// Returns the pair that this asks for, in a map in this memory.
pub fn pair_of<'a, K: Eq + Hash, V, S: BuildHasher, Q: Equivalent<K>>(
    memory: &'a Plain<Node<K, V>>,
    setting: Setting,
    hasher: &S,
    asked: &Q,
) -> Option<(&'a K, &'a V)>
    requires { (xs : List (K × V)) × Holds K.eq (hashed_by S.Hasher.finish S.Hasher.write S.build_hasher K.hash_input hasher.now) setting memory.now xs }
    ensures { (xs : List (K × V)) → Holds K.eq (hashed_by S.Hasher.finish S.Hasher.write S.build_hasher K.hash_input hasher.now) setting memory.now xs
        → option_map (λ x. (x.0.now, x.1.now)) result ≡ found_by (Q.Equivalent.equivalent asked.now) xs }
{
    let hash = hasher.hash_of(asked);
    let lookup = Lookup::new(setting.root, setting.mode, hash);
    find(memory, lookup, asked)
}

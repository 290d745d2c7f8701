//! Equality of maps for one owner: the same pairs, in whatever order.
ghost use Rattle.std.specs.Prelude.{◌≡◌, Some, option_map};
ghost use Rattle.std.specs.Option.{option_eq};
ghost use Rattle.std.specs.Cmp.{equiv, partial_equiv_from_equiv};
ghost use Rattle.owner_rests.specs.Given.{found_by};
ghost use Rattle.owner_asks.specs.Pairs.Equals.{agree, agree_turned, agree_through, agree_itself};

use crate::map::HashMap;
use seize_words::Receiver;
use std::hash::{BuildHasher, Hash};

/// Whether a map has this key, with an equal value.
fn has_equal<K: Eq + Hash, V: PartialEq, S: BuildHasher, R: Receiver<(K, V)>>(
    map: &HashMap<K, V, S, R>,
    key: &K,
    value: &V,
) -> bool
    ensures { result ≡ option_eq V.eq (Some value.now) (option_map (λ x. x.1) (found_by (K.eq key.now) map.now.pairs)) }
{
    match map.get(key) {
        Some(theirs) => value == theirs,
        None => false,
    }
}

impl<K: Eq + Hash, V: PartialEq, S: BuildHasher, R: Receiver<(K, V)>> PartialEq
    for HashMap<K, V, S, R> {
    ghost eq = { λ m n. agree K.eq V.eq m.pairs n.pairs };

    ghost laws = { record { symm = λ m n. agree_turned K.eq V.eq V.laws.symm m.pairs n.pairs; trans = λ l m n. agree_through K.eq V.eq K.Eq.laws V.laws.trans l.pairs m.pairs n.pairs } };

    fn eq(&self, other: &HashMap<K, V, S, R>) -> bool {
        if self.len() != other.len() {
            return false;
        }
        for (key, value) in self.iter() {
            if !has_equal(other, key, value) {
                return false;
            }
        }
        true
    }
}

impl<K: Eq + Hash, V: Eq, S: BuildHasher, R: Receiver<(K, V)>> Eq for HashMap<K, V, S, R> {
    ghost laws = { equiv (record { symm = λ m n. agree_turned K.eq V.eq V.Eq.laws.symm m.pairs n.pairs; trans = λ l m n. agree_through K.eq V.eq K.Eq.laws (partial_equiv_from_equiv V.Eq.laws).trans l.pairs m.pairs n.pairs }) (λ m. agree_itself K.eq V.eq V.Eq.laws.refl m.pairs) };
}

//! Equality of sets for one owner: the same elements, in whatever order.
ghost use Rattle.std.specs.Prelude.{true};
ghost use Rattle.std.specs.Cmp.{equiv};
ghost use Rattle.owner_map.specs.Given.{agree, agree_itself, agree_through, agree_turned, with_no_values};

use super::HashSet;
use owner_map::Receiver;
use std::hash::{BuildHasher, Hash};

impl<K: Eq + Hash, S: BuildHasher, R: Receiver<(K, ())>> PartialEq for HashSet<K, S, R> {
    ghost eq = { λ m n. agree K.eq (λ _ _. true) (with_no_values m.elements) (with_no_values n.elements) };

    ghost laws = { record { symm = λ m n. agree_turned K.eq (λ _ _. true) (λ _ _ _. true) (with_no_values m.elements) (with_no_values n.elements); trans = λ l m n. agree_through K.eq (λ _ _. true) K.Eq.laws (λ _ _ _ _ _ _. true) (with_no_values l.elements) (with_no_values m.elements) (with_no_values n.elements) } };

    fn eq(&self, other: &HashSet<K, S, R>) -> bool {
        self.map == other.map
    }
}

impl<K: Eq + Hash, S: BuildHasher, R: Receiver<(K, ())>> Eq for HashSet<K, S, R> {
    ghost laws = { equiv (record { symm = λ m n. agree_turned K.eq (λ _ _. true) (λ _ _ _. true) (with_no_values m.elements) (with_no_values n.elements); trans = λ l m n. agree_through K.eq (λ _ _. true) K.Eq.laws (λ _ _ _ _ _ _. true) (with_no_values l.elements) (with_no_values m.elements) (with_no_values n.elements) }) (λ m. agree_itself K.eq (λ _ _. true) (λ _ _. true) (with_no_values m.elements)) };
}

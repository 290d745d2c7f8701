//! What stands for a key, lent: a call on one key takes what it is asked with by value.

use crate::equivalent::Equivalent;
use std::hash::{Hash, Hasher};
use std::marker::PhantomData;

/// What stands for keys of this type, lent.
#[derive(Drop)]
pub struct Lent<'a, K, Q> {
    /// What is asked with.
    pub asked: &'a Q,
    /// Of which keys.
    pub keys: PhantomData<K>,
}

impl<K, Q: Eq> PartialEq for Lent<'_, K, Q> {
    ghost use Rattle.std.specs.Cmp.{on_per, partial_equiv_from_equiv};

    ghost eq = { λ x y. Q.eq x.asked.now y.asked.now };

    ghost laws = { on_per (λ x. x.asked.now) (partial_equiv_from_equiv Q.Eq.laws) };

    fn eq(&self, other: &Self) -> bool {
        self.asked == other.asked
    }
}

impl<K, Q: Eq> Eq for Lent<'_, K, Q> {
    ghost use Rattle.std.specs.Cmp.{on_equiv};

    ghost laws = { on_equiv (λ x. x.asked.now) Q.Eq.laws };
}

impl<K, Q: Hash> Hash for Lent<'_, K, Q> {
    ghost hash_input = { λ x. Q.hash_input x.asked.now };

    ghost respects_eq = { λ x y alike. Q.respects_eq x.asked.now y.asked.now alike };

    fn hash<H: Hasher>(&self, state: &mut H) {
        self.asked.hash(state);
    }
}

impl<K: Eq + Hash, Q: Equivalent<K>> Equivalent<K> for Lent<'_, K, Q> {
    ghost stands_for = { λ x. Q.Equivalent.stands_for x.asked.now };

    ghost equivalent = { λ x key. Q.Equivalent.equivalent x.asked.now key };

    ghost stands = { λ x key. Q.Equivalent.stands x.asked.now key };

    ghost hashed = { λ x. Q.Equivalent.hashed x.asked.now };

    fn equivalent(&self, key: &K) -> bool {
        self.asked.equivalent(key)
    }
}

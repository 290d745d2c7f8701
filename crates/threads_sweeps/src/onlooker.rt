//! Who is shown the pairs of a walk.

/// An onlooker of a walk: it is shown one pair after another.
pub trait Onlooker<K, V> {
    // It may be shown a pair.
    ghost may_see: { Self → Type 0 };

    // It has been shown this pair, and is so then.
    ghost has_seen: { Self → K → V → Self → Type 0 };

    /// Is shown a pair.
    fn sees(&mut self, key: &K, value: &V)
        requires may { may_see self.old }
        ensures seen { has_seen self.old key.now value.now self.new }
        ensures may { may_see self.new };
}

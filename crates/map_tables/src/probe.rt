//! Where a key is looked for in a table, and how often.
ghost use Rattle.std.specs.Prelude.{◌≡◌, ℕ, ◌+◌, ◌-◌, ◌*◌, ◌≤◌, ◌<◌, ◌^◌, min};
ghost use Rattle.map_tables.specs.Probes.{IsAt, HasDistinctPlaces, HasAllPlaces, probe_from, probe_after, limit_of};

/// A quadratic probe: the places of a table at which a key is looked for, one try after another.
#[derive(Clone, Copy)]
pub struct Probe {
    /// The place of the present try.
    pub i: u64,
    /// The number of the present try, from 0 on.
    pub len: u64,
}

impl Probe {
    /// Returns the first try for a hash. The mask is the length of the table, a power of two, less one.
    pub fn start(hash: u64, mask: u64) -> Probe
        ensures begins { result ≡ probe_from hash mask }
        ensures place { (bits : ℕ) → mask ≡ 2 ^ bits - 1 → IsAt result hash bits }
    {
        Probe {
            i: hash & mask,
            len: 0,
        }
    }

    /// Returns the next try, under the same mask: the j-th one goes j places on.
    pub fn next(&mut self, mask: u64)
        ensures goes_on { self.new ≡ probe_after self.old mask }
        // however the sums wrap
        ensures place { (hash bits : ℕ) → bits < 64 → mask ≡ 2 ^ bits - 1 → IsAt self.old hash bits
            → IsAt self.new hash bits }
    {
        self.len = self.len.wrapping_add(1);
        self.i = self.i.wrapping_add(self.len) & mask;
    }
}

/// In a table whose length is a power of two, the first tries, as many as it has places, are at different places.
pub fn places_are_distinct()
    ensures { (hash bits : ℕ) → HasDistinctPlaces hash bits }
{}

/// And so each place is that of one of these tries: a probe over all places finds an empty one if there is any.
pub fn every_place_is_tried()
    ensures { (hash bits : ℕ) → HasAllPlaces hash bits }
{}

/// Returns the number of the last try at a table of this length, from 1 on: five times its logarithm to the base two, rounded down, but at most the length less
/// one.
pub fn limit(len: u64) -> u64
    requires { 1 ≤ len }
    ensures formula { result ≡ limit_of len }
    ensures in_words { (bits : ℕ) → 2 ^ bits ≤ len → len < 2 * 2 ^ bits
        → result ≡ min (5 * bits) (len - 1) }
{
    (5 * u64::from(len.ilog2())).min(len - 1)
}

//! What is promised of the numbers of a call on one key, of a reservation, and of a copier.
ghost use Rattle.std.specs.Prelude.{ℕ, Bool};
ghost use Rattle.many_calls.specs.Given.PointsMeasures.{DescentsEnd};
ghost use Rattle.map_measures.specs.Falls.Falls.{CallsFall, SupersededCallsFall, RowsFall, NumbersAreAsMany};
ghost use Rattle.map_measures.specs.Falls.FallsReserves.{ReservesFall, SupersededReservesFall, ReserveRowsFall, ReserveNumbersAreAsMany};
ghost use Rattle.map_measures.specs.Falls.FallsWithin.{CopiersFall, BlockingCopiersFall, SupersededCopiersFall};

/// In any state of a map that the rule allows, in both modes, and whatever other callers have under way: a step of a call on one key which goes on and is none
/// of a row of the collector, of a call that asks, too, leads to lower numbers, of the call and of the tables that the memory shows then. So does one that
/// hands out the pair which was not stored. So it is in a table that the root has left. No number falls while a call waits for a reply, and a reply may raise
/// them. Steps of a row within a call, those that hand out what they have reclaimed, too, leave its numbers as they are, and the last one, where the call goes
/// on with it, lowers them. They are always as many, and each descent of as many numbers terminates.
pub fn steps_lower_the_number<K, V, Q>()
    ensures calls { (same : K → K → Bool) (hash : K → ℕ) (asks : Q → K → Bool) → CallsFall V same hash asks }
    ensures late { (same : K → K → Bool) (hash : K → ℕ) (asks : Q → K → Bool) → SupersededCallsFall V same hash asks }
    ensures rows { (same : K → K → Bool) (hash : K → ℕ) (asks : Q → K → Bool) → RowsFall V same hash asks }
    ensures many { NumbersAreAsMany K V Q }
    ensures ends { DescentsEnd }
{}

/// So it is with each step of a reservation that goes on, in both modes, in a table that the root has left, too, and with those of the rows within it. Its
/// numbers are always as many.
pub fn reservations_lower_the_number<K, V>()
    ensures steps { (same : K → K → Bool) (hash : K → ℕ) → ReservesFall V same hash }
    ensures late { (same : K → K → Bool) (hash : K → ℕ) → SupersededReservesFall V same hash }
    ensures rows { ReserveRowsFall K V }
    ensures many { ReserveNumbersAreAsMany K }
{}

/// So it is with each step of a copier by itself, be it within a call or not, of one that copies a whole table, too: in incremental mode, in blocking
/// mode, and there once the root has left the table that it copies.
pub fn copiers_lower_the_number<K, V>()
    ensures incremental { (same : K → K → Bool) (hash : K → ℕ) → CopiersFall V same hash }
    ensures blocking { (same : K → K → Bool) (hash : K → ℕ) → BlockingCopiersFall V same hash }
    ensures late { (same : K → K → Bool) (hash : K → ℕ) → SupersededCopiersFall V same hash }
{}

//! What is promised of each step of the machine that any caller has under way.
ghost use Rattle.std.specs.Prelude.{ℕ, Bool};
ghost use Rattle.map_measures.specs.Given.PointsMeasures.{DescentsEnd};
ghost use Rattle.owner_whole.specs.Lowers.Looks.{LookupsStepByLoads};
ghost use Rattle.owner_whole.specs.Lowers.Lowers.{StepsLower};
ghost use Rattle.owner_whole.specs.Lowers.Waits.{StepsWait};

/// Any callers have calls under way on any maps of one collector, in either mode, and make and end others. Each step of one by which it goes on lowers its
/// numbers, as its machine, the tables of its map and the memory tell them: also one of a row of the collector, one that hands out what was reclaimed, and one
/// that shows a pair of a walk. They are always as many, and each descent of as many numbers terminates: so no call turns on a word that others hold.
pub fn steps_lower_the_numbers<K, V, Q>()
    ensures lower { (same : K → K → Bool) (asks : Q → K → Bool) (batch_size roots : ℕ) (slot : ℕ → ℕ) → StepsLower V same asks batch_size roots slot }
    ensures ends { DescentsEnd }
{}

/// A step of one answers that it waits only for a reason, and then has changed no word, and leaves it where it stood. On one key in incremental mode: while the
/// pair that the map has of its key, to which its try has come, is being copied out of the root. Else, and in blocking mode: while the copying of a whole table is
/// not over. And at a row of the collector: while just one other row has the batch of its slot in hand.
pub fn steps_wait_for_a_reason<K, V, Q>()
    ensures waits { (same : K → K → Bool) (asks : Q → K → Bool) (batch_size roots : ℕ) (slot : ℕ → ℕ) → StepsWait V same asks batch_size roots slot }
{}

/// Each step of one that looks up a key is one load: one of the root, and in each table that it enters at most one for each try up to the limit, and one of the link
/// behind. It goes on so or answers: it never waits, and no table is entered twice.
pub fn lookups_step_by_loads<K, V, Q>()
    ensures loads { (same : K → K → Bool) (asks : Q → K → Bool) (batch_size roots : ℕ) (slot : ℕ → ℕ) → LookupsStepByLoads V same asks batch_size roots slot }
{}

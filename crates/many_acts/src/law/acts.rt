//! What is promised of lists of acts, of any number of callers, on any number of maps of one collector.
ghost use Rattle.std.specs.Prelude.{ℕ, Bool};
ghost use Rattle.many_acts.specs.Acts.Counts.{CountingsAddUp, CountingsAnswerTheSum};
ghost use Rattle.many_acts.specs.Acts.Courses.{CoursesAgree};
ghost use Rattle.many_acts.specs.Acts.AsSteps.{ActsLeadAsSteps, ReclaimingLeadsAsSteps};
ghost use Rattle.many_acts.specs.Acts.Reclaiming.{ReclaimingIsByActs};
ghost use Rattle.many_acts.specs.Acts.Lists.{Course, StepsAreActs, ListsDetermine};

/// Any number of callers begin calls on any maps of one collector, in either mode, and take steps of them, tell them what they ask for, make and end maps, and
/// work on their slots, in any order. What one does at once is an act, as plain data: who does it, on which map, what the memory was free to choose, what a
/// call was told, and the hasher with which a map is made. Each act is one operation on the memory at most, and a list of acts determines the world, the maps
/// with all their tables and pairs, what callers have under way, and what they were told. After each act the invariant of all holds, and whoever takes the next
/// step of what it has under way may take it: what it looks at is there. No step that a memory can take is left out. By any course a list leads to the same
/// memory, machines and answers. Where nobody has anything under way, a caller may reclaim all in the midst of a list, by steps as plain data too, as often as
/// one likes; other acts come behind it.
pub fn lists_of_acts_determine<K, V, S>()
    ensures steps { (same : K → K → Bool) (hash : S → K → ℕ) (batch_size roots : ℕ) (slot : ℕ → ℕ) → StepsAreActs V same hash batch_size roots slot }
    ensures determined { (same : K → K → Bool) (hash : S → K → ℕ) (batch_size roots : ℕ) (slot : ℕ → ℕ) → ListsDetermine V same hash batch_size roots slot }
    ensures agree { (same : K → K → Bool) (hash : S → K → ℕ) (batch_size roots : ℕ) (slot : ℕ → ℕ) → CoursesAgree V same hash batch_size roots slot }
{}

/// What a counting of pairs answers is the sum of what the shards of its map's counter said, each as it was read, at a moment since the counting began, while
/// others added there.
pub fn countings_answer_the_sum<K, V, S>()
    ensures adds { (same : K → K → Bool) (hash : S → K → ℕ) (batch_size roots : ℕ) (slot : ℕ → ℕ) (course : Course V same hash batch_size roots slot) → CountingsAddUp same hash batch_size roots slot course }
    ensures answers { (same : K → K → Bool) (hash : S → K → ℕ) (batch_size roots : ℕ) (slot : ℕ → ℕ) (course : Course V same hash batch_size roots slot) → CountingsAnswerTheSum same hash batch_size roots slot course }
{}

/// And where nobody has anything under way, a caller that reclaims all does so by what may be in a list of acts: each of its steps is one operation at most,
/// computed from the memory and from what that was free to choose, and none is left out.
pub fn reclaiming_is_by_acts<K, V>()
    ensures acts { (same : K → K → Bool) (batch_size roots : ℕ) (slot : ℕ → ℕ) → ReclaimingIsByActs V same batch_size roots slot }
{}

/// Each act leads where a step of its kind does, of what is held: a call begins, takes a step, is told something, asked for a pair or given up, a making or an
/// end begins or takes a step, and so does a row on the slot of its caller. What its one operation has changed is computed from the memory, and from what that
/// was free to choose, and so is what a row tells. And so does a step of a caller that reclaims all. So whatever is so of each kind of step is so of each act.
pub fn acts_lead_as_steps<K, V, S>()
    ensures leads { (same : K → K → Bool) (by_hasher : S → K → ℕ) (hash : ℕ → K → ℕ) (batch_size roots : ℕ) → ActsLeadAsSteps V same by_hasher hash batch_size roots }
    ensures all { (same : K → K → Bool) (hash : ℕ → K → ℕ) (batch_size roots : ℕ) → ReclaimingLeadsAsSteps V same hash batch_size roots }
{}

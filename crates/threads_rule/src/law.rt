//! What is promised of the rule of maps.
ghost use Rattle.std.specs.Prelude.{ℕ, Bool};
ghost use Rattle.threads_rule.specs.Views.Promises.{RulesStart, SeatsCome, CallsContinue, CallsTurn, HeldAreShown, CallsBegin, CallsAreReplied, CallsAreAsked, MapsAreHandedOn, MakingsBegin, MakingsContinue};
ghost use Rattle.threads_rule.specs.Views.Promises.{RowsContinue, RowsTurn, SettlingsBegin, LookedAreShown, LeaningsBegin, LeaningsEnd, LoansBegin, LoansEnd, HeldAreKept, KeptAreThere, EndingsBegin, EndingsContinue, EndingsAreShown};

/// Keys may be compared, and hashed by a hasher, in any way. The rule may start where each hasher is lawful, and seats may come; and the next step of a call that a
/// seat has under way, with an operation or without, may be taken at any moment, whatever the other seats do. What a step
/// of any call has looked at is there until its next step, with the value that it had.
pub fn calls_go_on<K, V, S>()
    ensures starts { (same : K → K → Bool) (hash : S → K → ℕ) → RulesStart V same hash }
    ensures come { (same : K → K → Bool) (hash : S → K → ℕ) → SeatsCome V same hash }
    ensures on { (same : K → K → Bool) (hash : S → K → ℕ) → CallsContinue V same hash }
    ensures turn { (same : K → K → Bool) (hash : S → K → ℕ) → CallsTurn V same hash }
    ensures held { (same : K → K → Bool) (hash : S → K → ℕ) → HeldAreShown V same hash }
{}

/// Within its section a seat that knows a map, and has nothing under way, may begin any call on it, and so may one within the section of a seat that it leans on, but that it only looks keys up in blocking mode; what it has under way may be
/// told anything, or asked for its next pair; and a map that one seat knows may be handed on to another one that has nothing under way.
pub fn calls_begin<K, V, S>()
    ensures begin { (same : K → K → Bool) (hash : S → K → ℕ) → CallsBegin V same hash }
    ensures told { (same : K → K → Bool) (hash : S → K → ℕ) → CallsAreReplied V same hash }
    ensures asked { (same : K → K → Bool) (hash : S → K → ℕ) → CallsAreAsked V same hash }
    ensures handed { (same : K → K → Bool) (hash : S → K → ℕ) → MapsAreHandedOn V same hash }
{}

/// A seat that holds no slot, and has nothing under way, may begin to make a map; and the next operation of a making may be made at any moment, whatever the other seats do.
pub fn makings_go_on<K, V, S>()
    ensures begin { (same : K → K → Bool) (hash : S → K → ℕ) → MakingsBegin V same hash }
    ensures on { (same : K → K → Bool) (hash : S → K → ℕ) → MakingsContinue V same hash }
{}

/// The seat that owns a map may begin to end it, where nobody leans on it, and the next operation of an end may be made at any moment, whatever the other seats do, and what a step of it has looked at is there until its next one; and a seat may come to lean on it, and knows the map then, and back.
pub fn endings_go_on<K, V, S>()
    ensures begin { (same : K → K → Bool) (hash : S → K → ℕ) → EndingsBegin V same hash }
    ensures on { (same : K → K → Bool) (hash : S → K → ℕ) → EndingsContinue V same hash }
    ensures shown { (same : K → K → Bool) (hash : S → K → ℕ) → EndingsAreShown V same hash }
    ensures lent { (same : K → K → Bool) (hash : S → K → ℕ) → LoansBegin V same hash }
    ensures back { (same : K → K → Bool) (hash : S → K → ℕ) → LoansEnd V same hash }
{}

/// A seat that has nothing under way, and holds no slot, may come to lean on one that is within its section, and back: calls of it are within that one's section then, and
/// what it has found that one keeps for as long as it is within that section.
pub fn leanings_begin<K, V, S>()
    ensures begin { (same : K → K → Bool) (hash : S → K → ℕ) → LeaningsBegin V same hash }
    ensures end { (same : K → K → Bool) (hash : S → K → ℕ) → LeaningsEnd V same hash }
    ensures kept { (same : K → K → Bool) (hash : S → K → ℕ) → HeldAreKept V same hash }
    ensures there { (same : K → K → Bool) (hash : S → K → ℕ) → KeptAreThere V same hash }
{}

/// A seat that has no call and no making under way, and on which nobody leans, may take a slot, enter, leave, refresh, try its batch and give its slot up: each row may begin, go on and end at any
/// moment, whatever the other seats do; and what a settling is to look at is there.
pub fn rows_go_on<K, V, S>()
    ensures on { (same : K → K → Bool) (hash : S → K → ℕ) → RowsContinue V same hash }
    ensures turn { (same : K → K → Bool) (hash : S → K → ℕ) → RowsTurn V same hash }
    ensures settle { (same : K → K → Bool) (hash : S → K → ℕ) → SettlingsBegin V same hash }
    ensures looked { (same : K → K → Bool) (hash : S → K → ℕ) → LookedAreShown V same hash }
{}

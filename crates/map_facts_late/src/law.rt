//! What is promised of reservations and sweeps, of calls by their kind, and of calls in tables that the root has left, while others step.
ghost use Rattle.std.specs.Prelude.{ℕ, Bool};
ghost use Rattle.map_facts_late.specs.Faults.{ReservesRefuseRoom, ReservesAskOn, SweepsRefuseRoom, RepliedSweepsRefuseRoom};
ghost use Rattle.map_facts_late.specs.Kinds.{KindsBegin, AskingKindsBegin, CallsPreserveTheirKind, RepliesPreserveTheKind, LookupsLeaveTheMemory};
ghost use Rattle.map_facts_late.specs.LateLasts.{CallsKnowOn};
ghost use Rattle.map_facts_late.specs.LateSteps.{SupersededLookupsAnswer, SupersededCopiersPreserveTheMap, SupersededCallsPreserveTheMap, SupersededRepliesAreTaken};
ghost use Rattle.map_facts.specs.Others.{StepsAreOfOthers};
ghost use Rattle.map_facts_late.specs.LastsReserves.{SupersededReservesPreserveTheMap, ReservesKnowOn};
ghost use Rattle.map_facts_late.specs.StepsReserves.{ReservesBegin, ReservesPreserveTheMap};
ghost use Rattle.map_facts_late.specs.CoversSweeps.{SweepsCover, SweepsStayCovered, SweepsAreRepliedOn};
ghost use Rattle.map_facts_late.specs.LastsSweeps.{SweepsKnowOn};
ghost use Rattle.map_facts_late.specs.RowsSweeps.{SweepsContinue, SweepsRestOn};
ghost use Rattle.map_facts_late.specs.StepsSweeps.{SweepsBegin, SweepsAreReplied, SweepsPreserveTheMap};

/// Where pairs move in blocking mode, the root of a map may leave the table that a call works in. That table names just the pairs that the map had
/// then. A lookup there may take its step: it changes nothing, and ends with what was so at a moment since its call began. A copier may take its step,
/// too, and a call, if that is none of a row of the collector, while claims are few. It then knows what the next point is to know, there or in the
/// root's table, and the map stands where the step leads, after one move at most. It changes none of the pairs that the map has, and what a call
/// answers, or asks, was so at a moment since it began. One that is told what it has asked knows what its next point is to know.
pub fn late_steps_keep_the_map<K, V, Q>()
    ensures lookups { (same : K → K → Bool) (hash : K → ℕ) → SupersededLookupsAnswer V same hash }
    ensures copiers { (same : K → K → Bool) (hash : K → ℕ) → SupersededCopiersPreserveTheMap V same hash }
    ensures calls { (same : K → K → Bool) (hash : K → ℕ) (asks : Q → K → Bool) → SupersededCallsPreserveTheMap V same hash asks }
    ensures replies { (same : K → K → Bool) (hash : K → ℕ) (asks : Q → K → Bool) → SupersededRepliesAreTaken V same hash asks }
{}

/// In both modes a step of one caller leaves to all others what they have and look at. While others step, a call knows on what its program point is to
/// know; or, where the root leaves its table in blocking mode, what is to be known then, if claims are few.
pub fn calls_know_on<K, V, Q>()
    ensures others { (same : K → K → Bool) (hash : K → ℕ) → StepsAreOfOthers V same hash }
    ensures known { (same : K → K → Bool) (hash : K → ℕ) (asks : Q → K → Bool) → CallsKnowOn V same hash asks }
{}

/// Where a map stands in the collector's world, a reservation that knows what its program point is to know may take its step, if that is none of a row
/// of the collector. It then knows what the next point is to know, and the map stands where the step leads, after one move of its tables at most. It
/// changes none of the pairs that the map has, and beside its copying it links a table at most. At its end its caller has no part in a copying. One that
/// begins where that is so knows what its first point is to know.
pub fn reservations_keep_the_map<K, V>()
    ensures begins { (same : K → K → Bool) (hash : K → ℕ) → ReservesBegin V same hash }
    ensures steps { (same : K → K → Bool) (hash : K → ℕ) → ReservesPreserveTheMap V same hash }
{}

/// While others step, a reservation knows on what its program point is to know; or, where the root leaves its table in blocking mode, what is to be
/// known then, if claims are few. There it may take its step, too, if that is none of a row: it goes on there, copies into the table behind, or comes to
/// the root's table. It changes none of the pairs that the map has, and at its end its caller has no part in a copying.
pub fn reservations_know_on<K, V>()
    ensures late { (same : K → K → Bool) (hash : K → ℕ) → SupersededReservesPreserveTheMap V same hash }
    ensures known { (same : K → K → Bool) (hash : K → ℕ) → ReservesKnowOn V same hash }
{}

/// A call on one key stays of its kind, whatever its steps find, and whatever it is told: what it does where the key is there, and where it is missing,
/// and which replies it takes. It answers as one of its kind, and changes the map as one. Of those that never ask, an insertion answers only what it has
/// stored, with or without what it replaced, one that is not to replace what it has stored or found, a removal what it has removed or that the key is
/// missing, a lookup what it has found or that it is missing. Of those that ask, one that takes changes (`compute`) may answer each of these: what it has
/// stored, what it replaced by what, what it has removed, what it has found and left, or that the key is missing. An update answers only what it replaced
/// by what, or that the key is missing, and one that inserts where it is missing (`update_or_insert`, `update_or_insert_with`) what it replaced by what, or
/// what it has stored. `try_insert_with` answers what it has stored or found. `remove_if` answers what it has removed, what it has found and left, or
/// that the key is missing. So a pair is replaced or removed only where a call of that kind may do so. A lookup is refused nothing, and the others memory
/// and capacity alone, but that a call that takes changes may also be refused the removal of none. A lookup leaves the memory as it is.
pub fn calls_keep_their_kind<K, V, Q>()
    ensures begins { KindsBegin K V Q }
    ensures asking { AskingKindsBegin K V Q }
    ensures kept { CallsPreserveTheirKind K V Q }
    ensures replies { RepliesPreserveTheKind K V Q }
    ensures lookups { LookupsLeaveTheMemory K V Q }
{}

/// A reservation is refused memory and capacity alone, and asks at each of its steps for as many further pairs as it was begun for.
pub fn reservations_ask_for_room<K, V>()
    ensures refused { ReservesRefuseRoom K V }
    ensures asks { ReservesAskOn K V }
{}

/// A sweep is refused memory and capacity alone, at each of its steps, whatever it was asked for and told between them.
pub fn sweeps_are_refused_for_room<K, V>()
    ensures refused { SweepsRefuseRoom K V }
    ensures told { RepliedSweepsRefuseRoom }
{}

/// Where a map stands in the collector's world, a sweep that knows what its program point is to know may take its step, if that is none of a row of the
/// collector. It then knows what the next point is to know, and the map stands where the step leads, after one move of its tables at most. It changes
/// none of the pairs that the map has, but one that it removes from its place, and what it shows or comes to ask about stands at its place. One that
/// begins knows what its first point is to know, where its caller has no part in a copying, and it knows on what it is asked for, and told.
pub fn sweeps_keep_the_map<K, V>()
    ensures begins { (same : K → K → Bool) (hash : K → ℕ) → SweepsBegin V same hash }
    ensures told { (same : K → K → Bool) (hash : K → ℕ) → SweepsAreReplied V same hash }
    ensures steps { (same : K → K → Bool) (hash : K → ℕ) → SweepsPreserveTheMap V same hash }
{}

/// While others step, a sweep knows on what its program point is to know, also where the root leaves its table, if claims are few in blocking mode.
pub fn sweeps_know_on<K, V>()
    ensures known { (same : K → K → Bool) (hash : K → ℕ) → SweepsKnowOn V same hash }
{}

/// In the table that a sweep goes over, behind its place, each pair that was in the map at every moment since it began to go over it has been shown by a
/// walk, or told to be kept by a retaining; a clearing leaves none. What was shown or told to be kept was in the map at a moment since then, and is so
/// once. So it is by each of its own steps, by those of others, and by what it is told; at its end, that holds of all pairs.
pub fn sweeps_cover<K, V>()
    ensures steps { (same : K → K → Bool) (hash : K → ℕ) → SweepsCover V same hash }
    ensures others { (same : K → K → Bool) (hash : K → ℕ) → SweepsStayCovered V same hash }
    ensures told { (same : K → K → Bool) (hash : K → ℕ) → SweepsAreRepliedOn V same hash }
{}

/// While a row of the collector disposes of the pair that a sweep has removed, the sweep knows on where it is, also while others step; after the row its
/// place is behind it, it knows what its next point is to know, and has come to what it comes to there.
pub fn sweeps_go_on<K, V>()
    ensures after { (same : K → K → Bool) (hash : K → ℕ) → SweepsContinue V same hash }
    ensures rests { (same : K → K → Bool) (hash : K → ℕ) → SweepsRestOn V same hash }
{}

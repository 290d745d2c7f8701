//! What is promised of each step of a call, by what its program point knows.
ghost use Rattle.std.specs.Prelude.{ℕ, Bool};
ghost use Rattle.map_facts.specs.Looks.{LookupsLoad, LookupsLookOn};
ghost use Rattle.map_facts.specs.MeasuresLooks.{LookupsAreShort};
ghost use Rattle.map_facts.specs.Steps.{LookupsBegin, LookupsTell, CallsBegin, AskingCallsBegin, RepliesAreTaken, CallsPreserveTheMap};

/// Where a map stands in the collector's world, a call that knows what its program point is to know may take its step, if that is none of a row of
/// the collector. It then knows what the next point is to know, and the map stands where the step leads, after one move of its tables at most. A call changes the map in one step at most. The step that comes to its answer
/// tells the change that it made, or what is so where it made none. A lookup changes nothing, and ends with what is so.
pub fn steps_keep_the_map<K, V, Q>()
    ensures lookups_begin { (same : K → K → Bool) (hash : K → ℕ) → LookupsBegin same hash }
    ensures lookups { (same : K → K → Bool) (hash : K → ℕ) → LookupsTell V same hash }
    ensures calls_begin { (same : K → K → Bool) (hash : K → ℕ) (asks : Q → K → Bool) → CallsBegin V same hash asks }
    ensures asking_calls_begin { (same : K → K → Bool) (hash : K → ℕ) (asks : Q → K → Bool) → AskingCallsBegin V same hash asks }
    ensures replies { (same : K → K → Bool) (hash : K → ℕ) (asks : Q → K → Bool) → RepliesAreTaken V same hash asks }
    ensures calls { (same : K → K → Bool) (hash : K → ℕ) (asks : Q → K → Bool) → CallsPreserveTheMap V same hash asks }
{}

/// Each step of a lookup is a load, until it has ended. It loads the root once, and in each table that it enters a word for each of its tries and the
/// link to the table behind, each at most once: so many loads it makes at most, and no table is entered twice, since each stands behind the one
/// entered before.
pub fn lookups_are_short<K, V>()
    ensures loads { LookupsLoad K V }
    ensures steps { (same : K → K → Bool) (hash : K → ℕ) → LookupsLookOn V same hash }
    ensures few { LookupsAreShort }
{}

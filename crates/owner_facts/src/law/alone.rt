//! How many pairs the tries of a call meet that nobody interrupts, and what length of a table that comes to.
ghost use Rattle.std.specs.Prelude.{ℕ, Bool};
ghost use Rattle.owner_facts.specs.Alone.Met.{MetPairsAreFew, TriesMeetPairs, CallsMeetPairs, WordsSayWhatStands, MeetsNoMore, CallsPreserveMost, GoesByTheCounterAlone};

/// The tries of a hash at a table are at different places, and a pair stands at one place of it. So at the last table they meet no more pairs than the
/// map has. What a call has met is no more than that either, while nobody else changes the memory: it begins with none in each table, each word that
/// it counts is that of a try at which a pair stands, and so it stays up to the end of the counting for the next table. So the most that it has met at a
/// table which it found full stays below, too, from table to table. Where the counter says how many pairs the map has, each such table then has the length
/// that it has by the counter alone.
pub fn met_pairs_are_few<K, V, Q>()
    ensures few { (same : K → K → Bool) (hash : K → ℕ) (incremental : Bool) → MetPairsAreFew same hash incremental }
    ensures tries { (hash : K → ℕ) → TriesMeetPairs hash }
    ensures steps { (same : K → K → Bool) (hash : K → ℕ) (asks : Q → K → Bool) → CallsMeetPairs V same hash asks }
    ensures words { (same : K → K → Bool) (hash : K → ℕ) → WordsSayWhatStands V same hash }
    ensures full { (same : K → K → Bool) (hash : K → ℕ) → MeetsNoMore V Q same hash }
    ensures most { (same : K → K → Bool) (hash : K → ℕ) (asks : Q → K → Bool) → CallsPreserveMost V same hash asks }
    ensures lengths { GoesByTheCounterAlone K }
{}

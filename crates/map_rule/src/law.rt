//! What is promised of a map's tables, whoever changes them when.
ghost use Rattle.std.specs.Prelude.{ℕ, Bool};
ghost use Rattle.map_rule.specs.Known.{BytesAreFew, CurrentIsKnown, PlacesHavePairs, WordsNamePairs, WordsTellMarks, WordsWithBlocks};
ghost use Rattle.map_rule.specs.Beside.{StepsSpareOthers};
ghost use Rattle.map_rule.specs.Links.{RootsLead, NextsLead, LinksHaveTables};
ghost use Rattle.map_rule.specs.Lasts.{MovesPreserveTheRule, MovesGiveNoShares, RuleBegins};
ghost use Rattle.map_rule.specs.Leaves.{MovesLeaveToOthers, LeavesOnAndOn};
ghost use Rattle.map_rule.specs.Moments.{MovesPreserveTheHistory, HistoryBegins};

/// Callers change the tables of a map, one single operation after another in any order, in either mode, for any keys that are lawful.
/// A map without a table meets the rule. Each change keeps it, leaves what lasts, and neither takes a share of the copying from a
/// caller that did not make it nor gives it one. It keeps the history, too: which pairs the map had at which moment, and which of them
/// each table names that the root has left in blocking mode.
pub fn moves_keep_the_rule<K>()
    ensures begins { (same : K → K → Bool) (spot : ℕ → K → ℕ → ℕ) (incremental : Bool) → RuleBegins same spot incremental }
    ensures kept { (same : K → K → Bool) (spot : ℕ → K → ℕ → ℕ) (incremental : Bool) → MovesPreserveTheRule same spot incremental }
    ensures starts { (incremental : Bool) → HistoryBegins K incremental }
    ensures remembers { (same : K → K → Bool) (spot : ℕ → K → ℕ → ℕ) (incremental : Bool) → MovesPreserveTheHistory same spot incremental }
    ensures leaves { (same : K → K → Bool) (spot : ℕ → K → ℕ → ℕ) (incremental : Bool) → MovesLeaveToOthers same spot incremental }
    ensures on { (same : K → K → Bool) (spot : ℕ → K → ℕ → ℕ) (incremental : Bool) → LeavesOnAndOn same spot incremental }
    ensures shares { (same : K → K → Bool) (spot : ℕ → K → ℕ → ℕ) (incremental : Bool) → MovesGiveNoShares same spot incremental }
{}

/// A pair of the map was stored, and can be looked at. The word of its place names its block, where hashes have 64 bits, and tells whether the place is
/// marked. A word that names a block is that of a pair, and the pair of a place is in its block.
pub fn pairs_are_known<K, V>()
    ensures current { (same : K → K → Bool) (hash : K → ℕ) → CurrentIsKnown K V same hash }
    ensures words { WordsNamePairs }
    ensures bytes { (hash : K → ℕ) → BytesAreFew K hash }
    ensures named { WordsWithBlocks }
    ensures marks { WordsTellMarks }
    ensures places { (same : K → K → Bool) (hash : K → ℕ) → PlacesHavePairs K V same hash }
{}

/// The link of a map's root leads to the first table, and the link of each table to the one behind, once there is one. What a link leads to is that table.
pub fn links_lead_on<K, V>()
    ensures root { (same : K → K → Bool) (hash : K → ℕ) → RootsLead K V same hash }
    ensures next { (same : K → K → Bool) (hash : K → ℕ) → NextsLead K V same hash }
    ensures tables { (same : K → K → Bool) (hash : K → ℕ) → LinksHaveTables K V same hash }
{}

/// A block that is neither a caller's own nor one of its map that can be looked at is after a step of that caller as it was: its value, in whose hands it
/// is, and where it is, if it isn't reached through such a block.
pub fn steps_spare_others<K, V>()
    ensures kept { (same : K → K → Bool) (hash : K → ℕ) → StepsSpareOthers V same hash }
{}

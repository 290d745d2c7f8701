//! What is promised of what links lead to, whoever takes a step.
ghost use Rattle.std.specs.Prelude.{ℕ, Bool};
ghost use Rattle.many_acts.specs.Acts.Lists.{Course};
ghost use Rattle.many_acts.specs.Links.Lists.{ScenesAreTied, ScenesAreClosed, ActsUnlink, ListsAreTied, ListsHold, ListsUnlink, ListsAreClosed};

/// Any number of callers begin calls on any maps of one collector, in either mode, take steps of them, make and end maps, and work on their slots, in any order.
/// After any list of such acts whatever links lead to from the root of a map that stands can be reached, as the collector's log tells, and so can what a link of
/// a table names that can be reached, unless that was over as its owner ended: marks, tombstones, tables that were given up, and resizes under way are no
/// exception. Each section that somebody is inside holds it. So a block that a step unlinks could be reached before, and no link leads to it then, from a root or
/// from such a table. And what the section of a caller sees of a map is closed: it sees what the root names, and with a table what its links name, also once those
/// were unlinked; and it holds what it sees.
pub fn links_lead_to_what_can_be_reached<K, V, S>()
    ensures scenes { (same : K → K → Bool) (hash : S → K → ℕ) (batch_size roots : ℕ) (slot : ℕ → ℕ) → ScenesAreTied V same hash batch_size roots slot }
    ensures acts { (same : K → K → Bool) (hash : S → K → ℕ) (batch_size roots : ℕ) (slot : ℕ → ℕ) → ActsUnlink V same hash batch_size roots slot }
    ensures sights { (same : K → K → Bool) (hash : S → K → ℕ) (batch_size roots : ℕ) (slot : ℕ → ℕ) → ScenesAreClosed V same hash batch_size roots slot }
    ensures tied { (same : K → K → Bool) (hash : S → K → ℕ) (batch_size roots : ℕ) (slot : ℕ → ℕ) (course : Course V same hash batch_size roots slot) → ListsAreTied V same hash batch_size roots slot course }
    ensures held { (same : K → K → Bool) (hash : S → K → ℕ) (batch_size roots : ℕ) (slot : ℕ → ℕ) (course : Course V same hash batch_size roots slot) → ListsHold V same hash batch_size roots slot course }
    ensures unlinking { (same : K → K → Bool) (hash : S → K → ℕ) (batch_size roots : ℕ) (slot : ℕ → ℕ) (course : Course V same hash batch_size roots slot) → ListsUnlink V same hash batch_size roots slot course }
    ensures closed { (same : K → K → Bool) (hash : S → K → ℕ) (batch_size roots : ℕ) (slot : ℕ → ℕ) (course : Course V same hash batch_size roots slot) → ListsAreClosed V same hash batch_size roots slot course }
{}

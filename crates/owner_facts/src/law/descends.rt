//! What is promised of the numbers of countings, makings and ends of maps.
ghost use Rattle.std.specs.Prelude.{ℕ, Bool};
ghost use Rattle.owner_facts.specs.Maps.EndingsBegins.{BeginningsEnd, BeginningsLeaveLess};
ghost use Rattle.owner_facts.specs.Descends.ComeToAnEnd.{CountingsEnd, EndingsEnd};
ghost use Rattle.owner_facts.specs.Descends.Numbers.{EndingNumbersAreAsMany};
ghost use Rattle.owner_facts.specs.Descends.Falls.{CountingsFall, EndingsFall, OthersLeaveEndings};
ghost use Rattle.owner_facts.specs.Descends.Owned.{OwnEndingsEnd, OwnEndingsFall};

/// Whatever other callers have under way, each step of a counting, of the making of a map, or of the end of one, that goes on, lowers its number, in either
/// mode. The numbers of a counting and of a making are read off the machine alone, that of an end off what its caller has under way, and off the list of what
/// waits, which is its own. So nothing that others do between two such steps changes them. And as a descent of numbers terminates, so does each of them by its
/// own steps, whatever others do between these. So it is of the end of a map that owns its collector, where what its tables carry counts, too.
pub fn own_steps_lower_the_number<K, V, Q>()
    ensures countings { CountingsFall K V }
    ensures makings { BeginningsLeaveLess K V }
    ensures endings { (same : K → K → Bool) (asks : Q → K → Bool) (batch_size roots : ℕ) (slot : ℕ → ℕ) → EndingsFall V same asks batch_size roots slot }
    ensures others { (same : K → K → Bool) (asks : Q → K → Bool) (batch_size roots : ℕ) (slot : ℕ → ℕ) → OthersLeaveEndings V same asks batch_size roots slot }
    ensures own_endings { (same : K → K → Bool) (asks : Q → K → Bool) (batch_size roots : ℕ) (slot : ℕ → ℕ) (i : ℕ) → OwnEndingsFall V same asks batch_size roots slot i }
    ensures many { EndingNumbersAreAsMany K V }
    ensures countings_end { CountingsEnd K V }
    ensures makings_end { BeginningsEnd K V }
    ensures endings_end { (same : K → K → Bool) (asks : Q → K → Bool) (batch_size roots : ℕ) (slot : ℕ → ℕ) (i : ℕ) → EndingsEnd V same asks batch_size roots slot i }
    ensures own_endings_end { (same : K → K → Bool) (asks : Q → K → Bool) (batch_size roots : ℕ) (slot : ℕ → ℕ) (i : ℕ) → OwnEndingsEnd V same asks batch_size roots slot i }
{}

//! What is promised of the histories of lists of acts.
ghost use Rattle.std.specs.Prelude.{ℕ, Bool};
ghost use Rattle.run_schedules.specs.Schedules.Terms.{Terms};
ghost use Rattle.play_moves.specs.Moves.Legal.{ListsKeepAll};
ghost use Rattle.play_moves.specs.Moves.Logs.{LogsKeepAll};
ghost use Rattle.play_moves.specs.EachMoves.Moves.{ListsMoveOn};

/// Wherever a list of acts has led, each entry of the history that it comes to as it is played moves on. Each effect of it finds what it must: a pair and a
/// table go through their lives in one order; a pair is stored at a free place, or at that of the pair that it replaces, and is copied to a later table; a
/// table is linked behind the newest one, with the length and the limit that its reason gives, by a call that found that one full, and a map's first one with
/// those that its capacity asks for; what is handed over was owed; the end of a map takes its pairs and its tables by place; and who registers asks for the
/// bucket that it needs. And each entry does what is its own to do, and all of that: it has effects of its kind alone; what is made was asked for in the same
/// step, and where a growth was refused nothing is made; a map that is made has the one table that was made for it where it has a capacity, and else none;
/// where its making is refused none was made; once it is there no more it has neither a pair nor a table; and a call that is over, or a walk that is ready, has
/// no obligation, has nothing made and nothing to count. So it is for any callers, maps, modes and hashes, whatever the memory chose and refused, if each map
/// is made with a number that is not taken, with so many shards as the terms say, and with such places as a capacity asks for.
pub fn lists_move_on<K, V, S>()
    ensures moves { (same : K → K → Bool) (by_hasher : S → K → ℕ) (hash : ℕ → K → ℕ) (batch_size roots : ℕ) (terms : Terms) → ListsMoveOn V same by_hasher hash batch_size roots terms }
{}

/// So the history of each list of acts keeps all that is promised of histories. Wherever a list has led, each entry of the history that it comes to as it is
/// played is linearizable: a call has an answer that was so at a moment since it began, and changes its map at one of its steps. It reclaims nothing that left
/// its map while a section was open that it does not end. It is swept: calls on whole maps do what they are for. It moves on. And it is of its call: a call
/// begins where its caller has none, and a step, a reply or an end is of one that its caller has under way. So it is for any callers,
/// maps, modes and hashes, whatever the memory chose and refused, whatever closures say, and whoever reclaims all meanwhile, if each map is made with a number
/// that is not taken, with so many shards as the terms say, and with such places as a capacity asks for.
pub fn lists_keep_all<K, V, S>()
    ensures all { (same : K → K → Bool) (by_hasher : S → K → ℕ) (hash : ℕ → K → ℕ) (batch_size roots : ℕ) (terms : Terms) → ListsKeepAll V same by_hasher hash batch_size roots terms }
{}

/// So where the log of a run is by acts, the history of which it is the grouping keeps all that is promised of histories, if the hashers are lawful.
pub fn logs_keep_all<K, V, S>()
    ensures all { (same : K → K → Bool) (by_hasher : S → K → ℕ) → LogsKeepAll {K = K} {S = S} V same by_hasher }
{}

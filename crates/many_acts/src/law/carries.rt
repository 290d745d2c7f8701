//! What is promised of the blocks that users have, and behind which something may be put.
ghost use Rattle.std.specs.Prelude.{ℕ, Bool, Option};
ghost use Rattle.run_shows.specs.Given.SeizeWorld.{World};
ghost use Rattle.run_shows.specs.Given.TablesDeclared.node.Node.{Node};
ghost use Rattle.owner_facts.specs.Given.CallersTogether.{UnderWay};
ghost use Rattle.owner_facts.specs.Given.FinishesEndings.{Finishing};
ghost use Rattle.owner_facts.specs.Given.FinishesMakings.{Beginning};
ghost use Rattle.owner_facts.specs.Given.FinishesMaps.{Standing};
ghost use Rattle.many_acts.specs.Acts.Doings.{ActsLeaveIt};
ghost use Rattle.many_acts.specs.Acts.Lists.{Course};
ghost use Rattle.many_acts.specs.Carries.Lists.{ActsPreserveTheirs, AllCanBeReclaimedThere, ListsPreserveTheirs, ListsReclaimAll, OnlyPairsAreDeferred, OnlyPairsWaitThere, ReclaimingBeginsThere, ReclaimingTerminates};
ghost use Rattle.many_acts.specs.Carries.Promises.{CallsPreserveTheirs, ChangesPreserveTheirs, EndingsBeginAndPreserveTheirs, EndingsPreserveTheirs, GuardsPreserveTheirs, MakingsPreserveTheirs, NoneBegins, NothingElseWaits, OnlyTablesCarry, ReclaimingPreservesTheirs, RoomRowsPreserveTheirs, RoomsPreserveTheirs, RowsPreserveTheirs, SweepRowsPreserveTheirs, SweepsPreserveTheirs};

/// Each block that users have, and behind which something may be put, is a linked table of a map that stands, or one that a call has unlinked and is to hand
/// over, or it is of a map that ends. In blocking mode a call may have unlinked several tables, and comes to them one after another. So it is where calls
/// begin, or are told what they ask for, over rows between calls, where the end of a map begins on which nobody has a call, and over its steps, and over rows
/// within calls, reservations and sweeps: there these hand over what they were to. It is so over a step of a call on one key, of a reservation or of a sweep
/// that is none of a row: the tables that the root leaves by it are those that the call is to hand over then. It is so over a step of a making, whose map's
/// first table is linked as the map stands. Where nobody has a call, and no map ends, such a block is a linked table of a map that stands. So it is while a
/// caller reclaims all, and once all is reclaimed nothing waits but pairs that are deferred on linked tables.
pub fn what_carries_is_somebodys<K, V, Q>()
    ensures starts { (same : K → K → Bool) (asks : Q → K → Bool) (batch_size roots : ℕ) (slot : ℕ → ℕ) (w : World (Node K V)) (maps : ℕ → Option (Standing K)) (calls : ℕ → ℕ → Option (UnderWay K V Q)) (makers : ℕ → Option (Beginning K)) (enders : ℕ → Option (Finishing K V)) → NoneBegins V same asks batch_size roots slot w maps calls makers enders }
    ensures rest { (same : K → K → Bool) (asks : Q → K → Bool) (batch_size roots : ℕ) (slot : ℕ → ℕ) (w : World (Node K V)) (maps : ℕ → Option (Standing K)) (calls : ℕ → ℕ → Option (UnderWay K V Q)) (makers : ℕ → Option (Beginning K)) (enders : ℕ → Option (Finishing K V)) → OnlyTablesCarry V same asks batch_size roots slot w maps calls makers enders }
    ensures changes { (same : K → K → Bool) (asks : Q → K → Bool) (batch_size roots : ℕ) (slot : ℕ → ℕ) (w : World (Node K V)) (maps : ℕ → Option (Standing K)) (calls : ℕ → ℕ → Option (UnderWay K V Q)) (makers : ℕ → Option (Beginning K)) (enders : ℕ → Option (Finishing K V)) → ChangesPreserveTheirs V same asks batch_size roots slot w maps calls makers enders }
    ensures guards { (same : K → K → Bool) (asks : Q → K → Bool) (batch_size roots : ℕ) (slot : ℕ → ℕ) (w : World (Node K V)) (maps : ℕ → Option (Standing K)) (calls : ℕ → ℕ → Option (UnderWay K V Q)) (makers : ℕ → Option (Beginning K)) (enders : ℕ → Option (Finishing K V)) → GuardsPreserveTheirs V same asks batch_size roots slot w maps calls makers enders }
    ensures calls { (same : K → K → Bool) (asks : Q → K → Bool) (batch_size roots : ℕ) (slot : ℕ → ℕ) (w : World (Node K V)) (maps : ℕ → Option (Standing K)) (calls : ℕ → ℕ → Option (UnderWay K V Q)) (makers : ℕ → Option (Beginning K)) (enders : ℕ → Option (Finishing K V)) → CallsPreserveTheirs V same asks batch_size roots slot w maps calls makers enders }
    ensures rooms { (same : K → K → Bool) (asks : Q → K → Bool) (batch_size roots : ℕ) (slot : ℕ → ℕ) (w : World (Node K V)) (maps : ℕ → Option (Standing K)) (calls : ℕ → ℕ → Option (UnderWay K V Q)) (makers : ℕ → Option (Beginning K)) (enders : ℕ → Option (Finishing K V)) → RoomsPreserveTheirs V same asks batch_size roots slot w maps calls makers enders }
    ensures sweeps { (same : K → K → Bool) (asks : Q → K → Bool) (batch_size roots : ℕ) (slot : ℕ → ℕ) (w : World (Node K V)) (maps : ℕ → Option (Standing K)) (calls : ℕ → ℕ → Option (UnderWay K V Q)) (makers : ℕ → Option (Beginning K)) (enders : ℕ → Option (Finishing K V)) → SweepsPreserveTheirs V same asks batch_size roots slot w maps calls makers enders }
    ensures rows { (same : K → K → Bool) (asks : Q → K → Bool) (batch_size roots : ℕ) (slot : ℕ → ℕ) (w : World (Node K V)) (maps : ℕ → Option (Standing K)) (calls : ℕ → ℕ → Option (UnderWay K V Q)) (makers : ℕ → Option (Beginning K)) (enders : ℕ → Option (Finishing K V)) → RowsPreserveTheirs V same asks batch_size roots slot w maps calls makers enders }
    ensures room_rows { (same : K → K → Bool) (asks : Q → K → Bool) (batch_size roots : ℕ) (slot : ℕ → ℕ) (w : World (Node K V)) (maps : ℕ → Option (Standing K)) (calls : ℕ → ℕ → Option (UnderWay K V Q)) (makers : ℕ → Option (Beginning K)) (enders : ℕ → Option (Finishing K V)) → RoomRowsPreserveTheirs V same asks batch_size roots slot w maps calls makers enders }
    ensures sweep_rows { (same : K → K → Bool) (asks : Q → K → Bool) (batch_size roots : ℕ) (slot : ℕ → ℕ) (w : World (Node K V)) (maps : ℕ → Option (Standing K)) (calls : ℕ → ℕ → Option (UnderWay K V Q)) (makers : ℕ → Option (Beginning K)) (enders : ℕ → Option (Finishing K V)) → SweepRowsPreserveTheirs V same asks batch_size roots slot w maps calls makers enders }
    ensures makings { (same : K → K → Bool) (asks : Q → K → Bool) (batch_size roots : ℕ) (slot : ℕ → ℕ) (w : World (Node K V)) (maps : ℕ → Option (Standing K)) (calls : ℕ → ℕ → Option (UnderWay K V Q)) (makers : ℕ → Option (Beginning K)) (enders : ℕ → Option (Finishing K V)) → MakingsPreserveTheirs V same asks batch_size roots slot w maps calls makers enders }
    ensures endings_begin { (same : K → K → Bool) (asks : Q → K → Bool) (batch_size roots : ℕ) (slot : ℕ → ℕ) (w : World (Node K V)) (maps : ℕ → Option (Standing K)) (calls : ℕ → ℕ → Option (UnderWay K V Q)) (makers : ℕ → Option (Beginning K)) (enders : ℕ → Option (Finishing K V)) → EndingsBeginAndPreserveTheirs V same asks batch_size roots slot w maps calls makers enders }
    ensures endings { (same : K → K → Bool) (asks : Q → K → Bool) (batch_size roots : ℕ) (slot : ℕ → ℕ) (w : World (Node K V)) (maps : ℕ → Option (Standing K)) (calls : ℕ → ℕ → Option (UnderWay K V Q)) (makers : ℕ → Option (Beginning K)) (enders : ℕ → Option (Finishing K V)) → EndingsPreserveTheirs V same asks batch_size roots slot w maps calls makers enders }
    ensures reclaiming { (same : K → K → Bool) (asks : Q → K → Bool) (batch_size roots : ℕ) (slot : ℕ → ℕ) (w : World (Node K V)) (maps : ℕ → Option (Standing K)) (calls : ℕ → ℕ → Option (UnderWay K V Q)) (makers : ℕ → Option (Beginning K)) (enders : ℕ → Option (Finishing K V)) → ReclaimingPreservesTheirs V same asks batch_size roots slot w maps calls makers enders }
    ensures waits { (same : K → K → Bool) (asks : Q → K → Bool) (batch_size roots : ℕ) (slot : ℕ → ℕ) (w : World (Node K V)) (maps : ℕ → Option (Standing K)) (calls : ℕ → ℕ → Option (UnderWay K V Q)) (makers : ℕ → Option (Beginning K)) (enders : ℕ → Option (Finishing K V)) → NothingElseWaits V same asks batch_size roots slot w maps calls makers enders }
{}

/// Any number of callers begin calls on any maps of one collector, take steps of them, tell them what they ask for, make and end maps, and work on their slots,
/// in any order: after any list of such acts each block that users have, and behind which something may be put, is somebody's, and what ended maps have left is
/// behind roots that are nobody's. Where nobody has anything under way then, any caller may begin to reclaim all. There are steps by which it terminates, and
/// whichever led it there, nothing waits then but pairs that are deferred on linked tables of maps that stand, in resizes that are unfinished. The list goes on
/// by those steps, and by other acts behind them, as often as one likes: all of this is so then, too.
pub fn lists_leave_only_pairs<K, V, S>()
    ensures acts { (same : K → K → Bool) (hash : S → K → ℕ) (batch_size roots : ℕ) (slot : ℕ → ℕ) → ActsPreserveTheirs V same hash batch_size roots slot }
    ensures left { (same : K → K → Bool) (hash : S → K → ℕ) (batch_size roots : ℕ) (slot : ℕ → ℕ) → ActsLeaveIt V same hash batch_size roots slot }
    ensures lists { (same : K → K → Bool) (hash : S → K → ℕ) (batch_size roots : ℕ) (slot : ℕ → ℕ) (course : Course V same hash batch_size roots slot) → ListsPreserveTheirs V same hash batch_size roots slot course }
    ensures begins { (same : K → K → Bool) (hash : S → K → ℕ) (batch_size roots : ℕ) (slot : ℕ → ℕ) (course : Course V same hash batch_size roots slot) → ReclaimingBeginsThere V same hash batch_size roots slot course }
    ensures ends { (same : K → K → Bool) (hash : S → K → ℕ) (batch_size roots : ℕ) (slot : ℕ → ℕ) (i : ℕ) → ReclaimingTerminates V same hash batch_size roots slot i }
    ensures waits { (same : K → K → Bool) (hash : S → K → ℕ) (batch_size roots : ℕ) (slot : ℕ → ℕ) (course : Course V same hash batch_size roots slot) → OnlyPairsWaitThere V same hash batch_size roots slot course }
    ensures all { (same : K → K → Bool) (hash : S → K → ℕ) (batch_size roots : ℕ) (slot : ℕ → ℕ) (course : Course V same hash batch_size roots slot) → AllCanBeReclaimedThere V same hash batch_size roots slot course }
    ensures by_lists { (same : K → K → Bool) (hash : S → K → ℕ) (batch_size roots : ℕ) (slot : ℕ → ℕ) (course : Course V same hash batch_size roots slot) → ListsReclaimAll V same hash batch_size roots slot course }
    ensures after { (same : K → K → Bool) (hash : S → K → ℕ) (batch_size roots : ℕ) (slot : ℕ → ℕ) (course : Course V same hash batch_size roots slot) → OnlyPairsAreDeferred V same hash batch_size roots slot course }
{}

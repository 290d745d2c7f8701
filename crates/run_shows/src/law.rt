//! What is promised of a caller that reclaims all.
ghost use Rattle.std.specs.Prelude.{ℕ, Bool, Option};
ghost use Rattle.seize.specs.World.{World};
ghost use Rattle.run_effects.specs.Given.TablesDeclared.node.Node.{Node};
ghost use Rattle.many_maps.specs.Given.CallersTogether.{UnderWay};
ghost use Rattle.many_maps.specs.Endings.{Finishing};
ghost use Rattle.many_maps.specs.Makings.{Beginning};
ghost use Rattle.many_maps.specs.Maps.{Standing};
ghost use Rattle.run_shows.specs.Reclaims.Left.{NothingIsLeft, LeftIsLeftBehind, MachinesLeaveIt, GuardsLeaveIt, MakingsBeginAndLeaveIt, MakingsLeaveIt, EndingsBeginAndLeaveIt, EndingsLeaveIt};
ghost use Rattle.run_shows.specs.Reclaims.Reclaims.{ReclaimingBegins, ReclaimingStands, WaitsOnTables};
ghost use Rattle.run_shows.specs.Reclaims.Ends.{ReclaimingEnds};

/// Where maps stand together on one collector, and no call, making, end or row is under way, any caller may reclaim all, step by step. It may take each
/// step, whatever the memory answers, and never waits. Its work on slots is one row after another, as any caller may make them between calls: slots that
/// were given up are taken again, those that are active leave, all flush until none has a batch, and all are given up. Then it takes what maps have left
/// behind their roots that have ended, root by root, and frees these. A step takes one block away at most, which was retired or was left over, and
/// hands its value out. Each map that stands does so on, with its tables and pairs as they were. At the end nothing is retired, no slot is in use, none
/// has a batch, and each root that is no standing map's is free and leads nowhere. What is put behind a linked table of a map that stands is a pair of that
/// map then, deferred in a resize that is unfinished; and if users have no other block behind which something may be put, then nothing else waits. Whichever
/// steps it takes, it comes to that end.
pub fn all_is_reclaimed_among_maps<K, V, Q>()
    ensures begins { (same : K → K → Bool) (asks : Q → K → Bool) (batch_size roots : ℕ) (slot : ℕ → ℕ) (maps : ℕ → Option (Standing K)) (calls : ℕ → ℕ → Option (UnderWay K V Q)) (makers : ℕ → Option (Beginning K)) (enders : ℕ → Option (Finishing K V)) (w : World (Node K V)) (i : ℕ) → ReclaimingBegins V same asks batch_size roots slot maps calls makers enders w i }
    ensures steps { (same : K → K → Bool) (asks : Q → K → Bool) (batch_size roots : ℕ) (slot : ℕ → ℕ) (maps : ℕ → Option (Standing K)) (calls : ℕ → ℕ → Option (UnderWay K V Q)) (makers : ℕ → Option (Beginning K)) (enders : ℕ → Option (Finishing K V)) (w : World (Node K V)) (i : ℕ) → ReclaimingStands V same asks batch_size roots slot maps calls makers enders w i }
    ensures ends { (same : K → K → Bool) (asks : Q → K → Bool) (batch_size roots : ℕ) (slot : ℕ → ℕ) (maps : ℕ → Option (Standing K)) (calls : ℕ → ℕ → Option (UnderWay K V Q)) (makers : ℕ → Option (Beginning K)) (enders : ℕ → Option (Finishing K V)) (w : World (Node K V)) (i : ℕ) → ReclaimingEnds V same asks batch_size roots slot maps calls makers enders w i }
    ensures waits { WaitsOnTables K V }
{}

/// What maps have left behind their roots that have ended stays there while others go on, until a caller reclaims all: over each step of the machine that a
/// caller has under way on a map that stands, over each row between calls, and while maps are made and end. A map that has ended leaves what waits behind
/// its root, and those that are made take roots that are free. Where no map is made, and none ends, it is what a caller that reclaims all finds behind the
/// roots, and what it leaves there.
pub fn what_is_left_stays<K, V, Q>()
    ensures starts { NothingIsLeft K V }
    ensures behind { LeftIsLeftBehind K V }
    ensures machines { (same : K → K → Bool) (asks : Q → K → Bool) (batch_size roots : ℕ) (slot : ℕ → ℕ) (w : World (Node K V)) (maps : ℕ → Option (Standing K)) (calls : ℕ → ℕ → Option (UnderWay K V Q)) (makers : ℕ → Option (Beginning K)) (enders : ℕ → Option (Finishing K V)) → MachinesLeaveIt V same asks batch_size roots slot w maps calls makers enders }
    ensures guards { (same : K → K → Bool) (asks : Q → K → Bool) (batch_size roots : ℕ) (slot : ℕ → ℕ) (w : World (Node K V)) (maps : ℕ → Option (Standing K)) (calls : ℕ → ℕ → Option (UnderWay K V Q)) (makers : ℕ → Option (Beginning K)) (enders : ℕ → Option (Finishing K V)) → GuardsLeaveIt V same asks batch_size roots slot w maps calls makers enders }
    ensures makings_begin { (same : K → K → Bool) (asks : Q → K → Bool) (batch_size roots : ℕ) (slot : ℕ → ℕ) (w : World (Node K V)) (maps : ℕ → Option (Standing K)) (calls : ℕ → ℕ → Option (UnderWay K V Q)) (makers : ℕ → Option (Beginning K)) (enders : ℕ → Option (Finishing K V)) → MakingsBeginAndLeaveIt V same asks batch_size roots slot w maps calls makers enders }
    ensures makings { (same : K → K → Bool) (asks : Q → K → Bool) (batch_size roots : ℕ) (slot : ℕ → ℕ) (w : World (Node K V)) (maps : ℕ → Option (Standing K)) (calls : ℕ → ℕ → Option (UnderWay K V Q)) (makers : ℕ → Option (Beginning K)) (enders : ℕ → Option (Finishing K V)) → MakingsLeaveIt V same asks batch_size roots slot w maps calls makers enders }
    ensures endings_begin { (same : K → K → Bool) (asks : Q → K → Bool) (batch_size roots : ℕ) (slot : ℕ → ℕ) (w : World (Node K V)) (maps : ℕ → Option (Standing K)) (calls : ℕ → ℕ → Option (UnderWay K V Q)) (makers : ℕ → Option (Beginning K)) (enders : ℕ → Option (Finishing K V)) → EndingsBeginAndLeaveIt V same asks batch_size roots slot w maps calls makers enders }
    ensures endings { (same : K → K → Bool) (asks : Q → K → Bool) (batch_size roots : ℕ) (slot : ℕ → ℕ) (w : World (Node K V)) (maps : ℕ → Option (Standing K)) (calls : ℕ → ℕ → Option (UnderWay K V Q)) (makers : ℕ → Option (Beginning K)) (enders : ℕ → Option (Finishing K V)) → EndingsLeaveIt V same asks batch_size roots slot w maps calls makers enders }
{}

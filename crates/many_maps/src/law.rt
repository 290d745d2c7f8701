//! What is promised of calls on several maps, and of maps that are made and end meanwhile.
ghost use Rattle.std.specs.Prelude.{ℕ, Bool, Option};
ghost use Rattle.many_calls.specs.Given.SeizeWorld.{World};
ghost use Rattle.many_calls.specs.Given.TablesDeclared.node.Node.{Node};
ghost use Rattle.many_calls.specs.Together.{UnderWay};
ghost use Rattle.many_maps.specs.Makings.{Beginning, NoMakingsBegin, MakingsBegin, MakingsStand, CallsBeginWithMakings, CallsPreserveWithMakings, RepliesPreserveWithMakings, RowsPreserveWithMakings, GuardsPreserveWithMakings};
ghost use Rattle.many_maps.specs.Owners.{OwnEndingsBegin, OwnEndingsStand};
ghost use Rattle.many_maps.specs.Maps.{Standing, NoMapsBegin, MapsCome, CallsBeginInMaps, CallsStandInMaps, RepliesStandInMaps, RowsStandInMaps, GuardsStandInMaps};
ghost use Rattle.many_maps.specs.Choices.{ChoicesPreserveTheInvariant};
ghost use Rattle.many_maps.specs.Countings.{CountingsBeginWithEndings, CountingsPreserveWithEndings};
ghost use Rattle.many_maps.specs.Endings.{Finishing, NoEndingsBegin, EndingsBegin, EndingsStand, CallsBeginWithEndings, CallsPreserveWithEndings, RepliesPreserveWithEndings, RowsPreserveWithEndings, GuardsPreserveWithEndings, MakingsBeginWithEndings, MakingsPreserveWithEndings};
ghost use Rattle.many_maps.specs.Machines.{MachinesPreserveWithEndings, MachinesRepliedWithEndings};
ghost use Rattle.many_maps.specs.Rooms.{RoomsBeginWithEndings, RoomsPreserveWithEndings, RoomRowsPreserveWithEndings};
ghost use Rattle.many_maps.specs.Sweeps.{SweepsBeginWithEndings, SweepsPreserveWithEndings, SweepsRepliedWithEndings, SweepRowsPreserveWithEndings, WalksStopWithEndings};

/// Maps end meanwhile. Any number of callers that have no call and make no map end maps of the same collector, each one at most, on which nobody has
/// a call, and take their steps in any order among those of calls, rows and makings. From the first moment on the map does not stand, and its pairs
/// are to be reclaimed, each once. Whoever takes a step of an end may take it, and it never waits. It takes one block away at most, which it hands
/// out: the pairs of the map, its tables and its counter, in an order that the map's tables say. What lies behind a table, since a section may hold it,
/// is left over, and waits behind the map's root; none of it is taken away. At the end all that was to be was reclaimed, each block once, and the root
/// leads to just what waits, or is free. Each map that stands goes on standing, with all that its callers know, and so does each making and each
/// other end. Calls, replies to those that ask, rows and makings do what they do without ends (`maps_are_made`), and leave each end what it has.
pub fn maps_end_meanwhile<K, V, Q>()
    ensures starts { (same : K → K → Bool) (asks : Q → K → Bool) (batch_size : ℕ) (roots : ℕ) (slot : ℕ → ℕ) → NoEndingsBegin {Q = Q} V same asks batch_size roots slot }
    ensures begins { (same : K → K → Bool) (asks : Q → K → Bool) (batch_size : ℕ) (roots : ℕ) (slot : ℕ → ℕ) → EndingsBegin {Q = Q} V same asks batch_size roots slot }
    ensures steps { (same : K → K → Bool) (asks : Q → K → Bool) (batch_size : ℕ) (roots : ℕ) (slot : ℕ → ℕ) → EndingsStand {Q = Q} V same asks batch_size roots slot }
    ensures calls_begin { (same : K → K → Bool) (asks : Q → K → Bool) (batch_size : ℕ) (roots : ℕ) (slot : ℕ → ℕ) → CallsBeginWithEndings V same asks batch_size roots slot }
    ensures calls_step { (same : K → K → Bool) (asks : Q → K → Bool) (batch_size : ℕ) (roots : ℕ) (slot : ℕ → ℕ) → CallsPreserveWithEndings V same asks batch_size roots slot }
    ensures replies { (same : K → K → Bool) (asks : Q → K → Bool) (batch_size : ℕ) (roots : ℕ) (slot : ℕ → ℕ) → RepliesPreserveWithEndings V same asks batch_size roots slot }
    ensures rows { (same : K → K → Bool) (asks : Q → K → Bool) (batch_size : ℕ) (roots : ℕ) (slot : ℕ → ℕ) → RowsPreserveWithEndings V same asks batch_size roots slot }
    ensures guards { (same : K → K → Bool) (asks : Q → K → Bool) (batch_size : ℕ) (roots : ℕ) (slot : ℕ → ℕ) → GuardsPreserveWithEndings V same asks batch_size roots slot }
    ensures makings_begin { (same : K → K → Bool) (asks : Q → K → Bool) (batch_size : ℕ) (roots : ℕ) (slot : ℕ → ℕ) → MakingsBeginWithEndings {Q = Q} V same asks batch_size roots slot }
    ensures makings_step { (same : K → K → Bool) (asks : Q → K → Bool) (batch_size : ℕ) (roots : ℕ) (slot : ℕ → ℕ) → MakingsPreserveWithEndings {Q = Q} V same asks batch_size roots slot }
{}

/// And the number of the next block may be chosen at any moment: the invariant of all holds then as before.
pub fn choices_stand_among<K, V, Q>()
    ensures stands { (same : K → K → Bool) (asks : Q → K → Bool) (batch_size : ℕ) (roots : ℕ) (slot : ℕ → ℕ) → ChoicesPreserveTheInvariant V same asks batch_size roots slot }
{}

/// A map that owns its collector ends, where it is the only one that stands, nothing else is under way, and nobody is inside of a slot. Whoever ends it may
/// take each step of that, while nobody else takes one, and it never waits. A step takes one block away at most, which it hands out: the map's pairs, then
/// table by table what that carried and the table, and its counter, in an order that the map's tables say. At the end all of that was reclaimed, each block
/// once, its root is free, and maps may be made again.
pub fn maps_end_with_their_collector<K, V, Q>()
    ensures begins { (same : K → K → Bool) (asks : Q → K → Bool) (batch_size : ℕ) (roots : ℕ) (slot : ℕ → ℕ) (maps : ℕ → Option (Standing K)) (calls : ℕ → ℕ → Option (UnderWay K V Q)) (makers : ℕ → Option (Beginning K)) (enders : ℕ → Option (Finishing K V)) (w : World (Node K V)) (i : ℕ) → OwnEndingsBegin V same asks batch_size roots slot maps calls makers enders w i }
    ensures steps { (same : K → K → Bool) (asks : Q → K → Bool) (batch_size : ℕ) (roots : ℕ) (slot : ℕ → ℕ) (maps : ℕ → Option (Standing K)) (calls : ℕ → ℕ → Option (UnderWay K V Q)) (makers : ℕ → Option (Beginning K)) (enders : ℕ → Option (Finishing K V)) (w : World (Node K V)) (i : ℕ) → OwnEndingsStand V same asks batch_size roots slot maps calls makers enders w i }
{}

/// Reservations stand among all of these. A caller that has no call, makes no map and ends none may begin one on a map that stands, within its section.
/// Whichever caller takes the next step of its reservation may take it, that of a row of the collector within it, too. In its map it does what it does
/// where that is the only one (`reservations_stand_together`), and all calls, makings and ends go on as they were.
pub fn reservations_stand_among<K, V, Q>()
    ensures begins { (same : K → K → Bool) (asks : Q → K → Bool) (batch_size : ℕ) (roots : ℕ) (slot : ℕ → ℕ) → RoomsBeginWithEndings V same asks batch_size roots slot }
    ensures steps { (same : K → K → Bool) (asks : Q → K → Bool) (batch_size : ℕ) (roots : ℕ) (slot : ℕ → ℕ) → RoomsPreserveWithEndings V same asks batch_size roots slot }
    ensures rows { (same : K → K → Bool) (asks : Q → K → Bool) (batch_size : ℕ) (roots : ℕ) (slot : ℕ → ℕ) → RoomRowsPreserveWithEndings V same asks batch_size roots slot }
{}

/// And so do countings of the pairs of maps (`countings_stand_together`): their steps change nothing.
pub fn countings_stand_among<K, V, Q>()
    ensures begins { (same : K → K → Bool) (asks : Q → K → Bool) (batch_size : ℕ) (roots : ℕ) (slot : ℕ → ℕ) → CountingsBeginWithEndings V same asks batch_size roots slot }
    ensures steps { (same : K → K → Bool) (asks : Q → K → Bool) (batch_size : ℕ) (roots : ℕ) (slot : ℕ → ℕ) → CountingsPreserveWithEndings V same asks batch_size roots slot }
{}

/// And so do walks, clearings and retainings of maps. A caller that has no call, makes no map and ends none may begin one over a map that stands, within its
/// section, may take each of its steps, that of a row of the collector within it, too, and may ask it for the next pair, or tell it whether to keep one, at
/// any later moment. In its map it does what it does where that is the only one (`sweeps_stand_together`), and all calls, makings and ends go on as they
/// were.
pub fn sweeps_stand_among<K, V, Q>()
    ensures begins { (same : K → K → Bool) (asks : Q → K → Bool) (batch_size : ℕ) (roots : ℕ) (slot : ℕ → ℕ) → SweepsBeginWithEndings V same asks batch_size roots slot }
    ensures steps { (same : K → K → Bool) (asks : Q → K → Bool) (batch_size : ℕ) (roots : ℕ) (slot : ℕ → ℕ) → SweepsPreserveWithEndings V same asks batch_size roots slot }
    ensures told { (same : K → K → Bool) (asks : Q → K → Bool) (batch_size : ℕ) (roots : ℕ) (slot : ℕ → ℕ) → SweepsRepliedWithEndings V same asks batch_size roots slot }
    ensures rows { (same : K → K → Bool) (asks : Q → K → Bool) (batch_size : ℕ) (roots : ℕ) (slot : ℕ → ℕ) → SweepRowsPreserveWithEndings V same asks batch_size roots slot }
    ensures stops { (same : K → K → Bool) (asks : Q → K → Bool) (batch_size : ℕ) (roots : ℕ) (slot : ℕ → ℕ) → WalksStopWithEndings V same asks batch_size roots slot }
{}

/// One law for all kinds. Whichever caller takes the next step of the machine that it has under way on a map, be that a call on one key, a reservation, a
/// counting or a sweep, or a row of the collector within it, it may take it. The map stands on, with its history, the others as they were, and all calls,
/// makings and ends with them; the caller has the machine under way that the step has left, or none, if that has answered or was refused. What the step did is
/// what the law of its kind says, and led there. No row of another caller has gone on. And whatever it is told at any moment, or if it is asked for the next
/// pair, the invariant of all holds then: a call that asks goes on by that, with what it was told, and one that takes no reply goes on as it was.
pub fn machines_stand_among<K, V, Q>()
    ensures steps { (same : K → K → Bool) (asks : Q → K → Bool) (batch_size : ℕ) (roots : ℕ) (slot : ℕ → ℕ) → MachinesPreserveWithEndings V same asks batch_size roots slot }
    ensures told { (same : K → K → Bool) (asks : Q → K → Bool) (batch_size : ℕ) (roots : ℕ) (slot : ℕ → ℕ) → MachinesRepliedWithEndings V same asks batch_size roots slot }
{}

/// So do the calls on any number of maps on one collector. Any number of callers have calls under way, each one at most, on whichever map, and
/// take their steps in any order. A step of a call on one map does there what it does where that is the only one (`calls_stand_together`), and
/// leaves each other map standing: its tables and pairs are as they were, and its callers know of their calls what they knew. So does each step of
/// a row, within a call or between calls. A call that asks, on whichever map, may be told what to do at any moment: each map is as it was then, and
/// stands with that call and with all others. A map that has no table yet may come at any moment, with a root and a counter of its own.
pub fn maps_stand_together<K, V, Q>()
    ensures starts { (same : K → K → Bool) (asks : Q → K → Bool) (batch_size : ℕ) (slot : ℕ → ℕ) → NoMapsBegin V same asks batch_size slot }
    ensures comes { (same : K → K → Bool) (asks : Q → K → Bool) (batch_size : ℕ) (slot : ℕ → ℕ) → MapsCome V same asks batch_size slot }
    ensures begins { (same : K → K → Bool) (asks : Q → K → Bool) (batch_size : ℕ) (slot : ℕ → ℕ) → CallsBeginInMaps V same asks batch_size slot }
    ensures steps { (same : K → K → Bool) (asks : Q → K → Bool) (batch_size : ℕ) (slot : ℕ → ℕ) → CallsStandInMaps V same asks batch_size slot }
    ensures replies { (same : K → K → Bool) (asks : Q → K → Bool) (batch_size : ℕ) (slot : ℕ → ℕ) → RepliesStandInMaps V same asks batch_size slot }
    ensures rows { (same : K → K → Bool) (asks : Q → K → Bool) (batch_size : ℕ) (slot : ℕ → ℕ) → RowsStandInMaps V same asks batch_size slot }
    ensures guards { (same : K → K → Bool) (asks : Q → K → Bool) (batch_size : ℕ) (slot : ℕ → ℕ) → GuardsStandInMaps V same asks batch_size slot }
{}

/// Maps are made meanwhile. Any number of callers that have no call make maps on the same collector, each one at most, and take their steps in any
/// order among those of calls and rows. Whoever takes a step of a making may take it, and it never waits. The making takes a root that is no map's and
/// no other making's, and makes a counter and a first table of its own; each map that stands goes on standing, with all that its callers know, and so
/// does each other making. As it answers, its map stands at its root, with a first table of the length asked for, or with none if none was, and calls
/// may begin on it. One that is refused leaves no map, its counter is taken away, and its root is free again, if it had them. Calls on maps that stand,
/// rows, and replies to calls that ask, do what they do without makings (`maps_stand_together`), and leave each making what it has. A root that is
/// free leads nowhere.
pub fn maps_are_made<K, V, Q>()
    ensures starts { (same : K → K → Bool) (asks : Q → K → Bool) (batch_size : ℕ) (roots : ℕ) (slot : ℕ → ℕ) → NoMakingsBegin {Q = Q} V same asks batch_size roots slot }
    ensures begins { (same : K → K → Bool) (asks : Q → K → Bool) (batch_size : ℕ) (roots : ℕ) (slot : ℕ → ℕ) → MakingsBegin {Q = Q} V same asks batch_size roots slot }
    ensures steps { (same : K → K → Bool) (asks : Q → K → Bool) (batch_size : ℕ) (roots : ℕ) (slot : ℕ → ℕ) → MakingsStand {Q = Q} V same asks batch_size roots slot }
    ensures calls_begin { (same : K → K → Bool) (asks : Q → K → Bool) (batch_size : ℕ) (roots : ℕ) (slot : ℕ → ℕ) → CallsBeginWithMakings V same asks batch_size roots slot }
    ensures calls_step { (same : K → K → Bool) (asks : Q → K → Bool) (batch_size : ℕ) (roots : ℕ) (slot : ℕ → ℕ) → CallsPreserveWithMakings V same asks batch_size roots slot }
    ensures replies { (same : K → K → Bool) (asks : Q → K → Bool) (batch_size : ℕ) (roots : ℕ) (slot : ℕ → ℕ) → RepliesPreserveWithMakings V same asks batch_size roots slot }
    ensures rows { (same : K → K → Bool) (asks : Q → K → Bool) (batch_size : ℕ) (roots : ℕ) (slot : ℕ → ℕ) → RowsPreserveWithMakings V same asks batch_size roots slot }
    ensures guards { (same : K → K → Bool) (asks : Q → K → Bool) (batch_size : ℕ) (roots : ℕ) (slot : ℕ → ℕ) → GuardsPreserveWithMakings V same asks batch_size roots slot }
{}

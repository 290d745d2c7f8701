//! What is promised of how many pairs maps have, and of where all pairs of a run are.
ghost use Rattle.run_sweeps.specs.Sizes.Once.{RunsHaveEachOnce};
ghost use Rattle.run_sweeps.specs.Sizes.Sizes.{LensTellSize, ShardsSaySize, WholeLensTellSize};

/// The shards of each map, with what calls have added to it, and taken out, and not yet counted, say how many pairs it has, after whichever events of a run.
/// So a `len` tells how many pairs its map has, where that was the same at each moment of the call, and calls had counted all that they had added and taken
/// out: a whole one does of a map on which nobody has a call.
pub fn shards_say_the_size<K, V>()
    ensures sizes { ShardsSaySize K V }
    ensures lens { LensTellSize K V }
    ensures whole { WholeLensTellSize K V }
{}

/// Each pair that a run has stored stands once among those that it gave back and those that it has kept, and nothing else stands there.
pub fn runs_have_each_pair_once<K, V>()
    ensures once { RunsHaveEachOnce K V }
{}

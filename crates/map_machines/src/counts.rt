//! How a call counts what it has changed.
ghost use Rattle.std.specs.Prelude.{ℕ};
ghost use Rattle.map_tables.specs.Counts.{count_change, shard_of};
ghost use Rattle.map_tables.specs.Given.SeizeWordsOp.{Add, Found};

use map_tables::named::{At, Memory};
use map_tables::{Counter, Setting};

/// Counts a change of the map in the shard of the slot: one pair less where one was removed, or one more where `removed` is 0.
pub fn count<T, M: Memory<T>>(setting: Setting, memory: &mut M, removed: u64)
    requires { M.can memory.old (Add (shard_of setting) (count_change removed)) }
    ensures { (found : ℕ) × M.took memory.old (Add (shard_of setting) (count_change removed)) (Found found) memory.new }
{
    let counter = Counter { mask: setting.mask };
    let shard = At::Word(setting.counter, counter.get(setting.slot));
    memory.add(shard, if removed == 0 { 1 } else { u64::MAX });
}

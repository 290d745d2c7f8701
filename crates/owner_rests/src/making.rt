//! How a map is made in a memory in which nothing else has happened.
ghost use Rattle.std.specs.Prelude.{◌≡◌, ℕ, max, [], IfOk, IfErr, OnOk, None, Some};
ghost use Rattle.std.specs.Int.{IsPowerOfTwo};
ghost use Rattle.seize_words.specs.OneMemory.Mem.{value_at, word_at};
ghost use Rattle.seize_words.specs.declared.at.At.TheVariants.{Root, Used};
ghost use Rattle.seize_words.specs.declared.fault.Fault.TheVariants.{Capacity, Memory};
ghost use Rattle.seize.specs.World.{IsInside};
ghost use Rattle.owner_calls.specs.Given.SeizeAloneAlone.{History, IsHistory};
ghost use Rattle.map_tables.specs.Lengths.{IsTableLen};
ghost use Rattle.map_tables.specs.Nodes.{deferred_word};
ghost use Rattle.owner_calls.specs.Holds.Held.{held_in};
ghost use Rattle.owner_calls.specs.Owned.Owned.{Holds, hashed_by};
ghost use Rattle.owner_calls.specs.Owned.Rooms.{AreTooMany, RepresentTables, tables_for, tables_with};

use map_tables::{Node, ResizeMode, Setting, entries_for};
use owner_calls::run;
use papaya_raw::machines::NewMap;
use seize_words::{Fault, Plain};
use std::hash::{BuildHasher, Hash};

/// How many places a call that changes the map copies at most, while it is copied into a longer table.
const CHUNK: u64 = 64;

/// From this length on a batch of pairs and tables that are out of the map is tried.
const BATCH_SIZE: u64 = 32;

/// Returns the places of the first table for so many pairs, 0 for no table. The only fault is `Fault::Capacity`, just where they are too many.
pub fn places_for(capacity: u64) -> Result<u64, Fault>
    ensures initial { IfOk result (λ places. IsPowerOfTwo (max places 1)) }
    ensures table { IfOk result (λ places. IsTableLen (max places 8)) }
    ensures few { OnOk result (AreTooMany capacity → ⊥) }
    ensures made { IfOk result (λ places. tables_with places ≡ tables_for capacity) }
    ensures fault { IfErr result (λ fault. (fault ≡ Capacity) × AreTooMany capacity) }
{
    let entries = entries_for(capacity)?;
    Ok(if capacity == 0 { 0 } else { entries })
}

/// Makes the map, where nothing else has happened but that the owner's slot was taken. The only fault is `Fault::Memory`.
pub fn begin<K: Eq + Hash + Drop, V: Drop, S: BuildHasher>(
    memory: &mut Plain<Node<K, V>>,
    slot: u64,
    places: u64,
    _hasher: &S,
) -> Result<Setting, Fault>
    requires history { (h : History) × IsHistory deferred_word 32 1 memory.old h × IsInside (h.uses slot) }
    requires root { word_at memory.old (Root 0) ≡ Some 0 }
    requires used { word_at memory.old (Used 0) ≡ Some 0 }
    requires initial { IsPowerOfTwo (max places 1) }
    requires table { IsTableLen (max places 8) }
    ensures held { IfOk result (λ setting. Holds K.eq (hashed_by S.Hasher.finish S.Hasher.write S.build_hasher K.hash_input _hasher.now) setting memory.new []) }
    ensures tables { IfOk result (λ setting. RepresentTables setting memory.new (tables_with places)) }
    ensures fault { IfErr result (λ fault. fault ≡ Memory) }
    ensures bare { ((b : ℕ) → value_at memory.old b ≡ None) → held_in memory.new ≡ [] }
{
    let setting = Setting {
        slot,
        batch_size: BATCH_SIZE,
        root: 0,
        mode: ResizeMode::Incremental(CHUNK),
        counter: 0,
        mask: 0,
        initial: places.max(1),
    };
    let mut opening = NewMap::new(setting, 1, places);
    run(&mut opening, memory)
}

//! Room for further pairs, after a refresh.
ghost use Rattle.std.specs.Prelude.{◌≡◌, Err, List, [], length, IfErr, OnOk};
ghost use Rattle.owner_calls.specs.Given.LateFaults.{IsRoom};
ghost use Rattle.owner_calls.specs.Holds.Held.{HoldsOn, held_in};
ghost use Rattle.owner_calls.specs.Owned.Owned.{Holds, hashed_by};
ghost use Rattle.owner_calls.specs.Owned.Rooms.{CannotMakeRoom, HasRoomFor, NeedTooMany};
ghost use Rattle.owner_calls.specs.Given.StridesEnding.{HasCome};
ghost use Rattle.papaya_raw.specs.Given.ReservesReserve.{reserving};
ghost use Rattle.owner_calls.specs.Owned.Machines.{for_room_plan};
ghost use Rattle.owner_rests.specs.Rests.Refreshed.{OnceRefreshed};
ghost use Rattle.seize_words.specs.declared.fault.Fault.TheVariants.{Capacity};

use crate::changes::refresh;
use map_tables::{Node, Setting};
use owner_calls::make_room;
use seize_words::{Fault, Plain};
use std::hash::{BuildHasher, Hash};

/// Makes room for so many further pairs, after a refresh. Where they need more places than a table can have, it is refused by `Fault::Capacity`.
pub fn reserve<K: Eq + Hash + Drop, V: Drop, S: BuildHasher>(
    memory: &mut Plain<Node<K, V>>,
    setting: Setting,
    hasher: &S,
    additional: u64,
) -> Result<(), Fault>
    requires { (xs : List (K × V)) × Holds K.eq (hashed_by S.Hasher.finish S.Hasher.write S.build_hasher K.hash_input hasher.now) setting memory.old xs }
    ensures holds { (xs : List (K × V)) → Holds K.eq (hashed_by S.Hasher.finish S.Hasher.write S.build_hasher K.hash_input hasher.now) setting memory.old xs
        → Holds K.eq (hashed_by S.Hasher.finish S.Hasher.write S.build_hasher K.hash_input hasher.now) setting memory.new xs }
    ensures room { (xs : List (K × V)) → Holds K.eq (hashed_by S.Hasher.finish S.Hasher.write S.build_hasher K.hash_input hasher.now) setting memory.old xs
        → OnOk result (HasRoomFor setting memory.new additional (length xs)) }
    ensures fault { IfErr result IsRoom }
    ensures capacity { (xs : List (K × V)) → Holds K.eq (hashed_by S.Hasher.finish S.Hasher.write S.build_hasher K.hash_input hasher.now) setting memory.old xs
        → IfErr result (λ fault. fault ≡ Capacity → CannotMakeRoom setting memory.new additional (length xs)) }
    ensures refused { (xs : List (K × V)) → Holds K.eq (hashed_by S.Hasher.finish S.Hasher.write S.build_hasher K.hash_input hasher.now) setting memory.old xs
        → NeedTooMany additional (length xs) → result ≡ Err Capacity }
    ensures ran { OnceRefreshed setting memory.old (λ m. HasCome (for_room_plan (hashed_by S.Hasher.finish S.Hasher.write S.build_hasher K.hash_input)) (record { reserve = reserving setting additional; hasher = hasher.entry }) m memory.new result) }
    ensures keeps { (xs : List (K × V)) → Holds K.eq (hashed_by S.Hasher.finish S.Hasher.write S.build_hasher K.hash_input hasher.now) setting memory.old xs
        → HoldsOn [] xs (held_in memory.old) (held_in memory.new) }
{
    refresh(memory, setting, hasher);
    make_room(memory, setting, hasher, additional)
}

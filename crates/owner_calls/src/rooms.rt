//! Room for further pairs in one owner's map: a reservation, run to its end.
ghost use Rattle.std.specs.Prelude.{◌≡◌, List, length, Err};
ghost use Rattle.owner_whole.specs.Strides.Ending.{HasCome};
ghost use Rattle.papaya_raw.specs.Given.ReservesReserve.{reserving};
ghost use Rattle.owner_calls.specs.Owned.Machines.{for_room_plan};
ghost use Rattle.owner_calls.specs.Owned.Owned.{Holds};
ghost use Rattle.owner_calls.specs.Owned.Rooms.{NeedTooMany, RoomBy};
ghost use Rattle.seize_words.specs.declared.fault.Fault.TheVariants.{Capacity};

use crate::machines::ForRoom;
use crate::running::run;
use map_tables::{Hashes, Node, Setting};
use papaya_raw::machines::Reserve;
use seize_words::{Fault, Plain};
use std::hash::Hash;

/// Makes room for so many further pairs: the table of the root has as many places as they need, beside the pairs that are there. No pair changes.
/// The faults are `Fault::Capacity`, where that is too many, or the map has had too many tables, and `Fault::Memory`. Where that is too many, it is
/// refused so before a growth that is under way is seen through.
pub fn make_room<K: Eq + Hash + Drop, V: Drop, S: Hashes<K>>(
    memory: &mut Plain<Node<K, V>>,
    setting: Setting,
    hasher: &S,
    additional: u64,
) -> Result<(), Fault>
    requires { (xs : List (K × V)) × Holds K.eq (S.hash hasher.now) setting memory.old xs }
    ensures room { (xs : List (K × V)) → Holds K.eq (S.hash hasher.now) setting memory.old xs → RoomBy K.eq (S.hash hasher.now) setting additional memory.new xs result }
    ensures refused { (xs : List (K × V)) → Holds K.eq (S.hash hasher.now) setting memory.old xs → NeedTooMany additional (length xs) → result ≡ Err Capacity }
    ensures ran { HasCome (for_room_plan S.hash) (record { reserve = reserving setting additional; hasher = hasher.entry }) memory.old memory.new result }
{
    let reserve = Reserve::new(setting, additional);
    let mut machine = ForRoom { reserve, hasher };
    run(&mut machine, memory)
}

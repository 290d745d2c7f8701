//! Sets of numbers are made, and changed, and changed again where that was refused.

use crate::maps::{Hashing, NO_CALL};
use crate::rows::Row;
use papaya_seq::{Fault, HashSet};
use std::alloc::Global;

type Numbers = HashSet<u64, Hashing>;

const ELEMENTS: [u64; 8] = [0, 1, 2, 3, 4, 5, 6, 7];

/// Whether a set has the elements from 0 to 7.
fn is_filled(set: &Numbers) -> bool {
    for element in 0..8 {
        if !set.contains(&element) {
            return false;
        }
    }
    set.len() == 8
}

/// Whether it is as a row says.
fn is_as(set: &Numbers, row: Row) -> bool {
    set.len() == row.len && set.get(&3).copied() == row.three && set.get(&8).copied() == row.eight
}

fn made(alloc: Global, call: &str, original: &Numbers) -> Result<Numbers, Fault> {
    match call {
        "new" => Numbers::new(alloc),
        "with_capacity" => Numbers::with_capacity(alloc, 100),
        "with_hasher" => Numbers::with_hasher(alloc, Hashing::default()),
        "with_capacity_and_hasher" => {
            Numbers::with_capacity_and_hasher(alloc, 100, Hashing::default())
        }
        "try_collect" => Numbers::try_collect(alloc, 0..8),
        "from_array" => Numbers::from_array(alloc, ELEMENTS.as_slice()),
        "clone" => original.clone(alloc),
        _ => Err(NO_CALL),
    }
}

/// Whether a set that is made is as its row says.
fn is_made(alloc: Global, original: &Numbers, row: Row) -> Result<bool, Fault> {
    let set = made(alloc, row.call, original)?;
    Ok(is_as(&set, row))
}

fn changed(set: &mut Numbers, call: &str, element: u64) -> Result<(), Fault> {
    match call {
        "insert" => {
            set.insert(element)?;
            Ok(())
        }
        "remove" => {
            set.remove(&element)?;
            Ok(())
        }
        "reserve" => set.reserve(1000),
        "extend" => Ok(set.extend(8..9)?),
        "retain" => set.retain(|element| *element % 2 == 0),
        "clear" => set.clear(),
        _ => Err(NO_CALL),
    }
}

/// Whether a change is made at once, or was refused for want of memory, with all elements as before, and is made then; and the set is then as its row says.
fn is_changed(set: &mut Numbers, row: Row) -> bool {
    let done = match changed(set, row.call, row.key) {
        Ok(()) => true,
        Err(Fault::Memory) => is_filled(set) && changed(set, row.call, row.key).is_ok(),
        Err(_) => false,
    };
    done && is_as(set, row)
}

/// The call of a row, beside or on a set whose table has no place left: a further element needs a table.
fn on_filled(alloc: Global, set: &mut Numbers, row: Row) -> Result<bool, Fault> {
    set.extend(0..8)?;
    if row.on == "set" {
        Ok(is_changed(set, row))
    } else {
        is_made(alloc, set, row)
    }
}

/// Whether the call of a row goes so, or why the set is not filled.
pub(crate) fn goes_so(alloc: Global, row: Row) -> Result<bool, Fault> {
    let mut set = Numbers::with_capacity(alloc, 6)?;
    on_filled(alloc, &mut set, row)
}

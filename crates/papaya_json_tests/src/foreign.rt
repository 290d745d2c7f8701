//! A guard or a pass of another map is refused, by each call that takes one, and is as it was.
use crate::{Hashing, Map};
use papaya_json::{Fault, IdSource, Operation, Refused};
use std::alloc::Global;
use std::sync::Wait;

type Told<T> = Result<T, Fault>;

/// Tells whether a call was refused what is of another map.
fn is_foreign<T: Drop>(told: Told<T>) -> bool {
    matches!(told, Err(Fault::ForeignGuard))
}

/// Tells whether one that was to store 2 at 1 was refused so, and both have come back.
fn has_come_back<T: Drop>(told: Result<T, Refused<u64, u64>>) -> bool {
    match told {
        Err(back) => is_foreign::<()>(Err(back.fault)) && (back.key, back.value) == (1, 2),
        Ok(_) => false,
    }
}

/// Tells whether lookups refuse a guard and a pass of another map: with the guard, with the pass, and by the pass under a session.
pub(crate) fn looks<R: Wait>(rt: &R, alloc: Global) -> Told<bool> {
    let mut ids = IdSource::new();
    let own = Map::with_hasher(alloc, &mut ids, Hashing::default())?;
    let other = Map::with_hasher(alloc, &mut ids, Hashing::default())?;
    let map = own.shared();
    let guard = own.session()?;
    let strange = other.session()?;
    let (mut pass, mut foreign) = (map.pass(), strange.pass());
    let so = [
        is_foreign(map.get(rt, &1, &strange, &mut pass)),
        is_foreign(map.get(rt, &1, &guard, &mut foreign)),
        is_foreign(map.contains_key(rt, &1, &strange, &mut foreign)),
        is_foreign(guard.contains_key_by(rt, &1, &mut foreign)),
        is_foreign(guard.get_by(rt, &1, &mut foreign)),
        is_foreign(guard.get_key_value_by(rt, &1, &mut foreign)),
        is_foreign(map.get_key_value(rt, &1, &strange, &mut pass)),
        matches!(map.get(rt, &1, &guard, &mut pass), Ok(None)),
        guard.number() == map.number() && pass.number() != strange.number(),
    ];
    Ok(so == [true; 9])
}

/// Tells whether calls that change a map refuse a guard of another one, which has what it had then; and whether one with its own guard goes.
pub(crate) fn stores<R: Wait>(rt: &R, alloc: Global) -> Told<bool> {
    let mut ids = IdSource::new();
    let own = Map::with_hasher(alloc, &mut ids, Hashing::default())?;
    let other = Map::with_hasher(alloc, &mut ids, Hashing::default())?;
    let map = own.shared();
    let mut guard = own.session()?;
    let mut strange = other.session()?;
    let so = [
        has_come_back(map.insert(rt, 1, 2, &mut strange)),
        has_come_back(map.try_insert(rt, 1, 2, &mut strange)),
        is_foreign(map.remove(rt, &1, &mut strange)),
        is_foreign(map.try_insert_with(rt, 1, || 2, &mut strange)),
        is_foreign(map.remove_if(rt, &1, |_, _| true, &mut strange)),
        is_foreign(map.update(rt, &1, |value| *value, &mut strange)),
        is_foreign(map.update_or_insert(rt, &1, |value| *value, &2, &mut strange)),
        is_foreign(map.update_or_insert_with(rt, &1, |value| *value, || 2, &mut strange)),
        is_foreign(map.compute(rt, &1, |_| Operation::Insert::<u64, ()>(2), &mut strange)),
        !strange.contains_key(rt, &1),
        matches!(map.insert(rt, 1, 2, &mut guard), Ok(None)),
        matches!(map.remove(rt, &1, &mut guard), Ok(Some(_))),
    ];
    Ok(so == [true; 12])
}

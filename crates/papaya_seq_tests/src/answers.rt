//! Callers of changes whose answers lend: what each has of the answer, and what the map is then, follows with no proof of its own.
ghost use Rattle.std.specs.Prelude.{◌≡◌, ◌≤◌, ◌++◌, ◌∷◌, ◌+◌, ◌%◌, ◌^◌, [], None, Some, length, nat_eq, option_map, IfErr, IfOk, IfSome, MatchOption, OnErr, OnOk};
ghost use Rattle.std.specs.List.Sorted.{IsPermutation};
ghost use Rattle.papaya_seq.specs.Pairs.{found_by, left_by};

use papaya_seq::{Compute, Fault, HashMap, HashSet, Operation, Refused, RefusedKey};
use std::alloc::Global;

type Map = HashMap<u64, u64>;

/// Stores a pair, and answers the value that it replaced.
fn stores(map: &mut Map, key: u64, value: u64) -> Result<Option<u64>, Refused<u64, u64>>
    ensures was { IfOk result (λ was. was ≡ option_map (λ x. x.1) (found_by (nat_eq key) map.old.pairs)) }
    ensures stored { OnOk result (IsPermutation map.new.pairs (left_by (nat_eq key) map.old.pairs ++ ((key, value) ∷ []))) }
    ensures refused { OnErr result (IsPermutation map.new.pairs map.old.pairs) }
    ensures back { IfErr result (λ r. (r.key ≡ key) × (r.value ≡ value)) }
{
    let stored = map.insert(key, value)?;
    Ok(stored.value().copied())
}

/// Stores a pair, if its key is not there, and else answers the value that was not stored.
fn tries(map: &mut Map, key: u64, value: u64) -> Result<Option<u64>, Refused<u64, u64>>
    ensures back { IfOk result (λ back. IfSome back (λ it. (it ≡ value) × IsPermutation map.new.pairs map.old.pairs)) }
    ensures refused { OnErr result (IsPermutation map.new.pairs map.old.pairs) }
{
    match map.try_insert(key, value)? {
        Ok(_) => Ok(None),
        Err(mut there) => Ok(there.take_back()),
    }
}

/// The value of a key, at which this one is stored if it has none.
fn gets(map: &mut Map, key: u64, value: u64) -> Result<u64, Refused<u64, u64>>
    ensures got { IfOk result (λ got. MatchOption (found_by (nat_eq key) map.old.pairs) (got ≡ value) (λ x. got ≡ x.1)) }
    ensures refused { OnErr result (IsPermutation map.new.pairs map.old.pairs) }
{
    let got = map.get_or_insert(key, value)?;
    Ok(*got.value())
}

/// Adds one to the value of a key, and answers the new one, if the key is there.
fn adds(map: &mut Map, key: u64) -> Result<Option<u64>, RefusedKey<u64>>
    ensures done { IfOk result (λ new. MatchOption (found_by (nat_eq key) map.old.pairs) (new ≡ None) (λ x. new ≡ Some ((x.1 + 1) % 2 ^ 64))) }
    ensures refused { OnErr result (IsPermutation map.new.pairs map.old.pairs) }
    ensures back { IfErr result (λ r. r.key ≡ key) }
{
    let updated = map.update(key, |value| value.wrapping_add(1))?;
    Ok(updated.value().copied())
}

/// Counts the value of a key up to 2, then removes it; gives up at more. It answers the value that is shown, or 100 and what it gave up with. A key that is
/// not there begins with 0.
fn counts(map: &mut Map, key: u64) -> Result<u64, RefusedKey<u64>>
    ensures begun { IfOk result (λ shown. found_by (nat_eq key) map.old.pairs ≡ None → shown ≡ 0) }
    ensures refused { OnErr result (IsPermutation map.new.pairs map.old.pairs) }
{
    match map.compute(key, |there| -> Operation<u64, u64> {
        match there {
            None => Operation::Insert(0),
            Some((_, 2)) => Operation::Remove,
            Some((_, value)) if *value < 2 => Operation::Insert(*value + 1),
            Some((_, value)) => Operation::Abort(*value),
        }
    })? {
        Compute::Inserted(stored) => Ok(*stored.value()),
        Compute::Updated(updated) => Ok(updated.value().copied().unwrap_or(50)),
        Compute::Removed(removed) => Ok(*removed.value()),
        Compute::Aborted(mut aborted) => Ok(100u64.wrapping_add(aborted.take().unwrap_or(0))),
    }
}

/// Removes the pair of a key if its value is 1, and answers its value, be it gone or there.
fn removes(map: &mut Map, key: u64) -> Result<Option<u64>, Fault>
    ensures was { IfOk result (λ was. was ≡ option_map (λ x. x.1) (found_by (nat_eq key) map.old.pairs)) }
    ensures refused { OnErr result (IsPermutation map.new.pairs map.old.pairs) }
{
    match map.remove_if(&key, |_, value| *value == 1)? {
        Ok(was) => Ok(was.map(|(_, value)| *value)),
        Err((_, value)) => Ok(Some(*value)),
    }
}

/// Removes the pair of a key from a map with one table at most, which refuses no removal, and answers its value.
fn takes_out(map: &mut Map, key: u64) -> Option<u64>
    requires few { length map.old.tables ≤ 1 }
    ensures was { result ≡ option_map (λ x. x.1) (found_by (nat_eq key) map.old.pairs) }
{
    match map.remove(&key) {
        Ok(was) => was.copied(),
        Err(_) => unreachable!(),
    }
}

/// Removes all pairs of such a map.
fn empties(map: &mut Map)
    requires few { length map.old.tables ≤ 1 }
    ensures none { map.new.pairs ≡ [] }
{
    match map.clear() {
        Ok(()) => {}
        Err(_) => unreachable!(),
    }
}

/// Removes the pairs of two keys from such a map, one after the other, and answers their values. Then it has one table at most still.
fn takes_both_out(map: &mut Map, one: u64, other: u64) -> (Option<u64>, Option<u64>)
    requires few { length map.old.tables ≤ 1 }
    ensures first { result.0 ≡ option_map (λ x. x.1) (found_by (nat_eq one) map.old.pairs) }
    ensures few { length map.new.tables ≤ 1 }
{
    let first = map.remove(&one).unwrap().copied();
    let second = map.remove(&other).unwrap().copied();
    (first, second)
}

/// Removes all pairs of such a map, and then the pair of a key, of which there is none.
fn empties_and_takes_out(map: &mut Map, key: u64) -> Option<u64>
    requires few { length map.old.tables ≤ 1 }
    ensures none { result ≡ None }
{
    map.clear().unwrap();
    map.remove(&key).unwrap().copied()
}

/// The value of a key, if it is there.
fn value_of(map: &Map, key: u64) -> Option<u64>
    ensures { result ≡ option_map (λ x. x.1) (found_by (nat_eq key) map.now.pairs) }
{
    if map.contains_key(&key) {
        Some(map[&key])
    } else {
        None
    }
}

/// The sum of the elements of a set.
fn sum_of(set: &HashSet<u64>) -> u64 {
    let mut sum = 0u64;
    for element in set {
        sum = sum.wrapping_add(*element);
    }
    sum
}

/// Whether each answer is what it should be, from a map with no pair on.
fn answer_so(map: &mut Map) -> Result<bool, Fault> {
    let mut so = stores(map, 7, 1)? == None && stores(map, 7, 2)? == Some(1);
    so = so && tries(map, 7, 9)? == Some(9) && tries(map, 8, 9)? == None;
    so = so && gets(map, 8, 5)? == 9 && gets(map, 9, 5)? == 5;
    so = so && adds(map, 9)? == Some(6) && adds(map, 10)? == None;
    so = so && counts(map, 9)? == 106 && counts(map, 7)? == 2 && counts(map, 7)? == 0;
    so = so && counts(map, 7)? == 1 && removes(map, 8)? == Some(9) && removes(map, 7)? == Some(1);
    so = so && value_of(map, 9) == Some(6) && value_of(map, 7) == None;
    Ok(so && removes(map, 7)? == None && map.len() == 2)
}

fn map_answers_so(alloc: Global) -> Result<bool, Fault> {
    let mut map = Map::new(alloc)?;
    answer_so(&mut map)
}

/// Whether nothing is taken out of a map that was just made with a table.
fn takes_nothing_out(alloc: Global) -> Result<bool, Fault> {
    let mut map = Map::with_capacity(alloc, 100)?;
    Ok(takes_out(&mut map, 7) == None && map.is_empty())
}

/// Nor twice in turn.
fn takes_neither_out(alloc: Global) -> Result<bool, Fault> {
    let mut map = Map::with_capacity(alloc, 100)?;
    Ok(takes_both_out(&mut map, 7, 8) == (None, None) && map.is_empty())
}

/// Nor out of one with no table.
fn is_emptied(alloc: Global) -> Result<bool, Fault> {
    let mut map = Map::new(alloc)?;
    empties(&mut map);
    Ok(map.is_empty())
}

/// Nor out of one that was emptied.
fn none_is_left(alloc: Global) -> Result<bool, Fault> {
    let mut map = Map::new(alloc)?;
    Ok(empties_and_takes_out(&mut map, 7) == None && map.is_empty())
}

/// Whether the value of 7 is taken out once, and then no more.
fn takes_value_once(map: &mut Map) -> Result<bool, Fault> {
    let so = map.remove(&7)?.copied() == Some(1) && map.remove(&7)? == None;
    Ok(so && map.len() == 1)
}

/// Whether the pair of 8 is taken out once, and then no more.
fn takes_pair_once(map: &mut Map) -> Result<bool, Fault> {
    let so = match map.remove_entry(&8)? {
        Some((key, value)) => *key == 8 && *value == 2,
        None => false,
    };
    Ok(so && map.remove_entry(&8)?.is_none() && map.is_empty())
}

/// Both in turn, from a map with no pair on.
fn takes_once(map: &mut Map) -> Result<bool, Fault> {
    map.extend([(7, 1), (8, 2)])?;
    Ok(takes_value_once(map)? && takes_pair_once(map)?)
}

fn pairs_are_taken_once(alloc: Global) -> Result<bool, Fault> {
    let mut map = Map::new(alloc)?;
    takes_once(&mut map)
}

fn set_is_walked(alloc: Global) -> Result<bool, Fault> {
    let set = HashSet::<u64>::from_array(alloc, &[1, 20, 300, 20])?;
    Ok(sum_of(&set) == 321)
}

#[test]
fn answers_lend_what_was_met(rt: HostRuntime) {
    assert!(rt; map_answers_so(rt.alloc()) == Ok(true));
    assert!(rt; set_is_walked(rt.alloc()) == Ok(true));
}

#[test]
fn removals_are_done_where_none_is_behind_the_first_table(rt: HostRuntime) {
    assert!(rt;
        takes_nothing_out(rt.alloc()) == Ok(true) && takes_neither_out(rt.alloc()) == Ok(true)
    );
    assert!(rt; is_emptied(rt.alloc()) == Ok(true) && none_is_left(rt.alloc()) == Ok(true));
    assert!(rt; pairs_are_taken_once(rt.alloc()) == Ok(true));
}

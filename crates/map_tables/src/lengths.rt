//! How long the tables of a map are.
ghost use Rattle.std.specs.Prelude.{◌≡◌, ◌*◌, ◌≤◌, ◌^◌, max, IfOk};
ghost use Rattle.std.specs.Int.{IsNextPowerOfTwo};
ghost use Rattle.map_tables.specs.Lengths.{if_few, places_for, entries_of, len_of, by_count, next_len, is_crowded, next_limit, next_turn, HaveTableLens, GoByTheCounter, OnlyTheLastEnds};

use crate::probe::limit;
use seize_words::Fault;

/// The fewest places that a table has.
pub const LEAST_LEN: u64 = 8;

/// The places of the first table of a map that was made for no pairs.
pub const FIRST_LEN: u64 = 32;

/// The most places that a table has.
pub const MOST_LEN: u64 = 1 << 48;

/// The turn of the last table that a chain can have. A map's first table has turn 0.
pub const LAST_TURN: u64 = 1 << 63;

/// What made a further table necessary.
#[derive(Clone, Copy, PartialEq, Eq)]
pub enum Reason {
    /// A probe went past the limit.
    Full {
        /// How many of its tries had words that named a pair.
        met: u64,
        /// The most that tries of its call had, at this table or at an earlier one that it found full.
        most: u64,
    },
    /// Room for this many more pairs was asked for.
    Reserved(u64),
    /// A copied pair found no place.
    NoPlace,
}

/// Returns how many places so many pairs need: a third more, as the next power of two. The fault is Capacity.
pub fn entries_for(pairs: u64) -> Result<u64, Fault>
    ensures formula { result ≡ entries_of pairs }
    ensures in_words { IfOk result (λ entries. IsNextPowerOfTwo (places_for pairs) entries × (entries ≤ 2 ^ 48)) }
{
    match pairs.checked_mul(8) {
        Some(eighths) if eighths / 6 <= MOST_LEN => Ok((eighths / 6).next_power_of_two()),
        _ => Err(Fault::Capacity),
    }
}

/// Returns the length of a table that is made for so many pairs. The fault is Capacity.
pub fn len_for(pairs: u64) -> Result<u64, Fault>
    ensures { result ≡ len_of pairs }
{
    Ok(entries_for(pairs)?.max(LEAST_LEN))
}

/// Returns the length of the table after one of this length, for a map with this many pairs by its counter that was made with `initial` places. A call that met
/// more pairs than that knows better. The fault is Capacity.
pub fn len_after(reason: Reason, len: u64, count: u64, initial: u64) -> Result<u64, Fault>
    ensures { result ≡ next_len reason len count initial }
{
    match reason {
        Reason::Full { most, .. } => len_by(len, count.max(most), initial),
        Reason::Reserved(additional) => match count.checked_add(additional) {
            Some(pairs) => len_for(pairs),
            None => Err(Fault::Capacity),
        },
        Reason::NoPlace => double(len),
    }
}

/// Whether tries at a table with this limit met pairs alone, or all but: seven eighths of them at least.
fn is_crowded(met: u64, limit: u64) -> bool
    ensures { result ≡ is_crowded met limit }
{
    u128::from(met) * 8 >= (u128::from(limit) + 1) * 7
}

/// Returns the limit of a table of length `len` that is made after one of length `before`, which has the limit `tried`.
pub fn limit_after(reason: Reason, before: u64, tried: u64, len: u64) -> u64
    requires { 1 ≤ len }
    ensures { result ≡ next_limit reason before tried len }
{
    match reason {
        Reason::Full { met, .. } if len == before && is_crowded(met, tried) => len - 1,
        Reason::NoPlace => len - 1,
        Reason::Full { .. } | Reason::Reserved(_) => limit(len),
    }
}

/// Returns the turn of the table after one with this turn. The fault is Capacity.
pub fn turn_after(turn: u64) -> Result<u64, Fault>
    ensures { result ≡ next_turn turn }
{
    if turn < LAST_TURN {
        Ok(turn + 1)
    } else {
        Err(Fault::Capacity)
    }
}

/// Every table's length is a power of two from 8 to 2^48, if it is made for some pairs or after such a table.
pub fn lengths_are_powers_of_two()
    ensures { HaveTableLens }
{}

/// Where a probe met no more pairs than the counter says, the length goes by the counter alone.
pub fn lengths_go_by_the_counter()
    ensures { GoByTheCounter }
{}

/// The length that a map with so many pairs goes on with. The fault is Capacity.
fn len_by(len: u64, pairs: u64, initial: u64) -> Result<u64, Fault>
    ensures { result ≡ if_few (max (by_count len pairs initial) 8) (max (by_count len pairs initial) 8) }
{
    if pairs >= len / 2 {
        double(len)
    } else if pairs <= len / 8 {
        at_least(initial.max(len / 2))
    } else {
        at_least(len)
    }
}

/// Where no table can be made after one that is full, or in which a copied pair finds no place, that one has more than half as many places as a table
/// can have, or the last turn.
pub fn only_the_last_tables_end_a_chain()
    ensures { OnlyTheLastEnds }
{}

/// Twice the length. The fault is Capacity.
fn double(len: u64) -> Result<u64, Fault>
    ensures { result ≡ if_few (max (len * 2) 8) (max (len * 2) 8) }
{
    match len.checked_mul(2) {
        Some(twice) => at_least(twice),
        None => Err(Fault::Capacity),
    }
}

/// This length, or the least one. The fault is Capacity.
fn at_least(len: u64) -> Result<u64, Fault>
    ensures { result ≡ if_few (max len 8) (max len 8) }
{
    let len = len.max(LEAST_LEN);
    if len > MOST_LEN {
        return Err(Fault::Capacity);
    }
    Ok(len)
}

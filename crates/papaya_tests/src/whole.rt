//! Calls on a whole map: what one session counts and is shown of so many keys; keys that are found while another thread makes room; two threads that go over all pairs until
//! they meet; and one that counts and clears while another one stores. Two threads look under one guard, each by a pass, at what the other one stores and replaces; and two settle
//! on one value for each key, which both are lent.
use crate::keys::{Work, both};
use crate::{LOOKS, Lent, Map, Own, Told};
use papaya::Onlooker;
use std::sync::Wait;
use std::thread::{self, Threads};
use std::time::{Clock, Duration};

/// How many keys there are.
pub(crate) const FEW: u64 = 1_024;

/// How often all keys are looked up while room is made, or are cleared.
const ROUNDS: u64 = 32;

/// How many keys stay.
const STAY: u64 = 100;

/// How many values one key has, one after another, and on how many keys two threads settle.
const TURNS: u64 = 300;

/// Stores so many keys, each with its successor, and answers how many pairs are counted then.
pub(crate) fn fills<R: Wait>(rt: &R, session: &mut Own<'_>, many: u64) -> Told<u64> {
    for key in 0..many {
        let _ = session.insert(rt, key, u64::wrapping_add(key, 1))?;
    }
    Ok(session.len())
}

/// How many of so many keys it finds, each with so much more.
pub(crate) fn finds<R: Wait>(rt: &R, session: &mut Own<'_>, many: u64, more: u64) -> u64 {
    let mut found = 0u64;
    for key in 0..many {
        let there = session.get(rt, &key).copied() == Some(u64::wrapping_add(key, more));
        found = u64::wrapping_add(found, u64::from(there));
    }
    found
}

/// Takes one from the value of each of so many keys, and removes them if that is wished.
pub(crate) fn lowers<R: Wait>(
    rt: &R,
    session: &mut Own<'_>,
    many: u64,
    removes: bool,
) -> Told<u64> {
    for key in 0..many {
        if removes {
            let _ = session.remove(rt, &key)?;
        } else {
            let _ = session.update(rt, &key, |value| u64::wrapping_sub(*value, 1))?;
        }
    }
    Ok(session.len())
}

/// How many of so many keys a walk shows, each with its successor, and how many other pairs.
pub(crate) fn shown<R: Wait>(rt: &R, session: &mut Own<'_>, many: u64) -> Told<(u64, u64)> {
    let (mut own, mut others) = (0u64, 0u64);
    session.each(rt, |key, value| {
        if *key < many && u64::wrapping_add(*key, 1) == *value {
            own = u64::wrapping_add(own, 1);
        } else {
            others = u64::wrapping_add(others, 1);
        }
    })?;
    Ok((own, others))
}

/// Makes room again and again, twice as much each time.
pub(crate) fn reserves<R: Wait>(rt: &R, session: &mut Own<'_>) -> Told<u64> {
    for more in [2_048u64, 4_096, 8_192, 16_384, 32_768] {
        session.reserve(rt, more)?;
    }
    Ok(0)
}

/// How often it has found a key, looking for each of them again and again.
pub(crate) fn reads<R: Wait>(rt: &R, session: &mut Own<'_>) -> u64 {
    let mut found = 0u64;
    for _ in 0..ROUNDS {
        found = u64::wrapping_add(found, finds(rt, session, FEW, 1));
        session.refresh();
    }
    found
}

/// Tells whether each lookup of one thread finds its key, while another one makes room, and as many are there then.
pub(crate) fn grows<R: Threads + Wait + Clock + Sync>(rt: &R, made: Told<Map>) -> Told<bool> {
    let map = made?;
    let _ = fills(rt, &mut map.session()?, FEW)?;
    let (_, found) = both(rt, &map, Work::Reserves, Work::Reads)?;
    Ok(found == ROUNDS * FEW && map.session()?.len() == FEW)
}

/// An onlooker that counts what it is shown.
#[derive(Drop)]
struct Counts {
    pairs: u64,
}

impl Onlooker<u64, u64> for Counts {
    ghost may_see = { λ counts. Unit {0} };

    ghost has_seen = { λ counts key value n. Unit {0} };

    fn sees(&mut self, _: &u64, _: &u64) {
        self.pairs = u64::wrapping_add(self.pairs, 1);
    }
}

/// How many pairs an onlooker is shown.
fn seen<R: Wait>(rt: &R, mut session: Own<'_>) -> Told<u64> {
    let (end, counts) = session.shows_to(rt, Counts { pairs: 0 });
    end?;
    Ok(counts.pairs)
}

/// Stores one further key, and goes over the pairs until it is shown that of the other one, too. Answers 1 where that came, and each time all were shown that stay.
pub(crate) fn meets<R: Wait + Clock>(rt: &R, session: &mut Own<'_>, own: u64) -> Told<u64> {
    let _ = session.insert(rt, own, 0)?;
    for _ in 0..LOOKS {
        let (staying, others) = shown(rt, session, STAY)?;
        if staying != STAY || others == 2 {
            return Ok(u64::from(staying == STAY));
        }
        session.refresh();
        thread::sleep(rt, Duration::from_millis(1));
    }
    Ok(0)
}

/// Tells whether two threads do so, and an onlooker is shown as many pairs then. Were the threads served one after another, the first one would not be shown the key of the
/// second.
pub(crate) fn meet<R: Threads + Wait + Clock + Sync>(rt: &R, made: Told<Map>) -> Told<bool> {
    let map = made?;
    let _ = fills(rt, &mut map.session()?, STAY)?;
    let told = both(rt, &map, Work::Meets(STAY), Work::Meets(STAY + 1))?;
    Ok(told == (1, 1) && seen(rt, map.session()?)? == STAY + 2)
}

/// Counts the pairs, and removes them, again and again. Answers 1 where no more are counted than keys are stored.
pub(crate) fn clears_often<R: Wait>(rt: &R, session: &mut Own<'_>) -> Told<u64> {
    let mut are_few = true;
    for _ in 0..ROUNDS {
        are_few = session.len() <= FEW && are_few;
        session.clear(rt)?;
        session.refresh();
    }
    Ok(u64::from(are_few))
}

/// Tells whether what is left is what is counted, and is gone once it is cleared.
fn goes<R: Wait>(rt: &R, mut session: Own<'_>) -> Told<bool> {
    let left = session.len();
    let same = shown(rt, &mut session, FEW)? == (left, 0);
    session.clear(rt)?;
    Ok(same && session.is_empty())
}

/// Tells whether one thread clears a map so while another one stores each key once, and what is left goes then.
pub(crate) fn clears<R: Threads + Wait + Clock + Sync>(rt: &R, made: Told<Map>) -> Told<bool> {
    let map = made?;
    let (few, stored) = both(rt, &map, Work::Clears, Work::Fills)?;
    Ok(few == 1 && stored <= FEW && goes(rt, map.session()?)?)
}

/// Stores one value after another at one of two keys, by a session of its own, and looks each time at the other key, by a pass under the guard, until that has its last value.
/// Tells whether that comes, and no value was less than the one before it, which is lent still.
fn follows<R: Wait + Clock>(rt: &R, map: &Lent<'_>, guard: &Own<'_>, key: u64) -> Told<bool> {
    let mut session = map.session()?;
    let mut pass = guard.pass();
    let mut before: Option<&u64> = None;
    for turn in 0..LOOKS {
        let _ = session.insert(rt, key, turn.min(TURNS))?;
        session.refresh();
        let value = guard.get_by(rt, &(key ^ 1), &mut pass)?;
        if value.copied().unwrap_or(0) < before.copied().unwrap_or(0) {
            return Ok(false);
        }
        if turn >= TURNS && value.copied() == Some(TURNS) {
            return Ok(true);
        }
        before = value;
        thread::sleep(rt, Duration::from_millis(1));
    }
    Ok(false)
}

/// Tells whether two threads do so under one guard. Were they served one after another, or one pass under the guard at a time, the first would not find the values of the
/// second.
pub(crate) fn follow<R: Threads + Wait + Clock + Sync>(rt: &R, made: Told<Map>) -> Told<bool> {
    let made = made?;
    let map = made.shared();
    let guard = map.session()?;
    let (one, other) = thread::join(
        rt,
        || follows(rt, &map, &guard, 0),
        || follows(rt, &map, &guard, 1),
    );
    Ok(one? && other?)
}

/// Offers this value for each key, and answers the sum of those that are there then.
pub(crate) fn settles<R: Wait>(rt: &R, session: &mut Own<'_>, value: u64) -> Told<u64> {
    let mut sum = 0u64;
    for key in 0..TURNS {
        sum = u64::wrapping_add(sum, *session.get_or_insert(rt, key, value)?);
    }
    Ok(sum)
}

/// Tells whether two threads do so, and are lent the same values, one of the two for each key. A body that lends each its own value gives two sums.
pub(crate) fn settle<R: Threads + Wait + Clock + Sync>(rt: &R, made: Told<Map>) -> Told<bool> {
    let (one, other) = both(rt, &made?, Work::Settles(1), Work::Settles(2))?;
    Ok(one == other && TURNS <= one && one <= 2 * TURNS)
}

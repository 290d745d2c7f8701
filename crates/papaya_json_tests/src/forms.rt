//! Two threads store texts, which are found by lent ones then, with no copy of them.
use crate::Hashing;
use map_forms::Text;
use papaya_json::{Fault, HashMap, IdSource, Session};
use std::alloc::Global;
use std::sync::Wait;
use std::thread::{self, Threads};

type Own<'m> = Session<'m, Text, u64, Hashing>;

/// Stores this text with its length.
fn stores<R: Wait>(rt: &R, alloc: Global, mut own: Own<'_>, text: &str) -> Result<bool, Fault> {
    let old = own.insert(rt, Text::new(alloc, text)?, text.len() as u64)?;
    Ok(old.is_some())
}

/// What a session finds of these texts.
fn finds<R: Wait>(rt: &R, session: &mut Own<'_>, texts: [&str; 3]) -> [Option<u64>; 3] {
    let [one, other, third] = texts;
    [
        session.get(rt, &one).copied(),
        session.get(rt, &other).copied(),
        session.get(rt, &third).copied(),
    ]
}

/// Two threads store a text each. Answers what a session finds of the two and of a third one, whether it says that the first is there, what a pin and a guard with a pass find
/// of it, and whether it was removed then.
fn both<R: Threads + Wait + Sync>(
    rt: &R,
    alloc: Global,
    texts: [&str; 3],
) -> Result<([Option<u64>; 3], [bool; 4]), Fault> {
    let [one, other, _] = texts;
    let mut ids = IdSource::new();
    let map = HashMap::with_hasher(alloc, &mut ids, Hashing::default())?;
    let first = map.session()?;
    let (second, mut third) = (first.another()?, first.another()?);
    let stored = thread::join(
        rt,
        || stores(rt, alloc, first, one),
        || stores(rt, alloc, second, other),
    );
    let (_, _) = (stored.0?, stored.1?);
    let shared = map.shared();
    let mut pass = shared.pass();
    let passed = shared.get(rt, &one, &third, &mut pass)?.is_some();
    let pinned = third.pin().get_key_value(rt, &one).is_some();
    let there = third.contains_key(rt, &one);
    let found = finds(rt, &mut third, texts);
    let removed = third.remove(rt, &one)?.is_some();
    Ok((found, [there, pinned, passed, removed]))
}

/// Whether what two threads have stored at texts is found by lent ones, and removed, and nothing is at a third.
pub(crate) fn are_found<R: Threads + Wait + Sync>(rt: &R, alloc: Global) -> Result<bool, Fault> {
    let (found, there) = both(rt, alloc, ["cod", "pike", "perch"])?;
    Ok(found == [Some(3), Some(4), None] && there == [true; 4])
}

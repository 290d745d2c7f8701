//! A map that threads share, with clones of the pairs of another one.
ghost use Rattle.std.specs.Prelude.{◌≡◌, ◌⊎◌, None, Ok, IfOk, OnOk};
ghost use Rattle.map_tables.specs.declared.resize_mode.ResizeMode.TheVariants.{Incremental};
ghost use Rattle.papaya_map.specs.Cloned.{HasCloned, HasClonedInto, HasCountedAndCloned, IsClone, IsOn, IsPairClone, PutsClone};
ghost use Rattle.papaya_sessions.specs.Extended.{PutsPair};
ghost use Rattle.papaya_sessions.specs.Given.OwnedOwned.{hashed_by};
ghost use Rattle.seize.specs.Ids.{following, given};

use crate::map::HashMap;
use map_tables::Hashes;
use papaya_sessions::{Onlooker, Session};
use seize::IdSource;
use seize_words::Fault;
use std::alloc::Global;
use std::hash::{BuildHasher, Hash};
use std::sync::Wait;

/// Stores a clone of a pair.
fn put_clone<R: Wait, K: Eq + Hash + Clone + Drop, V: Clone + Drop, S: Hashes<K>>(
    rt: &R,
    session: &mut Session<'_, K, V, S>,
    key: &K,
    value: &V,
) -> Result<(), Fault>
    ensures put { OnOk result ((x : K × V) × IsPairClone K.is_clone V.is_clone (key.now, value.now) x × PutsPair K.eq S.hash x session.old.base.caller session.new.base.caller) }
{
    let own_key = key.clone()?;
    let own_value = value.clone()?;
    match session.insert(rt, own_key, own_value) {
        Ok(_) => Ok(()),
        Err(refused) => Err(refused.fault),
    }
}

/// A session that stores a clone of each pair that a walk shows, until one is refused.
#[derive(Drop)]
struct Clones<'c, 'm, R, K: Eq + Hash + Drop, V: Drop, S: Hashes<K>> {
    rt: &'c R,
    session: Session<'m, K, V, S>,
    refused: Option<Fault>,
}

impl<'c, 'm, R: Wait, K: Eq + Hash + Clone + Drop, V: Clone + Drop, S: Hashes<K>> Onlooker<K, V>
    for Clones<'c, 'm, R, K, V, S> {
    ghost may_see = { λ c. Unit {0} };

    ghost has_seen = { λ c key value n. PutsClone K.eq S.hash K.is_clone V.is_clone (key, value) c.refused c.session.base.caller n.refused n.session.base.caller };

    fn sees(&mut self, key: &K, value: &V) {
        if self.refused.is_some() {
            return;
        }
        match put_clone(self.rt, &mut self.session, key, value) {
            Ok(()) => {}
            Err(fault) => self.refused = Some(fault),
        }
    }
}

/// What was refused, if something was.
fn ended(refused: Option<Fault>) -> Result<(), Fault>
    ensures { OnOk result (refused ≡ None) }
{
    match refused {
        Some(fault) => Err(fault),
        None => Ok(()),
    }
}

/// Stores a clone of each pair that a walk of this session tells by that one.
fn clone_into<R: Wait, K: Eq + Hash + Clone + Drop, V: Clone + Drop, S: Hashes<K>>(
    rt: &R,
    session: &mut Session<'_, K, V, S>,
    into: Session<'_, K, V, S>,
) -> Result<(), Fault>
    ensures cloned { OnOk result (HasClonedInto K.eq S.hash K.is_clone V.is_clone into.entry.base.caller session.old.base.caller session.new.base.caller) }
{
    let clones = Clones {
        rt,
        session: into,
        refused: None,
    };
    let (end, told) = session.shows_to(rt, clones);
    match end {
        Ok(()) => ended(told.refused),
        Err(fault) => Err(fault),
    }
}

/// Stores a clone of each of them in that map.
fn fill<R: Wait, K: Eq + Hash + Clone + Drop, V: Clone + Drop, S: Hashes<K>>(
    rt: &R,
    session: &mut Session<'_, K, V, S>,
    map: &HashMap<K, V, S>,
) -> Result<(), Fault>
    ensures cloned { OnOk result (HasCloned K.eq S.hash K.is_clone V.is_clone (IsOn map.now) session.old.base.caller session.new.base.caller) }
{
    match map.session() {
        Ok(into) => clone_into(rt, session, into),
        Err(fault) => Err(fault),
    }
}

/// Stores them there, and answers that map.
fn filled<R: Wait, K: Eq + Hash + Clone + Drop, V: Clone + Drop, S: Hashes<K> + Drop>(
    rt: &R,
    session: &mut Session<'_, K, V, S>,
    map: HashMap<K, V, S>,
) -> Result<HashMap<K, V, S>, Fault>
    ensures cloned { IfOk result (λ it. HasCloned K.eq S.hash K.is_clone V.is_clone (IsOn it) session.old.base.caller session.new.base.caller) }
    ensures same { IfOk result (λ it. it ≡ map) }
{
    match fill(rt, session, &map) {
        Ok(()) => Ok(map),
        Err(fault) => Err(fault),
    }
}

/// Makes a map with clones of the pairs that a walk of this session tells, and with this hasher.
fn cloned_with<R: Wait, K: Eq + Hash + Clone + Drop, V: Clone + Drop, S: BuildHasher + Drop>(
    rt: &R,
    alloc: Global,
    ids: &mut IdSource,
    session: &mut Session<'_, K, V, S>,
    hasher: S,
) -> Result<HashMap<K, V, S>, Fault>
    ensures cloned { IfOk result (λ map. HasCountedAndCloned K.eq (hashed_by S.Hasher.finish S.Hasher.write S.build_hasher K.hash_input) K.is_clone V.is_clone (IsOn map)
        session.old.base.caller session.new.base.caller) }
    ensures number { IfOk result (λ map. given ids.old ≡ Ok map.collector.number) }
    ensures hasher { IfOk result (λ map. map.hasher ≡ hasher) }
    ensures mode { IfOk result (λ map. map.setting.mode ≡ Incremental 64) }
    ensures ids { (ids.new ≡ ids.old) ⊎ (ids.new ≡ following ids.old) }
{
    let count = session.len();
    match HashMap::with_capacity_and_hasher(alloc, ids, count, hasher) {
        Ok(map) => filled(rt, session, map),
        Err(fault) => Err(fault),
    }
}

impl<K: Eq + Hash + Clone + Drop, V: Clone + Drop, S: BuildHasher + Clone + Drop> HashMap<K, V, S> {
    /// Makes a map with a clone of each pair that a walk tells, and of the hasher: with a collector of its own, of the capacity that the count says, and one that copies 64 places
    /// at a time as it grows, whatever this one does. It has each pair that was there all the time; while others change this map, it may be what that never was at one moment. The
    /// faults are `Fault::SlotsUsedUp`, `Fault::Capacity`, `Fault::CollectorsUsedUp` and `Fault::Memory`: there is no map then, and no pair of this one has changed.
    pub fn clone<R: Wait>(
        &self,
        rt: &R,
        alloc: Global,
        ids: &mut IdSource,
    ) -> Result<HashMap<K, V, S>, Fault>
        ensures cloned { IfOk result (IsClone K.eq (hashed_by S.Hasher.finish S.Hasher.write S.build_hasher K.hash_input) K.is_clone V.is_clone self.now) }
        ensures number { IfOk result (λ map. given ids.old ≡ Ok map.collector.number) }
        ensures hasher { IfOk result (λ map. S.is_clone self.now.hasher map.hasher) }
        ensures mode { IfOk result (λ map. map.setting.mode ≡ Incremental 64) }
        ensures ids { (ids.new ≡ ids.old) ⊎ (ids.new ≡ following ids.old) }
    {
        let hasher = self.hasher.clone()?;
        match self.session() {
            Ok(session) => {
                let mut session = session;
                cloned_with(rt, alloc, ids, &mut session, hasher)
            }
            Err(fault) => Err(fault),
        }
    }
}

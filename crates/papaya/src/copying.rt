//! A set that threads share is compared with another one, and a set is made with clones of its elements.
ghost use Rattle.std.specs.Prelude.{◌≡◌, ◌⊎◌, Ok, IfErr, IfOk};
ghost use Rattle.map_tables.specs.declared.resize_mode.ResizeMode.TheVariants.{Incremental};
ghost use Rattle.papaya.specs.OneSet.{SetsWereCompared, SetsWereNotCompared};
ghost use Rattle.papaya_map.specs.Cloned.{IsClone};
ghost use Rattle.papaya_map.specs.Given.OwnedOwned.{hashed_by};
ghost use Rattle.papaya_map.specs.Given.SessionsKept.{KeepsMap};
ghost use Rattle.seize.specs.Ids.{following, given};

use crate::session::SetSession;
use crate::set::HashSet;
use map_tables::Hashes;
use papaya_map::IdSource;
use seize_words::Fault;
use std::alloc::Global;
use std::hash::{BuildHasher, Hash};
use std::sync::Wait;

impl<'m, K: Eq + Hash + Drop, S: Hashes<K>> SetSession<'m, K, S> {
    /// Returns whether both sets have as many elements, by their counts, and each element that a walk of this one tells is in the other one. While others change the sets, that may
    /// be so of no one moment. The faults are `Fault::Capacity` and `Fault::Memory`, of a table that the walk needs first; no element has changed.
    pub fn same<'o, R: Wait, T: BuildHasher>(
        &mut self,
        rt: &R,
        other: &mut SetSession<'o, K, T>,
    ) -> Result<bool, Fault>
        ensures keeps { KeepsMap self.old.session self.new.session }
        ensures other { KeepsMap other.old.session other.new.session }
        ensures compared { IfOk result (λ alike. SetsWereCompared K.eq S.hash (hashed_by T.Hasher.finish T.Hasher.write T.build_hasher K.hash_input) alike
            self.old.session.base.caller self.new.session.base.caller other.old.session.base.caller other.new.session.base.caller) }
        ensures refused { IfErr result (λ fault. SetsWereNotCompared K.eq S.hash (hashed_by T.Hasher.finish T.Hasher.write T.build_hasher K.hash_input) fault
            self.old.session.base.caller self.new.session.base.caller other.old.session.base.caller other.new.session.base.caller) }
    {
        self.session.same(rt, &mut other.session)
    }
}

impl<K: Eq + Hash + Clone + Drop, S: BuildHasher + Clone + Drop> HashSet<K, S> {
    /// Makes a set with a clone of each element that a walk tells, and of the hasher: with a collector of its own, of the capacity that the count says, and one that copies 64 places
    /// at a time as it grows, whatever this one does. It has each element that was there all the time; while others change this set, it may be what that never was at one moment. The
    /// faults are `Fault::SlotsUsedUp`, `Fault::Capacity`, `Fault::CollectorsUsedUp` and `Fault::Memory`: there is no set then, and no element of this one has changed.
    pub fn clone<R: Wait>(
        &self,
        rt: &R,
        alloc: Global,
        ids: &mut IdSource,
    ) -> Result<HashSet<K, S>, Fault>
        ensures cloned { IfOk result (λ set. IsClone K.eq (hashed_by S.Hasher.finish S.Hasher.write S.build_hasher K.hash_input) K.is_clone (λ x y. y ≡ x) self.now.map set.map) }
        ensures number { IfOk result (λ set. given ids.old ≡ Ok set.map.collector.number) }
        ensures hasher { IfOk result (λ set. S.is_clone self.now.map.hasher set.map.hasher) }
        ensures mode { IfOk result (λ set. set.map.setting.mode ≡ Incremental 64) }
        ensures ids { (ids.new ≡ ids.old) ⊎ (ids.new ≡ following ids.old) }
    {
        match self.map.clone(rt, alloc, ids) {
            Ok(map) => Ok(HashSet { map }),
            Err(fault) => Err(fault),
        }
    }
}

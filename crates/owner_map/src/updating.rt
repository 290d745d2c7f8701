//! Calls on a map for one owner that update a value, or store one, by closures, and lend the value that is there then. Each begins with a refresh.
ghost use Rattle.std.specs.Prelude.{◌≡◌, None, Some, MatchOption, IsTrue, is_some, IfOk, IfErr};
ghost use Rattle.std.specs.Borrow.{sem};
ghost use Rattle.std.specs.Fn.{FnOnceReturns, FnOnceReturnsAt, FnOnceTakesAt};
ghost use Rattle.std.specs.Option.{ForNone, ForSome};
ghost use Rattle.owner_asks.specs.Given.LateFaults.{IsRoom};
ghost use Rattle.owner_rests.specs.Given.{found_by};
ghost use Rattle.owner_map.specs.Answers.{HasAdded, HasReplaced, IsLeft, IsRefused, QuiescentUnless};

use crate::answers::{Present, Updated};
use crate::asking;
use crate::map::HashMap;
use owner_asks::{Refused, RefusedKey};
use seize_words::Receiver;
use std::hash::{BuildHasher, Hash};

impl<K: Eq + Hash + Drop, V: Drop, S: BuildHasher, R: Receiver<(K, V)>> HashMap<K, V, S, R> {
    /// Replaces the value of a key by one that is made of it, and lends the new one, if the key is there. The closure is called where it is, and else not at
    /// all. The faults are `Fault::Capacity`, where no table can follow the map's last one, and `Fault::Memory`; then no pair has
    /// changed, and the key comes back.
    pub fn update<F: FnOnce(&V) -> V>(
        &mut self,
        key: K,
        make: F,
    ) -> Result<Updated<'_, K, V, S, R>, RefusedKey<K>>
        requires callable { ForSome (found_by (K.eq key) self.old.pairs) (λ x. FnOnceTakesAt F.FnOnce make x.1) }
        ensures* after { sem 𝓛 (QuiescentUnless K.row V.row S.row R.row S.Hasher.row K.Hash S.BuildHasher S.Hasher.Hasher self.entry result (λ done. done.map.ghost_name) (λ map. IfErr result (λ r. IsRefused self.old map r.fault))) }
        ensures same { IfOk result (λ done. done.map.ghost_name ≡ self.entry.ghost_name) }
        ensures done { IfOk result (λ done. MatchOption (found_by (K.eq key) self.old.pairs) (IsLeft self.old done.map.now None) (λ x. (new : V) × FnOnceReturnsAt F.FnOnce make x.1 new × HasReplaced self.old done.map.now (K.eq key) x (key, new))) }
        ensures back { IfErr result (λ r. r.key ≡ key) }
        ensures fault { IfErr result (λ r. IsRoom r.fault) }
        ensures hasher { IfOk result (λ done. done.map.now.hasher ≡ self.old.hasher) }
    {
        match asking::update(self, key, make) {
            Ok(_) => Ok(Updated { map: self }),
            Err(refused) => Err(refused),
        }
    }

    /// Replaces the value of a key by one that is made of it, if the key is there, and else stores one that is begun; then lends it. The closure that is called
    /// is the one of the two. The faults are `Fault::Capacity`, where no table can follow the map's last one, and `Fault::Memory`; then no
    /// pair has changed, and the key comes back.
    pub fn update_or_insert_with<F: FnOnce(&V) -> V, B: FnOnce() -> V>(
        &mut self,
        key: K,
        make: F,
        begin: B,
    ) -> Result<Present<'_, K, V, S, R>, RefusedKey<K>>
        requires begins { ForNone (found_by (K.eq key) self.old.pairs) (B.pre begin) }
        requires makes { ForSome (found_by (K.eq key) self.old.pairs) (λ x. FnOnceTakesAt F.FnOnce make x.1) }
        ensures* after { sem 𝓛 (QuiescentUnless K.row V.row S.row R.row S.Hasher.row K.Hash S.BuildHasher S.Hasher.Hasher self.entry result (λ done. done.map.ghost_name) (λ map. IfErr result (λ r. IsRefused self.old map r.fault))) }
        ensures same { IfOk result (λ done. done.map.ghost_name ≡ self.entry.ghost_name) }
        ensures done { IfOk result (λ done. MatchOption (found_by (K.eq key) self.old.pairs) ((new : V) × FnOnceReturns B.FnOnce begin tt new × HasAdded self.old done.map.now (key, new)) (λ x. (new : V) × FnOnceReturnsAt F.FnOnce make x.1 new × HasReplaced self.old done.map.now (K.eq key) x (key, new))) }
        ensures met { IfOk result (λ done. IsTrue (is_some done.map.now.met)) }
        ensures back { IfErr result (λ r. r.key ≡ key) }
        ensures fault { IfErr result (λ r. IsRoom r.fault) }
        ensures hasher { IfOk result (λ done. done.map.now.hasher ≡ self.old.hasher) }
    {
        match asking::update_or_insert_with(self, key, make, begin) {
            Ok(_) => Ok(Present { map: self }),
            Err(refused) => Err(refused),
        }
    }

    /// Replaces the value of a key by one that is made of it, if the key is there, and else stores this one; then lends it. The closure is called where the key
    /// is there, and else not at all. The faults are `Fault::Capacity`, where no table can follow the map's last one, and `Fault::Memory`;
    /// then no pair has changed, and the key and this value come back.
    pub fn update_or_insert<F: FnOnce(&V) -> V>(
        &mut self,
        key: K,
        make: F,
        value: V,
    ) -> Result<Present<'_, K, V, S, R>, Refused<K, V>>
        requires callable { ForSome (found_by (K.eq key) self.old.pairs) (λ x. FnOnceTakesAt F.FnOnce make x.1) }
        ensures* after { sem 𝓛 (QuiescentUnless K.row V.row S.row R.row S.Hasher.row K.Hash S.BuildHasher S.Hasher.Hasher self.entry result (λ done. done.map.ghost_name) (λ map. IfErr result (λ r. IsRefused self.old map r.fault))) }
        ensures same { IfOk result (λ done. done.map.ghost_name ≡ self.entry.ghost_name) }
        ensures done { IfOk result (λ done. MatchOption (found_by (K.eq key) self.old.pairs) (HasAdded self.old done.map.now (key, value)) (λ x. (new : V) × FnOnceReturnsAt F.FnOnce make x.1 new × HasReplaced self.old done.map.now (K.eq key) x (key, new))) }
        ensures met { IfOk result (λ done. IsTrue (is_some done.map.now.met)) }
        ensures back { IfErr result (λ r. (r.key ≡ key) × (r.value ≡ value)) }
        ensures fault { IfErr result (λ r. IsRoom r.fault) }
        ensures hasher { IfOk result (λ done. done.map.now.hasher ≡ self.old.hasher) }
    {
        match asking::update_or_insert(self, key, make, value) {
            Ok(_) => Ok(Present { map: self }),
            Err(refused) => Err(refused),
        }
    }
}

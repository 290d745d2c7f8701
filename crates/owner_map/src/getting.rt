//! Calls on a map for one owner that lend the value of a key, and store one where there is none. Each begins with a refresh.
ghost use Rattle.std.specs.Prelude.{◌≡◌, None, Some, MatchOption, MatchResult, IsTrue, is_some, IfOk, IfErr};
ghost use Rattle.std.specs.Borrow.{sem};
ghost use Rattle.std.specs.Fn.{FnOnceReturns};
ghost use Rattle.std.specs.Option.{ForNone};
ghost use Rattle.owner_asks.specs.Given.LateFaults.{IsRoom};
ghost use Rattle.owner_rests.specs.Given.{found_by};
ghost use Rattle.owner_map.specs.Answers.{HasAdded, IsLeft, IsRefused, QuiescentUnless, name_of_either};

use crate::answers::Present;
use crate::asking;
use crate::insertions::try_put;
use crate::map::HashMap;
use owner_asks::{Refused, RefusedKey};
use owner_rests::Change;
use seize_words::Receiver;
use std::hash::{BuildHasher, Hash};

impl<K: Eq + Hash + Drop, V: Drop, S: BuildHasher, R: Receiver<(K, V)>> HashMap<K, V, S, R> {
    /// Lends the value of a key. Where the key is not there, this one is stored first. The faults are `Fault::Capacity`, where no table can follow the map's
    /// last one, and `Fault::Memory`; then no pair has changed, and key and value come back.
    pub fn get_or_insert(
        &mut self,
        key: K,
        value: V,
    ) -> Result<Present<'_, K, V, S, R>, Refused<K, V>>
        ensures* after { sem 𝓛 (QuiescentUnless K.row V.row S.row R.row S.Hasher.row K.Hash S.BuildHasher S.Hasher.Hasher self.entry result (λ done. done.map.ghost_name) (λ map. IfErr result (λ r. IsRefused self.old map r.fault))) }
        ensures same { IfOk result (λ done. done.map.ghost_name ≡ self.entry.ghost_name) }
        ensures got { IfOk result (λ done. MatchOption (found_by (K.eq key) self.old.pairs) (HasAdded self.old done.map.now (key, value)) (λ x. IsLeft self.old done.map.now (Some x))) }
        ensures met { IfOk result (λ done. IsTrue (is_some done.map.now.met)) }
        ensures back { IfErr result (λ r. (r.key ≡ key) × (r.value ≡ value)) }
        ensures fault { IfErr result (λ r. IsRoom r.fault) }
        ensures hasher { IfOk result (λ done. done.map.now.hasher ≡ self.old.hasher) }
    {
        match try_put(self, key, value) {
            Ok(_) => Ok(Present { map: self }),
            Err(refused) => Err(refused),
        }
    }

    /// Lends the value of a key. Where the key is not there, one that is begun is stored first; the closure is called there, and else not at all. The faults
    /// are `Fault::Capacity`, where no table can follow the map's last one, and `Fault::Memory`; then no pair has changed, and the key comes back.
    pub fn get_or_insert_with<B: FnOnce() -> V>(
        &mut self,
        key: K,
        begin: B,
    ) -> Result<Present<'_, K, V, S, R>, RefusedKey<K>>
        requires callable { ForNone (found_by (K.eq key) self.old.pairs) (B.pre begin) }
        ensures* after { sem 𝓛 (QuiescentUnless K.row V.row S.row R.row S.Hasher.row K.Hash S.BuildHasher S.Hasher.Hasher self.entry result (λ done. done.map.ghost_name) (λ map. IfErr result (λ r. IsRefused self.old map r.fault))) }
        ensures same { IfOk result (λ done. done.map.ghost_name ≡ self.entry.ghost_name) }
        ensures got { IfOk result (λ done. MatchOption (found_by (K.eq key) self.old.pairs) ((new : V) × FnOnceReturns B.FnOnce begin tt new × HasAdded self.old done.map.now (key, new)) (λ x. IsLeft self.old done.map.now (Some x))) }
        ensures met { IfOk result (λ done. IsTrue (is_some done.map.now.met)) }
        ensures back { IfErr result (λ r. r.key ≡ key) }
        ensures fault { IfErr result (λ r. IsRoom r.fault) }
        ensures hasher { IfOk result (λ done. done.map.now.hasher ≡ self.old.hasher) }
    {
        match asking::try_insert_with(self, key, begin) {
            Ok(_) => Ok(Present { map: self }),
            Err(refused) => Err(refused),
        }
    }

    /// Stores a value that is begun, if its key is not there yet, and lends it. Where the key is there, no pair has changed, and the answer lends the value that
    /// it has. The closure is called where the key is not there, and else not at all. The faults are `Fault::Capacity`, where no table can follow the map's last
    /// one, and `Fault::Memory`; then no pair has changed, and the key comes back.
    pub fn try_insert_with<B: FnOnce() -> V>(
        &mut self,
        key: K,
        begin: B,
    ) -> Result<Result<Present<'_, K, V, S, R>, Present<'_, K, V, S, R>>, RefusedKey<K>>
        requires callable { ForNone (found_by (K.eq key) self.old.pairs) (B.pre begin) }
        ensures* after { sem 𝓛 (QuiescentUnless K.row V.row S.row R.row S.Hasher.row K.Hash S.BuildHasher S.Hasher.Hasher self.entry result (λ tried. name_of_either tried (λ done. done.map.ghost_name) (λ there. there.map.ghost_name)) (λ map. IfErr result (λ r. IsRefused self.old map r.fault))) }
        ensures same { IfOk result (λ tried. MatchResult tried (λ done. done.map.ghost_name ≡ self.entry.ghost_name) (λ there. there.map.ghost_name ≡ self.entry.ghost_name)) }
        ensures stored { IfOk result (λ tried. IfOk tried (λ done. (found_by (K.eq key) self.old.pairs ≡ None) × (new : V) × FnOnceReturns B.FnOnce begin tt new × HasAdded self.old done.map.now (key, new))) }
        ensures found { IfOk result (λ tried. IfErr tried (λ there. IsLeft self.old there.map.now (found_by (K.eq key) self.old.pairs))) }
        ensures met { IfOk result (λ tried. MatchResult tried (λ done. IsTrue (is_some done.map.now.met)) (λ there. IsTrue (is_some there.map.now.met))) }
        ensures back { IfErr result (λ r. r.key ≡ key) }
        ensures fault { IfErr result (λ r. IsRoom r.fault) }
        ensures hasher { IfOk result (λ tried. MatchResult tried (λ done. done.map.now.hasher ≡ self.old.hasher) (λ there. there.map.now.hasher ≡ self.old.hasher)) }
    {
        match asking::try_insert_with(self, key, begin) {
            Ok(Change::Stored) => Ok(Ok(Present { map: self })),
            Ok(Change::Kept) => Ok(Err(Present { map: self })),
            Ok(Change::Missing) => unreachable!(),
            Ok(Change::Replaced) => unreachable!(),
            Ok(Change::Removed) => unreachable!(),
            Err(refused) => Err(refused),
        }
    }
}

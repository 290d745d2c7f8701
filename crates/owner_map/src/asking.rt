//! Calls on a map for one owner that update a value, or store one, by closures. Each begins with a refresh.
ghost use Rattle.std.specs.Prelude.{◌≡◌, None, Some, IfOk, IfErr, OnErr};
ghost use Rattle.std.specs.Fn.{FnOnceReturns, FnOnceReturnsAt, FnOnceTakesAt};
ghost use Rattle.std.specs.Option.{ForNone, ForSome};
ghost use Rattle.owner_asks.specs.Asks.Closures.{Updating, UpdatingOrStoring, Storing};
ghost use Rattle.owner_asks.specs.Given.LateFaults.{IsRoom};
ghost use Rattle.map_straight.specs.Shown.Chain.{CannotGrow};
ghost use Rattle.seize_words.specs.declared.fault.Fault.TheVariants.{Capacity};
ghost use Rattle.owner_rests.specs.Given.{found_by};
ghost use Rattle.owner_rests.specs.Rests.Asking.{HasDone};
ghost use Rattle.owner_rests.specs.Rests.Held.{stored_in};
ghost use Rattle.owner_rests.specs.ShowsPairs.Maps.{HasNow, Keeps};

use crate::map::HashMap;
use owner_asks::{Refused, RefusedKey};
use owner_rests::Change;
use seize_words::Receiver;
use std::hash::{BuildHasher, Hash};

/// Replaces the value of a key by one that is made of it, if the key is there. The closure is called where it is, and else not at all. It answers
/// `Replaced` or `Missing`. The faults are `Fault::Capacity`, where no table can follow the map's last one, and `Fault::Memory`; then no pair has changed,
/// and the key comes back.
pub(crate) fn update<
    K: Eq + Hash + Drop,
    V: Drop,
    S: BuildHasher,
    R: Receiver<(K, V)>,
    F: FnOnce(&V) -> V,
>(map: &mut HashMap<K, V, S, R>, key: K, make: F) -> Result<Change, RefusedKey<K>>
    requires callable { ForSome (found_by (K.eq key) map.old.pairs) (λ x. FnOnceTakesAt F.FnOnce make x.1) }
    ensures done { IfOk result (λ done. HasDone (K.eq key) (Some key) (Updating (FnOnceReturnsAt F.FnOnce make)) map.old.pairs (HasNow map.new) done) }
    ensures refused { OnErr result (HasNow map.new map.old.pairs None None) }
    ensures fault { IfErr result (λ r. IsRoom r.fault) }
    ensures capacity { IfErr result (λ r. r.fault ≡ Capacity → CannotGrow map.new.tables) }
    ensures back { IfErr result (λ r. r.key ≡ key) }
    ensures hasher { map.new.hasher ≡ map.old.hasher }
    ensures keeps { Keeps (stored_in result map.new.met) map.old map.new }
{
    owner_rests::update(
        &mut map.resting.memory,
        map.resting.setting,
        &map.hasher,
        &mut map.resting.last,
        key,
        make,
    )
}

/// Replaces the value of a key by one that is made of it, if the key is there, and else stores one that is begun. The closure that is called is the
/// one of the two. It answers `Replaced` or `Stored`. The faults are `Fault::Capacity`, where no table can follow the map's last one, and `Fault::Memory`;
/// then no pair has changed, and the key comes back.
pub(crate) fn update_or_insert_with<
    K: Eq + Hash + Drop,
    V: Drop,
    S: BuildHasher,
    R: Receiver<(K, V)>,
    F: FnOnce(&V) -> V,
    B: FnOnce() -> V,
>(map: &mut HashMap<K, V, S, R>, key: K, make: F, begin: B) -> Result<Change, RefusedKey<K>>
    requires begins { ForNone (found_by (K.eq key) map.old.pairs) (B.pre begin) }
    requires makes { ForSome (found_by (K.eq key) map.old.pairs) (λ x. FnOnceTakesAt F.FnOnce make x.1) }
    ensures done { IfOk result (λ done. HasDone (K.eq key) (Some key) (UpdatingOrStoring (FnOnceReturnsAt F.FnOnce make) (λ value. FnOnceReturns B.FnOnce begin tt value)) map.old.pairs (HasNow map.new) done) }
    ensures refused { OnErr result (HasNow map.new map.old.pairs None None) }
    ensures fault { IfErr result (λ r. IsRoom r.fault) }
    ensures capacity { IfErr result (λ r. r.fault ≡ Capacity → CannotGrow map.new.tables) }
    ensures back { IfErr result (λ r. r.key ≡ key) }
    ensures hasher { map.new.hasher ≡ map.old.hasher }
    ensures keeps { Keeps (stored_in result map.new.met) map.old map.new }
{
    owner_rests::update_or_insert_with(
        &mut map.resting.memory,
        map.resting.setting,
        &map.hasher,
        &mut map.resting.last,
        key,
        begin,
        make,
    )
}

/// Stores a value that is begun, if its key is not there yet. The closure is called where it is not, and else not at all. It answers `Stored` or
/// `Kept`. The faults are `Fault::Capacity`, where no table can follow the map's last one, and `Fault::Memory`; then no pair has changed, and the key
/// comes back.
pub(crate) fn try_insert_with<
    K: Eq + Hash + Drop,
    V: Drop,
    S: BuildHasher,
    R: Receiver<(K, V)>,
    B: FnOnce() -> V,
>(map: &mut HashMap<K, V, S, R>, key: K, begin: B) -> Result<Change, RefusedKey<K>>
    requires callable { ForNone (found_by (K.eq key) map.old.pairs) (B.pre begin) }
    ensures done { IfOk result (λ done. HasDone (K.eq key) (Some key) (Storing (λ value. FnOnceReturns B.FnOnce begin tt value)) map.old.pairs (HasNow map.new) done) }
    ensures refused { OnErr result (HasNow map.new map.old.pairs None None) }
    ensures fault { IfErr result (λ r. IsRoom r.fault) }
    ensures capacity { IfErr result (λ r. r.fault ≡ Capacity → CannotGrow map.new.tables) }
    ensures back { IfErr result (λ r. r.key ≡ key) }
    ensures hasher { map.new.hasher ≡ map.old.hasher }
    ensures keeps { Keeps (stored_in result map.new.met) map.old map.new }
{
    owner_rests::try_insert_with(
        &mut map.resting.memory,
        map.resting.setting,
        &map.hasher,
        &mut map.resting.last,
        key,
        begin,
    )
}

/// Replaces the value of a key by one that is made of it, if the key is there, and else stores this one. The closure is called where the key is there,
/// and else not at all. It answers `Replaced` or `Stored`. The faults are `Fault::Capacity`, where no table can follow the map's last one, and `Fault::Memory`;
/// then no pair has changed, and the key and this value come back.
pub(crate) fn update_or_insert<
    K: Eq + Hash + Drop,
    V: Drop,
    S: BuildHasher,
    R: Receiver<(K, V)>,
    F: FnOnce(&V) -> V,
>(map: &mut HashMap<K, V, S, R>, key: K, make: F, value: V) -> Result<Change, Refused<K, V>>
    requires callable { ForSome (found_by (K.eq key) map.old.pairs) (λ x. FnOnceTakesAt F.FnOnce make x.1) }
    ensures done { IfOk result (λ done. HasDone (K.eq key) (Some key) (UpdatingOrStoring (FnOnceReturnsAt F.FnOnce make) (λ new. new ≡ value)) map.old.pairs (HasNow map.new) done) }
    ensures refused { OnErr result (HasNow map.new map.old.pairs None None) }
    ensures fault { IfErr result (λ r. IsRoom r.fault) }
    ensures capacity { IfErr result (λ r. r.fault ≡ Capacity → CannotGrow map.new.tables) }
    ensures back { IfErr result (λ r. (r.key ≡ key) × (r.value ≡ value)) }
    ensures hasher { map.new.hasher ≡ map.old.hasher }
    ensures keeps { Keeps (stored_in result map.new.met) map.old map.new }
{
    owner_rests::update_or_insert(
        &mut map.resting.memory,
        map.resting.setting,
        &map.hasher,
        &mut map.resting.last,
        key,
        value,
        make,
    )
}

//! A call on a map for one owner that computes what is to be done with a key. It begins with a refresh.
ghost use Rattle.std.specs.Prelude.{◌≡◌, None, Some, IfOk, IfErr, OnErr};
ghost use Rattle.std.specs.Borrow.{sem};
ghost use Rattle.owner_asks.specs.Asks.Closures.{Computing, ComputesAs, ComputingTakes};
ghost use Rattle.map_straight.specs.Shown.Chain.{CannotGrow};
ghost use Rattle.seize_words.specs.declared.fault.Fault.TheVariants.{Capacity};
ghost use Rattle.owner_rests.specs.Given.{found_by};
ghost use Rattle.owner_rests.specs.Rests.Asking.{HasComputed, IsRefusedFor};
ghost use Rattle.owner_map.specs.Answers.{IsRefused, QuiescentUnless};
ghost use Rattle.owner_map.specs.Computes as computes;
ghost use Rattle.owner_rests.specs.Rests.Held.{stored_computing};
ghost use Rattle.owner_rests.specs.ShowsPairs.Maps.{HasNow, Keeps};

use crate::answers::{Aborted, Compute, Present, Removed, Updated};
use crate::map::HashMap;
use owner_asks::RefusedKey;
use owner_rests::{Change, ComputedChange as Done};
use seize_words::{Operation, Receiver};
use std::hash::{BuildHasher, Hash};

/// Stores a value for a key, removes its pair, or leaves it, as a computing says, which is called with the pair that is there, or with none. The faults are
/// `Fault::Capacity`, where no table can follow the map's last one, `Fault::Memory`, and `Fault::RemoveNothing`, where it says that the pair is to be removed
/// that is not there; then no pair has changed, and the key comes back.
fn decided<
    K: Eq + Hash + Drop,
    V: Drop,
    S: BuildHasher,
    R: Receiver<(K, V)>,
    T: Drop,
    F: FnOnce(Option<(&K, &V)>) -> Operation<V, T>,
>(map: &mut HashMap<K, V, S, R>, key: K, decide: F) -> Result<Done<T>, RefusedKey<K>>
    requires callable { ComputingTakes F.FnOnce decide (found_by (K.eq key) map.old.pairs) }
    ensures done { IfOk result (λ done. HasComputed (K.eq key) (Some key) (ComputesAs F.FnOnce decide) map.old.pairs (HasNow map.new) done) }
    ensures refused { OnErr result (HasNow map.new map.old.pairs None None) }
    ensures fault { IfErr result (λ r. IsRefusedFor (K.eq key) (Computing (ComputesAs F.FnOnce decide)) map.old.pairs r.fault) }
    ensures capacity { IfErr result (λ r. r.fault ≡ Capacity → CannotGrow map.new.tables) }
    ensures back { IfErr result (λ r. r.key ≡ key) }
    ensures hasher { map.new.hasher ≡ map.old.hasher }
    ensures keeps { Keeps (stored_computing result map.new.met) map.old map.new }
{
    owner_rests::compute(
        &mut map.resting.memory,
        map.resting.setting,
        &map.hasher,
        &mut map.resting.last,
        key,
        decide,
    )
}

impl<K: Eq + Hash + Drop, V: Drop, S: BuildHasher, R: Receiver<(K, V)>> HashMap<K, V, S, R> {
    /// Stores a value for a key, removes its pair, or leaves it, as a computing says, which is called with the pair that is there, or with none; and lends what
    /// was stored, replaced or removed. The faults are `Fault::Capacity`, where no table can follow the map's last one, `Fault::Memory`, and
    /// `Fault::RemoveNothing`, where it says that the pair is to be removed that is not there; then no pair has changed, and the key comes back.
    pub fn compute<T: Drop, F: FnOnce(Option<(&K, &V)>) -> Operation<V, T>>(
        &mut self,
        key: K,
        decide: F,
    ) -> Result<Compute<'_, K, V, S, T, R>, RefusedKey<K>>
        requires callable { ComputingTakes F.FnOnce decide (found_by (K.eq key) self.old.pairs) }
        ensures* after { sem 𝓛 (QuiescentUnless K.row V.row S.row R.row S.Hasher.row K.Hash S.BuildHasher S.Hasher.Hasher self.entry result (λ done. computes.name_of done) (λ map. IfErr result (λ r. IsRefused self.old map r.fault))) }
        ensures same { IfOk result (λ done. computes.name_of done ≡ self.entry.ghost_name) }
        ensures done { IfOk result (λ done. computes.HasComputed (K.eq key) key (ComputesAs F.FnOnce decide) self.old done) }
        ensures shown { IfOk result (λ done. computes.IsShown done) }
        ensures fault { IfErr result (λ r. IsRefusedFor (K.eq key) (Computing (ComputesAs F.FnOnce decide)) self.old.pairs r.fault) }
        ensures back { IfErr result (λ r. r.key ≡ key) }
        ensures hasher { IfOk result (λ done. computes.IsNow done (λ map. map.hasher ≡ self.old.hasher)) }
    {
        match decided(self, key, decide) {
            Ok(Done::Changed(Change::Stored)) => Ok(Compute::Inserted(Present { map: self })),
            Ok(Done::Changed(Change::Replaced)) => Ok(Compute::Updated(Updated { map: self })),
            Ok(Done::Changed(Change::Removed)) => Ok(Compute::Removed(Removed { map: self })),
            Ok(Done::Changed(Change::Missing)) => unreachable!(),
            Ok(Done::Changed(Change::Kept)) => unreachable!(),
            Ok(Done::Aborted(why)) => Ok(Compute::Aborted(Aborted {
                map: self,
                why: Some(why),
            })),
            Err(refused) => Err(refused),
        }
    }
}

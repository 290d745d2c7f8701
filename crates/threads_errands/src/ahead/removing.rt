//! A seat removes the pair of its call's key by straight code, from the root on.
ghost use Rattle.std.specs.Prelude.{◌≡◌};
ghost use Rattle.threads_errands.specs.Ahead.{IsAhead, IsSameAhead};
ghost use Rattle.threads_errands.specs.Takes.{HasTaken, HasTakenOut};
ghost use Rattle.map_straight.specs.Straight.Removing.{seeking};
ghost use Rattle.papaya_raw.specs.CallPoints.{untried};
ghost use Rattle.papaya_raw.specs.declared.machines.call.Calling.TheVariants as at;

use crate::ahead::Ahead;
use map_straight::{RemovalAt, remove};
use map_tables::{Equivalent, Hashes, Setting};
use std::hash::Hash;

impl<'a, K: Eq + Hash, V, S: Hashes<K>> Ahead<'a, K, V, S> {
    /// Removes the pair of its call's key, for which this stands, as far as straight code goes.
    #[inline(always)]
    fn takes<Q: Equivalent<K>>(
        &mut self,
        hasher: &S,
        setting: Setting,
        hash: u64,
        key: &Q,
    ) -> RemovalAt
        requires ahead { IsAhead K.eq S.hash hasher.now (seeking setting hash (Q.stands_for key.now) untried at.Roots) self.old.seat.now.view }
        ensures taken { HasTaken K.eq S.hash hasher.now setting hash (Q.stands_for key.now) result self.old.seat.now.view self.new.seat.now.view }
        ensures same { IsSameAhead self.old self.new }
    {
        remove::<K, V, Q, S, Self>(self, hasher, setting, hash, key)
    }

    /// Removes the pair of its call's key, for which this stands, and ends the call, as far as straight code goes.
    #[inline(always)]
    pub(crate) fn removes<Q: Equivalent<K>>(
        &mut self,
        hasher: &S,
        setting: Setting,
        hash: u64,
        key: &Q,
    ) -> RemovalAt
        requires ahead { IsAhead K.eq S.hash hasher.now (seeking setting hash (Q.stands_for key.now) untried at.Roots) self.old.seat.now.view }
        ensures taken { HasTakenOut K.eq S.hash hasher.now setting hash (Q.stands_for key.now) result self.old.seat.now.view self.new.seat.now.view }
        ensures same { IsSameAhead self.old self.new }
    {
        match self.takes(hasher, setting, hash, key) {
            RemovalAt::Answered(answer) => {
                self.ends(answer);
                RemovalAt::Answered(answer)
            }
            RemovalAt::Stands(trial, removal) => RemovalAt::Stands(trial, removal),
        }
    }
}

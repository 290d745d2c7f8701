//! A seat on an errand begins a call that is to remove the pair of a key.
ghost use Rattle.std.specs.Prelude.{◌≡◌};
ghost use Rattle.threads_rule.specs.Given.ActsActs.{Remove};
ghost use Rattle.threads_rule.specs.Errands.Calling.{IsCalling, MayCall};
ghost use Rattle.threads_rule.specs.Errands.Looking.{Begins};
ghost use Rattle.threads_steps.specs.Made.{IsSameSeat};
ghost use Rattle.papaya_raw.specs.CallPoints.{removing};
ghost use Rattle.papaya_raw.specs.declared.machines.machine.Machine.TheVariants.{Key as KeyMachine};

use crate::within::Within;
use map_tables::{Equivalent, Hashes, Setting};
use std::hash::Hash;
use std::marker::Brand;

impl<'a, K: Eq + Hash, V, S: Hashes<K>> Within<'a, K, V, S> {
    /// Begins to remove the pair of the key for which this stands from the map that it knows, within its section.
    pub fn begins_to_remove<Q: Equivalent<K>>(
        &mut self,
        _hasher: &S,
        _setting: Setting,
        _hash: u64,
        key: &Q,
    )
        requires may { MayCall K.eq S.hash _hasher.now (KeyMachine (removing _setting _hash (Q.stands_for key.now))) self.old.seat.now.view }
        ensures begun { Begins K.eq S.hash (Remove (Q.stands_for key.now)) self.old.seat.now.view self.new.seat.now.view }
        ensures calls { IsCalling _hasher.now (KeyMachine (removing _setting _hash (Q.stands_for key.now))) self.new.seat.now.view }
        ensures same { IsSameSeat self.old self.new }
    {
        self.begins_on_as::<Brand, Q>(key);
    }
}

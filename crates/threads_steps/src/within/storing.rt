//! A seat on an errand begins a call that is to store a pair.
ghost use Rattle.std.specs.Prelude.{◌≡◌, ℕ, Some};
ghost use Rattle.threads_rule.specs.Errands.Calling.{IsCalling, MayCall, wanted_of};
ghost use Rattle.threads_rule.specs.Errands.Looking.{Begins};
ghost use Rattle.threads_steps.specs.Made.{IsSameSeat};
ghost use Rattle.threads_steps.specs.Storing.{making};
ghost use Rattle.papaya_raw.specs.declared.machines.machine.Machine.TheVariants.{Key as KeyMachine};
ghost use Rattle.threads_rule.specs.Views.Rule.{MayWant, section_of};
ghost use Rattle.threads_rule.specs.declared.view.Map.{Map};
ghost use Rattle.threads_rule.specs.declared.view.SeatWork.TheVariants.{Nothing as NoWork};

use crate::turns::{Beginning, Wants};
use crate::within::Within;
use map_tables::{Hashes, Node, Setting};
use papaya_raw::machines::There;
use std::marker::Brand;

impl<'a, K: Eq, V, S: Hashes<K>> Within<'a, K, V, S> {
    /// Begins a call with this pair, as it is picked.
    fn begins_with_as<B: Wants<K, V>>(&mut self, _there: There, _pair: &Node<K, V>)
        requires inside { (t : ℕ) × (section_of self.old.seat.now.view.under self.old.seat.now.view.slot ≡ Some t) }
        requires knows { (map : Map S) × (self.old.seat.now.view.map ≡ Some map) × MayWant K.eq S.hash self.old.seat.now.view.under map B.wanted }
        requires free { self.old.seat.now.view.work ≡ NoWork }
        ensures begins { Begins K.eq S.hash B.wanted self.old.seat.now.view self.new.seat.now.view }
        ensures same { IsSameSeat self.old self.new }
    {
        self.blocks.turn::<Beginning<B>>(&mut *self.seat);
    }

    /// Begins to store this pair in the map that it knows, within its section.
    pub fn begins_to_store(
        &mut self,
        _hasher: &S,
        _setting: Setting,
        _hash: u64,
        there: There,
        pair: &Node<K, V>,
    )
        requires may { MayCall K.eq S.hash _hasher.now (KeyMachine (making _setting _hash there pair.now)) self.old.seat.now.view }
        ensures begun { Begins K.eq S.hash (wanted_of (KeyMachine (making _setting _hash there pair.now))) self.old.seat.now.view self.new.seat.now.view }
        ensures calls { IsCalling _hasher.now (KeyMachine (making _setting _hash there pair.now)) self.new.seat.now.view }
        ensures same { IsSameSeat self.old self.new }
    {
        self.begins_with_as::<Brand>(there, pair);
    }
}

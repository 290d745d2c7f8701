//! A seat on an errand looks a key up.
ghost use Rattle.std.specs.Prelude.{◌≡◌, ℕ, Some};
ghost use Rattle.threads_rule.specs.Given.ActsActs.{Get};
ghost use Rattle.threads_rule.specs.Errands.Looking.{Begins, HasCome, HasLooked, HasSeen, HasProgressed, LookedSo, LooksFor, MayLook, StaysThere, found_of, progress_of_lookup};
ghost use Rattle.threads_steps.specs.Made.{IsSameSeat};
ghost use Rattle.map_machines.specs.Lookup.{looking};
ghost use Rattle.threads_rule.specs.Views.Rule.{MayWant, section_of};
ghost use Rattle.threads_rule.specs.declared.view.Map.{Map};
ghost use Rattle.threads_rule.specs.declared.view.SeatWork.TheVariants.{Nothing as NoWork};

use crate::turns::{Beginning, Wants};
use crate::within::Within;
use map_machines::Lookup;
use map_straight::{Sight, look_up};
use map_tables::{Equivalent, Hashes, ResizeMode};
use seize::Advance;
use std::hash::Hash;
use std::marker::Brand;
use std::sync::Wait;

impl<'a, K: Eq, V, S: Hashes<K>> Within<'a, K, V, S> {
    /// Begins a call, as it is picked by this.
    pub(super) fn begins_on_as<B: Wants<K, V>, Q>(&mut self, _key: &Q)
        requires inside { (t : ℕ) × (section_of self.old.seat.now.view.under self.old.seat.now.view.slot ≡ Some t) }
        requires knows { (map : Map S) × (self.old.seat.now.view.map ≡ Some map) × MayWant K.eq S.hash self.old.seat.now.view.under map B.wanted }
        requires free { self.old.seat.now.view.work ≡ NoWork }
        ensures begins { Begins K.eq S.hash B.wanted self.old.seat.now.view self.new.seat.now.view }
        ensures same { IsSameSeat self.old self.new }
    {
        self.blocks.turn::<Beginning<B>>(&mut *self.seat);
    }
}

impl<'a, K: Eq + Hash, V, S: Hashes<K>> Within<'a, K, V, S> {
    /// Begins to look this key up in the map that it knows, within its section.
    fn begins_to_look<Q: Equivalent<K>>(&mut self, key: &Q)
        requires inside { (t : ℕ) × (section_of self.old.seat.now.view.under self.old.seat.now.view.slot ≡ Some t) }
        requires knows { (map : Map S) × (self.old.seat.now.view.map ≡ Some map) }
        requires free { self.old.seat.now.view.work ≡ NoWork }
        ensures begins { Begins K.eq S.hash (Get (Q.stands_for key.now)) self.old.seat.now.view self.new.seat.now.view }
        ensures same { IsSameSeat self.old self.new }
    {
        self.begins_on_as::<Brand, Q>(key);
    }

    /// Takes the next step of its lookup.
    fn looks<Q: Equivalent<K>>(&mut self, lookup: &mut Lookup, key: &Q) -> Advance<Option<u64>>
        requires looks { LooksFor (Q.stands_for key.now) lookup.old self.old.seat.now.view }
        ensures told { LookedSo K.eq (Q.stands_for key.now) lookup.new result self.new.seat.now.view }
        ensures calls { HasProgressed (progress_of_lookup result) self.old.seat.now.view self.new.seat.now.view }
        ensures stays { StaysThere self.old.seat.now.view self.new.seat.now.view }
        ensures same { IsSameSeat self.old self.new }
    {
        lookup.step(self, key)
    }

    /// Takes the steps of its lookup until it has ended. A lookup goes on to a later table where pairs are copied there, so how many steps it takes is up to the others.
    pub fn goes_through<R: Wait, Q: Equivalent<K>>(
        &mut self,
        rt: &R,
        lookup: Lookup,
        key: &Q,
    ) -> Option<u64>
        requires looks { LooksFor (Q.stands_for key.now) lookup self.old.seat.now.view }
        ensures looked { HasLooked K.eq (Q.stands_for key.now) result self.new.seat.now.view }
        ensures told { HasProgressed (found_of result) self.old.seat.now.view self.new.seat.now.view }
        ensures stays { StaysThere self.old.seat.now.view self.new.seat.now.view }
        ensures same { IsSameSeat self.old self.new }
    {
        let mut lookup = lookup;
        for _ in rt.forever() {
            match self.looks(&mut lookup, key) {
                Advance::Goes => {}
                Advance::Done(found) => return found,
                Advance::Waits | Advance::Refused(_) => unreachable!(),
            }
        }
        unreachable!()
    }

    /// Looks the key up by straight code, as far as that goes: over the tries at the root's table.
    #[inline(always)]
    fn looks_up<Q: Equivalent<K>>(
        &mut self,
        root: u64,
        mode: ResizeMode,
        hash: u64,
        key: &Q,
    ) -> Sight
        requires looks { LooksFor (Q.stands_for key.now) (looking root mode hash) self.old.seat.now.view }
        ensures come { HasCome K.eq (Q.stands_for key.now) root mode hash result self.old.seat.now.view self.new.seat.now.view }
        ensures stays { StaysThere self.old.seat.now.view self.new.seat.now.view }
        ensures same { IsSameSeat self.old self.new }
    {
        look_up::<K, V, Q, Self>(self, root, mode, hash, key)
    }

    /// Begins to look the key up within its section, and looks by straight code.
    #[inline(always)]
    pub fn sees<Q: Equivalent<K>>(
        &mut self,
        root: u64,
        mode: ResizeMode,
        hash: u64,
        key: &Q,
    ) -> Sight
        requires may { MayLook S.hash (Q.stands_for key.now) (looking root mode hash) self.old.seat.now.view }
        ensures seen { HasSeen K.eq S.hash (Q.stands_for key.now) root mode hash result self.old.seat.now.view self.new.seat.now.view }
        ensures same { IsSameSeat self.old self.new }
    {
        self.begins_to_look(key);
        self.looks_up(root, mode, hash, key)
    }
}

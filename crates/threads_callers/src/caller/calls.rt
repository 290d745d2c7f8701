//! A caller is sent to make a map, to look a key up, to store a pair, to remove one, to run a call, and to count the pairs of a map.
ghost use Rattle.std.specs.Prelude.{◌≡◌, IfOk, IsSome, Some, None, false};
ghost use Rattle.std.specs.Fn.{FnOnceReturns};
ghost use Rattle.threads_errands.specs.Given.StepsAsking.{HasAnswered, MakingSays, MayTest, TestSays, makes_pair as kind_that_makes, removes_if as kind_that_tests};
ghost use Rattle.threads_errands.specs.Given.ErrandsCalling.{HasCalled, IsAnswerBy, MayCall, MayDoAs, wanted_of};
ghost use Rattle.threads_errands.specs.Given.ErrandsCounting.{HasCounted, MayCount};
ghost use Rattle.threads_errands.specs.Given.CallKindsKinds.{Stage};
ghost use Rattle.threads_errands.specs.Given.ActsActs.{Remove, RemoveIf};
ghost use Rattle.threads_errands.specs.Given.StepsStoring.{making};
ghost use Rattle.papaya_raw.specs.CallAsks.{removing_if};
ghost use Rattle.papaya_raw.specs.CallPoints.{removing};
ghost use Rattle.papaya_raw.specs.declared.machines.machine.Machine.TheVariants.{Key as KeyMachine};
ghost use Rattle.threads_errands.specs.Given.ErrandsLooking.{HasFound, MayLook};
ghost use Rattle.threads_errands.specs.Given.ErrandsMaking.{HasOutcome, MayBegin};
ghost use Rattle.threads_errands.specs.Given.ViewsLooks.{shown_in};
ghost use Rattle.threads_errands.specs.Given.ViewsRule.{Holds};
ghost use Rattle.threads_errands.specs.Given.ViewsDeclared.view.SeatWork.TheVariants.{Nothing as NoWork};
ghost use Rattle.seize_seats.specs.Seats.Lendings.{IsValueOf};
ghost use Rattle.seize_views.specs.declared.view.SlotView.TheVariants.{Rests};

use crate::caller::MapCaller;
use map_machines::{Lookup, NewMap};
use map_tables::{Equivalent, Hashes, Node, Setting};
use papaya_raw::machines::{Answer, Machine, There};
use seize_words::Fault;
use std::hash::Hash;
use std::sync::Wait;
use threads_errands::{Counts, Does, Finds, Makes, MakesPair, Ran, Removes, RemovesIf, Stores};

impl<'a, K: Eq + Drop, V: Drop, S: Hashes<K>> MapCaller<'a, K, V, S> {
    /// Makes a map of no table by this machine, with this hasher, and knows it then. Where no root is free, or memory is refused, there is none, and it knows what it
    /// has known before.
    pub fn makes_map(&mut self, hasher: &S, opening: NewMap) -> Result<Setting, Fault>
        requires may { MayBegin self.old.blocks.now.words.fixed opening }
        requires rests { self.old.seat.view.slot ≡ Rests }
        requires free { self.old.seat.view.work ≡ NoWork }
        ensures made { HasOutcome hasher.now opening result self.old.seat.view self.new.seat.view }
        ensures blocks { self.new.blocks ≡ self.old.blocks }
    {
        self.blocks
            .errand(&mut self.seat, Makes { hasher, opening })
    }
}

impl<'a, K: Eq + Hash, V, S: Hashes<K>> MapCaller<'a, K, V, S> {
    /// Looks this key up within its section, by this lookup, and answers the word that names the pair found. How many steps it takes is up to the others.
    pub fn finds<R: Wait, Q: Equivalent<K>>(
        &mut self,
        rt: &R,
        lookup: Lookup,
        key: &Q,
    ) -> Option<u64>
        requires may { MayLook S.hash (Q.stands_for key.now) lookup self.old.seat.view }
        ensures found { HasFound K.eq S.hash (Q.stands_for key.now) result self.old.seat.view self.new.seat.view }
        ensures blocks { self.new.blocks ≡ self.old.blocks }
    {
        self.blocks
            .errand(&mut self.seat, Finds { rt, key, lookup })
    }
}

impl<'a, K: Eq + Hash + Drop, V: Drop, S: Hashes<K>> MapCaller<'a, K, V, S> {
    /// Runs this call, which asks nothing, within its section, on the map that it knows, and answers what it has told, and its own pair where that was not stored.
    pub fn does<R: Wait>(&mut self, rt: &R, hasher: &S, machine: Machine<K, V>) -> Ran<K, V>
        requires may { MayCall K.eq S.hash hasher.now machine self.old.seat.view }
        ensures called { HasCalled K.eq S.hash (wanted_of machine) result.told result.unstored self.old.seat.view self.new.seat.view }
        ensures fits { IfOk result.told (IsAnswerBy machine) }
        ensures blocks { self.new.blocks ≡ self.old.blocks }
    {
        let mut machine = machine;
        let ran = self.blocks.errand(
            &mut self.seat,
            Does {
                rt,
                sleepers: self.sleepers,
                hasher,
                machine: &mut machine,
                near: self.near,
            },
        );
        self.near = ran.near;
        ran
    }

    /// Stores this pair within its section, in the map that it knows, and answers what the call has told, and the pair where it was not stored.
    pub fn stores<R: Wait>(
        &mut self,
        rt: &R,
        hasher: &S,
        setting: Setting,
        hash: u64,
        there: There,
        pair: Node<K, V>,
    ) -> Ran<K, V>
        requires may { MayCall K.eq S.hash hasher.now (KeyMachine (making setting hash there pair)) self.old.seat.view }
        ensures called { HasCalled K.eq S.hash (wanted_of (KeyMachine (making setting hash there pair))) result.told result.unstored self.old.seat.view self.new.seat.view }
        ensures blocks { self.new.blocks ≡ self.old.blocks }
    {
        let ran = self.blocks.errand(
            &mut self.seat,
            Stores {
                rt,
                sleepers: self.sleepers,
                hasher,
                setting,
                hash,
                there,
                pair,
                near: self.near,
            },
        );
        self.near = ran.near;
        ran
    }

    /// Removes the pair of the key for which this stands within its section, from the map that it knows, and answers what the call has told.
    pub fn removes<R: Wait, Q: Equivalent<K>>(
        &mut self,
        rt: &R,
        hasher: &S,
        setting: Setting,
        hash: u64,
        key: &Q,
    ) -> Result<Answer, Fault>
        requires may { MayCall K.eq S.hash hasher.now (KeyMachine (removing setting hash (Q.stands_for key.now))) self.old.seat.view }
        ensures called { HasCalled K.eq S.hash (Remove (Q.stands_for key.now)) result None self.old.seat.view self.new.seat.view }
        ensures blocks { self.new.blocks ≡ self.old.blocks }
    {
        self.blocks.errand(
            &mut self.seat,
            Removes {
                rt,
                sleepers: self.sleepers,
                hasher,
                setting,
                hash,
                key,
            },
        )
    }

    /// Counts the pairs of the map that it knows, within its section, by this machine.
    pub fn counts(&mut self, hasher: &S, machine: Machine<K, V>) -> u64
        requires may { MayCount K.eq S.hash hasher.now machine self.old.seat.view }
        ensures counted { HasCounted K.eq S.hash result self.old.seat.view self.new.seat.view }
        ensures blocks { self.new.blocks ≡ self.old.blocks }
    {
        let mut machine = machine;
        self.blocks.errand(
            &mut self.seat,
            Counts {
                hasher,
                machine: &mut machine,
            },
        )
    }
}

impl<'a, K: Eq + Hash + Drop, V: Drop, S: Hashes<K>> MapCaller<'a, K, V, S> {
    /// Stores a value that is made where the key is missing.
    pub fn makes_pair<R: Wait, F: FnOnce() -> V>(
        &mut self,
        rt: &R,
        hasher: &S,
        machine: Machine<K, V>,
        make: F,
    ) -> Ran<K, V>
        requires may { (s : Stage) × (s.told ≡ false) × MayDoAs K.eq S.hash kind_that_makes s hasher.now machine self.old.seat.view }
        requires callable { F.pre make }
        ensures answered { HasAnswered K.eq S.hash (MakingSays (FnOnceReturns F.FnOnce make tt)) (wanted_of machine) result.told self.old.seat.view self.new.seat.view }
        ensures blocks { self.new.blocks ≡ self.old.blocks }
    {
        let mut machine = machine;
        let ran = self.blocks.errand(
            &mut self.seat,
            MakesPair {
                rt,
                sleepers: self.sleepers,
                hasher,
                machine: &mut machine,
                near: self.near,
                make,
            },
        );
        self.near = ran.near;
        ran
    }

    /// Removes the pair of the key for which this stands, if this test says yes of it.
    pub fn removes_if<R: Wait, Q: Equivalent<K>, F: Fn(&K, &V) -> bool>(
        &mut self,
        rt: &R,
        hasher: &S,
        setting: Setting,
        hash: u64,
        key: &Q,
        test: &F,
    ) -> Ran<K, V>
        requires may { (s : Stage) × MayDoAs K.eq S.hash kind_that_tests s hasher.now (KeyMachine (removing_if setting hash (Q.stands_for key.now))) self.old.seat.view }
        requires callable { F.IsAlwaysCallable test.now }
        ensures answered { HasAnswered K.eq S.hash (TestSays (MayTest F.Fn test.now)) (RemoveIf (Q.stands_for key.now)) result.told self.old.seat.view self.new.seat.view }
        ensures blocks { self.new.blocks ≡ self.old.blocks }
    {
        let ran = self.blocks.errand(
            &mut self.seat,
            RemovesIf {
                rt,
                sleepers: self.sleepers,
                hasher,
                setting,
                hash,
                key,
                near: self.near,
                test,
            },
        );
        self.near = ran.near;
        ran
    }
}

impl<'a, K: Eq, V, S: Hashes<K>> MapCaller<'a, K, V, S> {
    /// Returns the value of a block that it shows, for as long as it is borrowed.
    pub fn pair(&self, block: u64) -> &Node<K, V>
        requires shown { IsSome (shown_in self.now.seat.view.held block) }
        ensures value { IsValueOf (Holds K.eq S.hash self.now.blocks.now.words.fixed) self.now.seat.id self.now.seat.view block result.now }
        ensures shown { shown_in self.now.seat.view.held block ≡ Some result.now }
    {
        self.blocks.value(&self.seat, block)
    }
}

//! A seat on an errand makes a map of no table, for itself or for good.
ghost use Rattle.std.specs.Prelude.{◌≡◌, Bool, None, true};
ghost use Rattle.threads_steps.specs.Made.{IsSameSeat};
ghost use Rattle.threads_rule.specs.Errands.Making.{BeginsMaking, HasComeSo, IsThis, KnowsStill, MadeSo, MakesMap, MayBegin, PlansJust};
ghost use Rattle.threads_kinds.specs.Makings.{GetsOn, StaysChosen};
ghost use Rattle.threads_rule.specs.Views.Rule.{side_of};
ghost use Rattle.threads_rule.specs.declared.view.SeatWork.TheVariants.{Nothing as NoWork};
ghost use Rattle.seize_views.specs.declared.view.SlotView.TheVariants.{Rests};

use crate::turns::{MapMakingBegins, Plans};
use crate::within::Within;
use map_machines::NewMap;
use map_tables::{Hashes, Setting};
use seize::{Advance, StepMachine};
use seize_words::Fault;
use std::marker::Brand;

impl<'a, K: Eq, V, S: Hashes<K>> Within<'a, K, V, S> {
    /// Begins to make a map, as it is picked.
    fn begins_to_make_as<B: Plans<S>>(&mut self, _own: bool, _hasher: &S, _opening: &NewMap)
        requires plans { PlansJust B.plans _own _hasher.now _opening.now }
        requires may { MayBegin self.old.blocks.now.words.fixed _opening.now }
        requires rests { self.old.seat.now.view.slot ≡ Rests }
        requires free { self.old.seat.now.view.work ≡ NoWork }
        ensures begins { BeginsMaking (IsThis _own _hasher.now _opening.now) self.old.seat.now.view self.new.seat.now.view }
        ensures same { IsSameSeat self.old self.new }
    {
        self.blocks.turn::<MapMakingBegins<B>>(&mut *self.seat);
    }

    /// Begins to make a map of no table by this machine, with this hasher.
    fn begins_to_make(&mut self, own: bool, hasher: &S, opening: &NewMap)
        requires may { MayBegin self.old.blocks.now.words.fixed opening.now }
        requires rests { self.old.seat.now.view.slot ≡ Rests }
        requires free { self.old.seat.now.view.work ≡ NoWork }
        ensures begins { BeginsMaking (IsThis own hasher.now opening.now) self.old.seat.now.view self.new.seat.now.view }
        ensures same { IsSameSeat self.old self.new }
    {
        self.begins_to_make_as::<Brand>(own, hasher, opening);
    }
}

impl<'a, K: Eq + Drop, V: Drop, S: Hashes<K>> Within<'a, K, V, S> {
    /// Takes the next step of the making.
    fn makes(&mut self, _own: bool, opening: &mut NewMap) -> Advance<Setting>
        requires makes { (hasher : S) × MakesMap _own hasher opening.old self.old.seat.now.view }
        ensures told { (hasher : S) → MakesMap _own hasher opening.old self.old.seat.now.view → MadeSo _own hasher opening.new result self.new.seat.now.view }
        ensures knows { KnowsStill _own result self.old.seat.now.view self.new.seat.now.view }
        ensures chosen { StaysChosen opening.old opening.new result }
        ensures left { GetsOn opening.old opening.new result }
        ensures slot { side_of self.new.seat.now.view ≡ side_of self.old.seat.now.view }
        ensures calls { self.new.seat.now.view.calls ≡ self.old.seat.now.view.calls }
        ensures same { IsSameSeat self.old self.new }
    {
        opening.step(self)
    }

    /// Takes the steps of the making until it has ended.
    fn goes_on(&mut self, own: bool, _hasher: &S, opening: NewMap) -> Result<Setting, Fault>
        requires makes { MakesMap own _hasher.now opening self.old.seat.now.view }
        ensures made { HasComeSo own _hasher.now opening result self.old.seat.now.view self.new.seat.now.view }
        ensures same { IsSameSeat self.old self.new }
    {
        let mut opening = opening;
        loop {
            match self.makes(own, &mut opening) {
                Advance::Goes => {}
                Advance::Done(setting) => return Ok(setting),
                Advance::Refused(fault) => return Err(fault),
                Advance::Waits => unreachable!(),
            }
        }
    }

    /// Makes a map of no table by this machine, with this hasher: for itself, if it has none yet, or for good, so that it knows it then. Where no root is free, or
    /// memory is refused, there is none, and it knows what it has known before.
    pub fn makes_map(&mut self, own: bool, hasher: &S, opening: NewMap) -> Result<Setting, Fault>
        requires may { MayBegin self.old.blocks.now.words.fixed opening }
        requires rests { self.old.seat.now.view.slot ≡ Rests }
        requires free { self.old.seat.now.view.work ≡ NoWork }
        requires yet { own ≡ true → self.old.seat.now.view.own ≡ None }
        ensures made { HasComeSo own hasher.now opening result self.old.seat.now.view self.new.seat.now.view }
        ensures same { IsSameSeat self.old self.new }
    {
        self.begins_to_make(own, hasher, &opening);
        self.goes_on(own, hasher, opening)
    }
}

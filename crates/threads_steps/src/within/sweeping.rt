//! A seat on an errand goes over the pairs of a map: its walk is asked for the next pair, and its retaining is told whether one is to be kept.
ghost use Rattle.std.specs.Prelude.{◌≡◌, ℕ, Some};
ghost use Rattle.threads_rule.specs.Errands.Calling.{StepsTo};
ghost use Rattle.threads_rule.specs.Errands.Sweeping.{IsAskingOf, IsReady, IsSweeping, RetainedSo, WalkedSo};
ghost use Rattle.threads_rule.specs.Views.Begun.{asked, replied};
ghost use Rattle.threads_rule.specs.declared.view.Map.{Map};
ghost use Rattle.threads_rule.specs.declared.view.SeatWork.TheVariants.{Calls};
ghost use Rattle.threads_steps.specs.Asking.{reply_of};
ghost use Rattle.threads_steps.specs.Made.{IsSameSeat};
ghost use Rattle.threads_steps.specs.Steps.{HasStepped};
ghost use Rattle.papaya_raw.specs.Given.ReservesDeclared.sweep.Purpose.TheVariants.{Retains, Walks};

use crate::turns::{Asking, Asks};
use crate::within::Within;
use crate::within::asking::{said, taken};
use map_tables::{Hashes, Node};
use papaya_raw::machines::{Machine, Progress};
use std::hash::Hash;
use std::marker::Brand;

impl<'a, K: Eq + Hash + Drop, V: Drop, S: Hashes<K>> Within<'a, K, V, S> {
    /// Takes the next step of its walk.
    pub fn walks(&mut self, machine: &mut Machine<K, V>, hasher: &S) -> Progress<Node<K, V>>
        requires walks { IsSweeping Walks hasher.now machine.old self.old.seat.now.view }
        ensures told { WalkedSo hasher.now machine.new result self.new.seat.now.view }
        ensures by { HasStepped K.eq S.hash self.old.seat.now.view self.new.seat.now.view }
        ensures stepped { StepsTo K.eq S.hash hasher.now machine.old machine.new result self.old.seat.now.view self.new.seat.now.view }
        ensures same { IsSameSeat self.old self.new }
    {
        self.steps(machine, hasher)
    }

    /// Takes the next step of its retaining.
    pub fn retains(&mut self, machine: &mut Machine<K, V>, hasher: &S) -> Progress<Node<K, V>>
        requires retains { IsSweeping Retains hasher.now machine.old self.old.seat.now.view }
        ensures told { RetainedSo hasher.now machine.new result self.new.seat.now.view }
        ensures by { HasStepped K.eq S.hash self.old.seat.now.view self.new.seat.now.view }
        ensures stepped { StepsTo K.eq S.hash hasher.now machine.old machine.new result self.old.seat.now.view self.new.seat.now.view }
        ensures same { IsSameSeat self.old self.new }
    {
        self.steps(machine, hasher)
    }

    /// Asks its call for its next pair, as it is picked.
    fn asks_as<B: Asks<K, V>>(&mut self, _machine: &Machine<K, V>)
        requires machine { B.machine ≡ _machine.now }
        requires knows { (map : Map S) × (self.old.seat.now.view.map ≡ Some map) }
        requires works { self.old.seat.now.view.work ≡ Calls _machine.now }
        ensures asked { self.new.seat.now.view ≡ asked self.old.seat.now.view _machine.now }
        ensures same { IsSameSeat self.old self.new }
    {
        self.blocks.turn::<Asking<B>>(&mut *self.seat);
    }

    /// Asks its walk, which is ready, for its next pair.
    pub fn asks_next(&mut self, _hasher: &S, machine: &mut Machine<K, V>)
        requires ready { IsReady _hasher.now machine.old self.old.seat.now.view }
        ensures walks { IsSweeping Walks _hasher.now machine.new self.new.seat.now.view }
        ensures asked { self.new.seat.now.view ≡ asked self.old.seat.now.view machine.old }
        ensures same { IsSameSeat self.old self.new }
    {
        self.asks_as::<Brand>(machine);
        let _ = machine.next();
    }

    /// Tells its retaining, which asks about a pair, whether that is to be kept.
    pub fn keeps(&mut self, _hasher: &S, machine: &mut Machine<K, V>, keeps: bool)
        requires asks { (word : ℕ) × IsAskingOf _hasher.now word machine.old self.old.seat.now.view }
        ensures retains { IsSweeping Retains _hasher.now machine.new self.new.seat.now.view }
        ensures told { self.new.seat.now.view ≡ replied self.old.seat.now.view machine.old (reply_of keeps) }
        ensures same { IsSameSeat self.old self.new }
    {
        let reply = said(keeps);
        self.tells_as::<Brand, K>(machine, &reply);
        let back = machine.reply(reply);
        taken(back);
    }
}

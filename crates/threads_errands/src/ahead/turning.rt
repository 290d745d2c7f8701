//! The turns of a seat whose code runs ahead of its machine.
ghost use Rattle.std.specs.Prelude.{◌≡◌};
ghost use Rattle.threads_errands.specs.Ahead.{CatchesUp, HasEndedSo, IsEnding, IsSameAhead, LiesAhead, MakesNext, StandsAt};
ghost use Rattle.papaya_raw.specs.declared.machines.machine.Machine.{Machine as AnyMachine};
ghost use Rattle.threads_steps.specs.Given.ByKey.{by_key};

use crate::ahead::Ahead;
use crate::turns::{CatchingUp, EndingCall, Ends, Points, Reaching};
use map_tables::{Equivalent, Hashes};
use papaya_raw::machines::{KeyAnswer, Machine};
use std::hash::Hash;
use std::marker::Brand;

impl<'a, K: Eq, V, S: Hashes<K>> Ahead<'a, K, V, S> {
    /// Takes the turns up to the operation that the code makes next.
    #[inline(always)]
    pub(super) fn catches_up(&mut self)
        requires next { MakesNext K.eq S.hash self.old.seat.now.view }
        ensures caught { CatchesUp K.eq S.hash self.old.seat.now.view self.new.seat.now.view }
        ensures same { IsSameAhead self.old self.new }
    {
        self.blocks.turn::<CatchingUp>(&mut *self.seat);
    }

    /// Takes the turns with which its call ends, where the code has ended it, with this answer, as it is picked.
    fn ends_as<B: Ends>(&mut self, _answer: KeyAnswer)
        requires picked { B.answer ≡ _answer }
        requires ends { IsEnding K.eq S.hash _answer self.old.seat.now.view }
        ensures ended { HasEndedSo _answer self.old.seat.now.view self.new.seat.now.view }
        ensures same { IsSameAhead self.old self.new }
    {
        self.blocks.turn::<EndingCall<B>>(&mut *self.seat);
    }

    /// Takes the turns with which its call ends, where the code has ended it.
    #[inline(always)]
    pub(crate) fn ends(&mut self, answer: KeyAnswer)
        requires ends { IsEnding K.eq S.hash answer self.old.seat.now.view }
        ensures ended { HasEndedSo answer self.old.seat.now.view self.new.seat.now.view }
        ensures same { IsSameAhead self.old self.new }
    {
        self.ends_as::<Brand>(answer);
    }
}

impl<'a, K: Eq + Hash, V, S: Hashes<K>> Ahead<'a, K, V, S> {
    /// Takes the turns up to the point where the code stands, as it is picked.
    fn stands_as<B: Points<K, V>, Q: Equivalent<K>>(
        &mut self,
        _hasher: &S,
        _machine: &Machine<K, V, Q>,
    )
        requires picked { B.point (by_key Q.stands_for _machine.now) × ((machine : AnyMachine K V K) → B.point machine → machine ≡ (by_key Q.stands_for _machine.now)) }
        requires ahead { LiesAhead K.eq S.hash _hasher.now (by_key Q.stands_for _machine.now) self.old.seat.now.view }
        ensures stands { StandsAt (by_key Q.stands_for _machine.now) self.old.seat.now.view self.new.seat.now.view }
        ensures same { IsSameAhead self.old self.new }
    {
        self.blocks.turn::<Reaching<B>>(&mut *self.seat);
    }

    /// Takes the turns up to the point where the code stands.
    pub(crate) fn stands<Q: Equivalent<K>>(&mut self, hasher: &S, machine: &Machine<K, V, Q>)
        requires ahead { LiesAhead K.eq S.hash hasher.now (by_key Q.stands_for machine.now) self.old.seat.now.view }
        ensures stands { StandsAt (by_key Q.stands_for machine.now) self.old.seat.now.view self.new.seat.now.view }
        ensures same { IsSameAhead self.old self.new }
    {
        self.stands_as::<Brand, Q>(hasher, machine);
    }
}

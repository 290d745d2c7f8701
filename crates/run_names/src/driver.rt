//! Who applies events to the run of a crew.
ghost use Rattle.std.specs.Prelude.{◌≡◌, ◌+◌, ◌<◌, ◌∷◌, ◌++◌, [], length, vec_len, IfOk, IfErr, OnOk, OnErr};

use crate::crew::CrewOf;
use crate::kept::Applied;
use crate::name::CrewName;
use crate::runner::Runner;
use seize_words::Fault;
use std::alloc::{AllocError, Global};
use std::marker::Model;
use std::sync::Wait;
use std::sync::ledger::Share;

/// Applies events to the run of its crew, and lists them, each with what it came to. Contracts see its number and the list.
#[derive(Drop)]
pub struct DriverOf<E, O, N: CrewName> {
    number: u64,
    list: Vec<Applied<E, O>>,
    share: Share<N>,
}

impl<E, O, N: CrewName> Model for DriverOf<E, O, N> {
    ghost use Rattle.std.specs.Prelude.{◌≡◌, length};
    ghost use Rattle.run_names.specs.Crews.Crew.{Listed};

    ghost Value = { Listed E O };

    ghost view = { λ d. record { number = d.number; list = d.list.items } };

    ghost invariant = { λ d. (d.share.parts ≡ 1) × (d.share.amount ≡ length d.list.items) };
}

impl<E, O, N: CrewName> DriverOf<E, O, N> {
    /// Returns the driver of this number, which has applied these events, and has this share of their count.
    pub fn of(number: u64, list: Vec<Applied<E, O>>, share: Share<N>) -> Self
        requires part { share.parts ≡ 1 }
        requires counted { share.amount ≡ vec_len list }
        ensures { result ≡ record { number = number; list = list.items } }
    {
        DriverOf {
            number,
            list,
            share,
        }
    }

    /// Returns its number.
    pub fn number(&self) -> u64
        ensures { result ≡ self.now.number }
    {
        self.number
    }

    /// Returns the events that it applied, in order, each with what it came to.
    pub fn list(&self) -> &[Applied<E, O>]
        ensures { result.now ≡ self.now.list }
    {
        self.list.as_slice()
    }
}

impl<E, O, N: CrewName> DriverOf<E, O, N> {
    /// Parts it into its number, its list, and its share of the count.
    pub fn into_parts(self) -> (u64, Vec<Applied<E, O>>, Share<N>)
        ensures number { result.0 ≡ self.number }
        ensures list { result.1.items ≡ self.list }
        ensures part { result.2.parts ≡ 1 }
        ensures counted { result.2.amount ≡ length self.list }
    {
        let Self {
            number,
            list,
            share,
        } = self;
        (number, list, share)
    }
}

impl<E: Drop, O: Drop, N: CrewName> DriverOf<E, O, N> {
    /// Its share of the count.
    pub(crate) fn into_share(self) -> Share<N>
        ensures parts { result.parts ≡ 1 }
        ensures amount { result.amount ≡ length self.list }
    {
        let Self {
            number: _,
            list: _,
            share,
        } = self;
        share
    }
}

/// Lets an event happen, and lists it with what it came to.
fn list<E: Drop, R: Runner<E>, N: CrewName, W: Wait>(
    rt: &W,
    alloc: Global,
    crew: &CrewOf<E, R, N>,
    number: u64,
    list: &mut Vec<Applied<E, R::Outcome>>,
    share: &mut Share<N>,
    event: E,
) -> Result<R::Outcome, AllocError>
where
    R::Outcome: Drop,
    requires part { 0 < share.old.parts }
    ensures listed { IfOk result (λ outcome. (listed : R.Outcome) × R.are_alike listed outcome × (list.new.items ≡ list.old.items ++ (record { event = event; outcome = listed }) ∷ [])) }
    ensures counted { share.new.amount + vec_len list.old ≡ share.old.amount + vec_len list.new }
    ensures refused { OnErr result (list.new.items ≡ list.old.items) }
    ensures parts { share.new.parts ≡ share.old.parts }
{
    list.reserve(1)?;
    let (applied, outcome) = crew.happens(rt, alloc, share, number, event)?;
    list.push_reserved(applied);
    Ok(outcome)
}

impl<E: Drop, O: Drop, N: CrewName> DriverOf<E, O, N> {
    /// Lets one event happen under the lock of the crew, and lists it with what it came to. The one fault is Memory, where a list of the driver, of the crew or of the run finds
    /// none: then the driver's list and the kept schedule are as they were; and where it was one of the crew or of the run, each later event of the crew is refused so.
    pub fn apply<R: Runner<E, Outcome = O>, W: Wait>(
        &mut self,
        rt: &W,
        alloc: Global,
        crew: &CrewOf<E, R, N>,
        event: E,
    ) -> Result<O, Fault>
        ensures listed { IfOk result (λ outcome. (listed : O) × R.are_alike listed outcome × (self.new.list ≡ self.old.list ++ (record { event = event; outcome = listed }) ∷ [])) }
        ensures refused { OnErr result (self.new.list ≡ self.old.list) }
        ensures number { self.new.number ≡ self.old.number }
        ensures memory { IfErr result (λ fault. fault ≡ Fault.Memory) }
    {
        Ok(list(
            rt,
            alloc,
            crew,
            self.number,
            &mut self.list,
            &mut self.share,
            event,
        )?)
    }
}

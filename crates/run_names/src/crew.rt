//! Drivers that apply events to one run, under a lock.
ghost use Rattle.std.specs.Prelude.{◌≡◌, ◌≤◌, ◌<◌, ◌+◌, [], length, map, sum_by, vec_len, IfOk, IfErr, IfNone, IfSome, OnOk, OnErr};
ghost use Rattle.std.specs.List.{AllByRecursion, range_with_len};
ghost use Rattle.run_names.specs.Crews.Crew.{Disagree, HoldsJust, events_of};

use crate::driver::DriverOf;
use crate::finished::{FinishedOf, agree};
use crate::kept::Applied;
use crate::locked::Locked;
use crate::name::CrewName;
use crate::runner::Runner;
use run_schedules::setup::Setup;
use seize_words::Fault;
use std::alloc::{AllocError, Global};
use std::sync::ledger::{Blank, Share};
use std::sync::{Mutex, Wait};

/// The run to which drivers apply events, under one lock, and the schedule that it keeps of them.
#[derive(Drop)]
pub struct CrewOf<E, R: Runner<E>, N: CrewName> {
    locked: Mutex<Locked<E, R, N>>,
}

impl<E: Drop, R: Runner<E>, N: CrewName> CrewOf<E, R, N>
where
    R::Outcome: Drop,
    R::Hasher: Drop,
{
    /// Makes a crew that keeps no event yet, and its drivers, numbered from 0 on. The hasher gives each key its hash. The choices say which free block numbers
    /// are used again, before those that events add. The one fault is Memory.
    pub fn new(
        alloc: Global,
        setup: Setup,
        hasher: R::Hasher,
        choices: Vec<u64>,
        n: u64,
        blank: Blank,
    ) -> Result<(Self, Vec<DriverOf<E, R::Outcome, N>>), Fault>
        requires copies { R.can_copy }
        requires some { 1 ≤ n }
        requires setup { setup ≡ N.setup }
        requires name { blank.name ≡ N.name }
        requires parts { blank.parts ≡ N.parts }
        requires drivers { blank.parts ≡ n }
        ensures drivers { IfOk result (λ made. made.1.items ≡ map (λ k. record { number = k; list = [] }) (range_with_len 0 n)) }
        ensures memory { IfErr result (λ fault. fault ≡ Fault.Memory) }
    {
        let (events, mut all) = blank.open::<N>();
        let mut drivers = Vec::new(alloc);
        for number in 0..n {
            drivers.push(DriverOf::of(number, Vec::new(alloc), all.split_off(1, 0)))?;
        }
        let locked = Locked::new(alloc, setup, hasher, choices, events)?;
        Ok((
            CrewOf {
                locked: Mutex::new(locked),
            },
            drivers,
        ))
    }
}

impl<E: Drop, R: Runner<E>, N: CrewName> CrewOf<E, R, N>
where
    R::Outcome: Drop,
{
    /// Lets an event happen under the lock, keeps it as the driver's of this number, and adds it to this share: a copy of it with what it came to, and that once more. If it finds no
    /// memory, the kept schedule is as it was, and each later event is refused so.
    pub fn happens<W: Wait>(
        &self,
        rt: &W,
        alloc: Global,
        share: &mut Share<N>,
        number: u64,
        event: E,
    ) -> Result<(Applied<E, R::Outcome>, R::Outcome), AllocError>
        requires part { 0 < share.old.parts }
        ensures listed { IfOk result (λ told. told.0.event ≡ event) }
        ensures twice { IfOk result (λ told. R.are_alike told.0.outcome told.1) }
        ensures counted { OnOk result (share.new.amount ≡ share.old.amount + 1) }
        ensures refused { OnErr result (share.new.amount ≡ share.old.amount) }
        ensures parts { share.new.parts ≡ share.old.parts }
    {
        self.locked.lock(rt).apply(alloc, share, number, event)
    }
}

impl<E: Drop, R: Runner<E>, N: CrewName> CrewOf<E, R, N>
where
    R::Outcome: Drop,
    R::Run: Drop,
    R::Hasher: Drop,
{
    /// Returns the kept schedule with its run, where it holds of each driver just its list, events and outcomes compared by the runner's tests, and else none.
    /// If memory had run out for an event, the run is made anew. The one fault is Memory.
    pub fn finish(
        self,
        alloc: Global,
        drivers: Vec<DriverOf<E, R::Outcome, N>>,
    ) -> Result<Option<FinishedOf<E, R::Run>>, Fault>
        requires some { 1 ≤ vec_len drivers }
        requires all { vec_len drivers ≡ N.parts }
        ensures run { IfOk result (λ it. IfSome it (λ f. R.is_run N.setup (events_of f.schedule.items) f.run)) }
        ensures counted { IfOk result (λ it. IfSome it (λ f. length (R.told f.run) ≡ sum_by (λ d. length d.list) drivers.items)) }
        ensures lists { IfOk result (λ it. IfSome it (λ f. AllByRecursion (HoldsJust R.same_event R.same_outcome f.schedule.items (R.told f.run)) drivers.items)) }
        ensures none { IfOk result (λ it. IfNone it (Disagree (R.is_run N.setup) R.told R.same_event R.same_outcome drivers.items)) }
        ensures memory { IfErr result (λ fault. fault ≡ Fault.Memory) }
    {
        let Self { locked } = self;
        let (finished, mut events) = locked.into_inner().finish(alloc)?;
        let agrees = agree::<E, R, N>(
            finished.schedule.as_slice(),
            R::outcomes_of(&finished.run),
            drivers.as_slice(),
        );
        let mut all = gathered(drivers);
        events.audit(&mut all);
        drop(events);
        if agrees { Ok(Some(finished)) } else { Ok(None) }
    }
}

/// The drivers' shares as one.
fn gathered<E: Drop, O: Drop, N: CrewName>(drivers: Vec<DriverOf<E, O, N>>) -> Share<N>
    requires some { 1 ≤ vec_len drivers }
    ensures parts { result.parts ≡ vec_len drivers }
    ensures amount { result.amount ≡ sum_by (λ d. length d.list) drivers.items }
{
    let mut drivers = drivers;
    let Some(first) = drivers.pop() else {
        unreachable!()
    };
    let mut all = first.into_share();
    while let Some(driver) = drivers.pop() {
        all.merge(driver.into_share());
    }
    all
}

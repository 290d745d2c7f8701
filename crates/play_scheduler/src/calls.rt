//! Calls begin, get replies, and are given up.
ghost use Rattle.std.specs.Prelude.{◌≡◌, ℕ, Bool, List, None, IfOk, MatchOption};
ghost use Rattle.run_schedules.specs.declared.event.Event.TheVariants as event;
ghost use Rattle.run_schedules.specs.Schedules.Moment.{Moment};
ghost use Rattle.run_schedules.specs.Schedules.Terms.{Terms};
ghost use Rattle.run_executor.specs.Given.HandsAsked.{reply_to_machine};
ghost use Rattle.run_executor.specs.Named.Machines.{aborted_by};
ghost use Rattle.play_scheduler.specs.Played.{Began, BeginsSo, MayPlay, PlaysAt, Replies, RefinesFor, Stops};
ghost use Rattle.play_scheduler.specs.Quiet.{BusyIsSilent, StaysBusy};
ghost use Rattle.run_executor.specs.Named.Seen.{IsReadyAt, ready_place};
ghost use Rattle.run_executor.specs.Executing.IsThere.{PreservesSettings};

use crate::played::Played;
use crate::scheduler::Scheduler;
use papaya_raw::machines::MachineReply as Told;
use papaya_raw::{Hashes, Setting};
use run_executor::caller::{NamedCaller, Stands};
use run_executor::kind::CallKind;
use run_executor::machines::machine_for;
use run_schedules::call::{Call, Reply};
use run_schedules::outcome::Outcome;
use run_schedules::token::Token;
use std::alloc::AllocError;
use std::hash::Hash;

/// A reply as it is told to a machine, and the value that its call aborts with.
fn told_by<V>(reply: Reply<V>) -> (Told<V>, Option<V>)
    ensures { result ≡ (reply_to_machine reply, aborted_by reply) }
{
    match reply {
        Reply::Gives(value) => (Told::Insert(value), None),
        Reply::Removes => (Told::Remove, None),
        Reply::Aborts(value) => (Told::Abort, Some(value)),
        Reply::Decides(true) => (Told::Yes, None),
        Reply::Decides(false) => (Told::No, None),
    }
}

impl<K: Eq + Hash + Drop, V: Drop, S: Hashes<K>> Scheduler<K, V, S> {
    /// Begins a call, by a name that no call under way has, under a guard that lives, on a map that is there. Else it answers no, and nothing has begun.
    pub fn begins(
        &mut self,
        name: Token,
        guard: Token,
        map: &Token,
        call: Call<K, V>,
    ) -> Result<bool, AllocError>
        requires { (terms : Terms) × (m : Moment K V) × RefinesFor K.eq (S.hash self.old.logged.executor.hasher) terms m self.old }
        ensures begins { IfOk result (λ begun. (terms : Terms) (m : Moment K V) → RefinesFor K.eq (S.hash self.old.logged.executor.hasher) terms m self.old
            → BeginsSo K.eq (S.hash self.old.logged.executor.hasher) terms m name guard map.now call begun self.old self.new) }
        ensures given { PreservesSettings self.old.logged.executor self.new.logged.executor }
    {
        if self.calls.has(&name) {
            return Ok(false);
        }
        let Some(slot) = self.there.slot_of_living(&guard) else {
            return Ok(false);
        };
        let Some((map, setting)) = self.setting_of(map) else {
            return Ok(false);
        };
        let kind = CallKind::of(&call);
        let setting = Setting { slot, ..setting };
        let machine = machine_for(setting, &self.logged.executor.hasher, call);
        let number = self.logged.begin(slot, map, machine)?;
        self.calls.add(NamedCaller {
            name,
            guard,
            map,
            number,
            kind,
            stands: Stands::Goes,
            value: None,
        })?;
        Ok(true)
    }

    /// Begins a call under a guard.
    pub fn begin(
        &mut self,
        caller: Token,
        guard: Token,
        map: &Token,
        call: Call<K, V>,
    ) -> Result<Played<V>, AllocError>
        requires { MayPlay K.eq (S.hash self.old.logged.executor.hasher) (event.Begin caller guard map.now call) self.old }
        ensures steps { IfOk result (λ played. played.steps ≡ 0) }
        ensures quiet { IfOk result (λ played. BusyIsSilent played.outcome played.effects.items) }
        ensures plays { IfOk result (λ played. PlaysAt K.eq (S.hash self.old.logged.executor.hasher) (event.Begin caller guard map.now call) played self.old self.new) }
        ensures began { IfOk result (λ played. Began K.eq (S.hash self.old.logged.executor.hasher) caller guard map.now call played self.old self.new) }
        ensures given { PreservesSettings self.old.logged.executor self.new.logged.executor }
    {
        if self.begins(caller, guard, map, call)? {
            Ok(self.quietly(Outcome::Goes))
        } else {
            Ok(self.busy())
        }
    }
}

impl<K: Drop, V: Drop, S> Scheduler<K, V, S> {
    /// Tells a call that asks the reply.
    pub fn replied(&mut self, caller: &Token, reply: Reply<V>) -> Played<V>
        requires { (same : K → K → Bool) × (hash : K → ℕ) × MayPlay same hash (event.Replied caller.now reply) self.old }
        ensures steps { result.steps ≡ 0 }
        ensures quiet { BusyIsSilent result.outcome result.effects.items }
        ensures plays { (same : K → K → Bool) (hash : K → ℕ) → PlaysAt same hash (event.Replied caller.now reply) result self.old self.new }
        ensures told { (same : K → K → Bool) (hash : K → ℕ) → Replies same hash caller.now reply result self.old self.new }
        ensures stays { (same : K → K → Bool) (hash : K → ℕ) → StaysBusy same hash (event.Replied caller.now reply) result self.old self.new }
        ensures given { PreservesSettings self.old.logged.executor self.new.logged.executor }
    {
        let Some(called) = self.calls.get(caller) else {
            return self.busy();
        };
        if !called.takes(&reply) {
            return self.busy();
        }
        let number = called.number;
        let (told, value) = told_by(reply);
        if self.logged.reply(number, told).is_err() {
            return self.busy();
        }
        self.calls.resume(caller, value);
        self.quietly(Outcome::Goes)
    }

    /// Returns the number of the call of the caller of this name, if it is a walk that shows pairs.
    pub fn ready_number(&self, caller: &Token) -> Option<u64>
        ensures { MatchOption result (ready_place caller.now self.now.calls ≡ None) (IsReadyAt caller.now self.now.calls) }
    {
        match self.calls.get(caller) {
            Some(called) if called.shows() => Some(called.number),
            _ => None,
        }
    }

    /// Gives up a walk that shows pairs.
    pub fn stop(&mut self, caller: &Token) -> Played<V>
        requires { (same : K → K → Bool) × (hash : K → ℕ) × MayPlay same hash (event.Stop caller.now) self.old }
        ensures steps { result.steps ≡ 0 }
        ensures quiet { BusyIsSilent result.outcome result.effects.items }
        ensures plays { (same : K → K → Bool) (hash : K → ℕ) → PlaysAt same hash (event.Stop caller.now) result self.old self.new }
        ensures stopped { (same : K → K → Bool) (hash : K → ℕ) → Stops same hash caller.now result self.old self.new }
        ensures stays { (same : K → K → Bool) (hash : K → ℕ) → StaysBusy same hash (event.Stop caller.now) result self.old self.new }
        ensures given { PreservesSettings self.old.logged.executor self.new.logged.executor }
    {
        let Some(number) = self.ready_number(caller) else {
            return self.busy();
        };
        self.logged.stop(number);
        self.calls.remove(caller);
        self.quietly(Outcome::Done)
    }
}

//! What a call is told, and what it is asked for.
ghost use Rattle.std.specs.Prelude.{◌<◌, ℕ, Bool, length, Some};
ghost use Rattle.run_executor.specs.Executing.IsThere.{IsThere, PreservesSettings, worker_with};
ghost use Rattle.run_executor.specs.Executing.Replying.{AsksThere, PutBack, RepliesThere};
ghost use Rattle.run_places.specs.Given.ScenesScene.{HasCall, Scene};

use crate::executor::Executor;
use crate::taking::{TakenCall, take_call};
use crate::worker::{Work, Worker};
use papaya_raw::machines::{Machine, MachineReply};
use run_places::callers::SLOTS;

impl<K: Drop, V: Drop, S> Executor<K, V, S> {
    /// Puts a call back to its place.
    fn put_back(&mut self, place: usize, slot: u64, map: u64, machine: Machine<K, V>)
        requires { place < length self.old.workers.items }
        ensures { PutBack place (worker_with slot map (Some machine)) self.old self.new }
    {
        let work = Work::Call { map, machine };
        self.workers[place] = Some(Worker { slot, work });
    }

    /// Tells the call of a caller what it asks for. It hands back a reply that the call does not take, which goes on as it was.
    pub fn reply(&mut self, caller: u64, reply: MachineReply<V>) -> Result<(), MachineReply<V>>
        requires { (same : K → K → Bool) × (hash : K → ℕ) × (s : Scene K V) × IsThere same hash self.old s × HasCall s caller }
        ensures leads { (same : K → K → Bool) (hash : K → ℕ) (s : Scene K V) → IsThere same hash self.old s → RepliesThere same hash caller reply result s self.old self.new }
        ensures given { PreservesSettings self.old self.new }
    {
        let place = (caller / SLOTS) as usize;
        let TakenCall {
            slot,
            map,
            mut machine,
        } = take_call(&mut self.workers, place);
        let taken = machine.reply(reply);
        self.put_back(place, slot, map, machine);
        taken
    }

    /// Asks the walk of a caller for its next pair, and answers whether it was ready. Any other call goes on as it was.
    pub fn next(&mut self, caller: u64) -> bool
        requires { (same : K → K → Bool) × (hash : K → ℕ) × (s : Scene K V) × IsThere same hash self.old s × HasCall s caller }
        ensures leads { (same : K → K → Bool) (hash : K → ℕ) (s : Scene K V) → IsThere same hash self.old s → AsksThere same hash caller result s self.old self.new }
        ensures given { PreservesSettings self.old self.new }
    {
        let place = (caller / SLOTS) as usize;
        let TakenCall {
            slot,
            map,
            mut machine,
        } = take_call(&mut self.workers, place);
        let ready = machine.next();
        self.put_back(place, slot, map, machine);
        ready
    }
}

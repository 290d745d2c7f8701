//! A step of a call.
ghost use Rattle.std.specs.Prelude.{◌≡◌, ◌<◌, true, false, length};
ghost use Rattle.seize_words.specs.OneMemory.Mem.{Can, Took, value_at};
ghost use Rattle.seize_words.specs.OneMemory.Plan.{May};
ghost use Rattle.papaya_raw.specs.Machine.{machine_plan};
ghost use Rattle.run_places.specs.Given.TellerChanged.{is_made};
ghost use Rattle.run_places.specs.Given.TellerTells.{StepsObserved};
ghost use Rattle.run_places.specs.Given.EffectsDeclared.changed.Changed.TheVariants.{Nothing};
ghost use Rattle.run_executor.specs.Executing.IsThere.{IsThere, PreservesSettings, worker_with};
ghost use Rattle.run_executor.specs.Executing.Stepping.{SteppedAs, StepsThere};
ghost use Rattle.run_places.specs.Given.ScenesScene.{HasCall, Scene};
ghost use Rattle.run_places.specs.Given.ScenesStepping.{going_on};

use crate::executor::Executor;
use crate::taking::{TakenCall, take_call};
use crate::worker::{Work, Worker};
use papaya_raw::machines::{Machine, Progress};
use papaya_raw::{Hashes, Node};
use run_places::Teller;
use run_places::callers::SLOTS;
use seize_words::Plain;
use std::hash::Hash;

/// Takes a step of a machine, and tells what it has changed. A block that it asks for may be refused.
fn step_telling<K: Eq + Hash + Drop, V: Drop, S: Hashes<K>>(
    memory: &mut Teller<Plain<Node<K, V>>>,
    hasher: &S,
    machine: &mut Machine<K, V>,
    refuse: bool,
) -> Progress<Node<K, V>>
    requires { May Can Took value_at memory.old.memory (machine_plan K.eq K.eq (S.hash hasher.now) machine.old) }
    ensures told { StepsObserved K V (Machine K V K × Progress (Node K V)) memory.old.memory Nothing (machine_plan K.eq K.eq (S.hash hasher.now) machine.old) memory.new.memory memory.new.changed (machine.new, result) }
    ensures refused { refuse ≡ true → is_made memory.new.changed ≡ false }
{
    memory.refuses = refuse;
    memory.forget();
    let progress = machine.step(memory, hasher);
    memory.refuses = false;
    progress
}

/// The call of a map after a step of it, unless it has ended.
fn going_on<K: Drop, V: Drop>(
    slot: u64,
    map: u64,
    machine: Machine<K, V>,
    progress: &Progress<Node<K, V>>,
) -> Option<Worker<K, V>>
    ensures { result ≡ worker_with slot map (going_on machine progress.now) }
{
    match progress {
        Progress::Done(_) | Progress::Refused(_) => None,
        _ => {
            let work = Work::Call { map, machine };
            Some(Worker { slot, work })
        }
    }
}

impl<K: Eq + Hash + Drop, V: Drop, S: Hashes<K>> Executor<K, V, S> {
    /// Takes a step of a call that was taken out of its place, and puts it back, unless it has ended.
    fn step_out(
        &mut self,
        place: usize,
        slot: u64,
        map: u64,
        mut machine: Machine<K, V>,
        refuse: bool,
    ) -> Progress<Node<K, V>>
        requires may { May Can Took value_at self.old.memory.memory (machine_plan K.eq K.eq (S.hash self.old.hasher) machine) }
        requires place { place < length self.old.workers.items }
        ensures stepped { SteppedAs K.eq (S.hash self.old.hasher) place slot map machine result self.old self.new }
        ensures refused { refuse ≡ true → is_made self.new.memory.changed ≡ false }
    {
        let progress = step_telling(&mut self.memory, &self.hasher, &mut machine, refuse);
        self.workers[place] = going_on(slot, map, machine, &progress);
        progress
    }

    /// Takes the next step of the call that a caller has under way: at most one operation. A call that has ended is under way no more. A block that it asks for
    /// may be refused.
    pub fn step(&mut self, caller: u64, refuse: bool) -> Progress<Node<K, V>>
        requires { (s : Scene K V) × IsThere K.eq (S.hash self.old.hasher) self.old s × HasCall s caller }
        ensures leads { (s : Scene K V) → IsThere K.eq (S.hash self.old.hasher) self.old s → StepsThere K.eq (S.hash self.old.hasher) caller result s self.old self.new }
        ensures refused { refuse ≡ true → is_made self.new.memory.changed ≡ false }
        ensures given { PreservesSettings self.old self.new }
    {
        let place = (caller / SLOTS) as usize;
        let TakenCall { slot, map, machine } = take_call(&mut self.workers, place);
        self.step_out(place, slot, map, machine, refuse)
    }
}

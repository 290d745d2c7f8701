//! Makings of maps begin, take steps, and run to their ends.
ghost use Rattle.std.specs.Prelude.{◌≡◌, ◌<◌, ◌+◌, ◌*◌, ◌++◌, ℕ, Bool, true, List, length, Some, IfOk, IfErr};
ghost use Rattle.run_effects.specs.Effects.Effects.{effects_of, known_after};
ghost use Rattle.run_effects.specs.Effects.Known.{known};
ghost use Rattle.run_effects.specs.declared.acting.Acting.TheVariants.{Making};
ghost use Rattle.run_shows.specs.Given.FinishesMakings.{Beginning};
ghost use Rattle.run_schedules.specs.Schedules.Moment.{Moment};
ghost use Rattle.run_shows.specs.declared.callers.TheConstants.{SLOTS};
ghost use Rattle.run_logged.specs.Log.Goes.{MakingGone};
ghost use Rattle.run_logged.specs.Log.Makings.{MakingIsBegun, MakingSteps, MakingRan, MapIsThere, given_back, is_over, numbers_then};
ghost use Rattle.run_logged.specs.Log.Roots.{MakingFinds};
ghost use Rattle.run_logged.specs.Log.Shown.{IsShown};
ghost use Rattle.run_executor.specs.Executing.Beginning.{IsRefused};
ghost use Rattle.run_executor.specs.Executing.IsThere.{IsThere, PreservesSettings, StaysGiven};
ghost use Rattle.run_executor.specs.Executing.Making.{MakesThere};
ghost use Rattle.run_executor.specs.Executing.MakingBegins.{MakingBegins};
ghost use Rattle.run_shows.specs.Scenes.Scene.{IsMaking, Scene};

use crate::logged::Logged;
use papaya_raw::Setting;
use run_effects::acting::Acting;
use run_schedules::effect::Effect;
use run_shows::callers::SLOTS;
use seize::Advance;
use std::alloc::AllocError;

/// Whether a making is over.
fn is_over<A>(told: &Advance<A>) -> bool
    ensures { result ≡ is_over told.now }
{
    match told {
        Advance::Goes | Advance::Waits => false,
        Advance::Done(_) | Advance::Refused(_) => true,
    }
}

/// Gives back the number of a making that was refused, so that the next map gets it, if no later one was given out.
fn give_back(maps: &mut Vec<Option<Setting>>, map: u64, told: &Advance<Setting>)
    requires { map < length maps.old.items }
    ensures { maps.new.items ≡ given_back map told.now maps.old.items }
{
    if let Advance::Refused(_) = told {
        if maps.len() as u64 == map + 1 {
            maps.truncate(map as usize);
        }
    }
}

impl<K: Drop, V: Drop, S> Logged<K, V, S> {
    /// Begins to make a map with this setting, and with a first table of so many places, for a caller in this slot. The map gets the number that comes next. It
    /// answers with the number of the caller. On an error nothing has begun.
    pub fn begin_making(
        &mut self,
        slot: u64,
        given: Setting,
        places: u64,
    ) -> Result<u64, AllocError>
        requires { slot < SLOTS }
        ensures number { IfOk result (λ caller. caller ≡ length self.old.executor.workers.items * SLOTS + slot) }
        ensures leads { IfOk result (λ caller. (same : K → K → Bool) (hash : K → ℕ) (name : ℕ → List ℕ) (m : Moment K V) (s : Scene K V) → IsShown same hash name m self.old s
            → MakingIsBegun same hash name m s given places caller self.old self.new) }
        ensures begun { IfOk result (λ caller. (same : K → K → Bool) (hash : K → ℕ) (s : Scene K V) → IsThere same hash self.old.executor s
            → MakingBegins same hash given places caller s self.old.executor self.new.executor) }
        ensures there { IfOk result (λ caller. MapIsThere self.new) }
        ensures notes { IfOk result (λ caller. self.new.notes ≡ self.old.notes) }
        ensures numbers { IfOk result (λ caller. length self.new.executor.maps.items ≡ length self.old.executor.maps.items + 1) }
        ensures given { StaysGiven self.old.executor self.new.executor }
        ensures refused { IfErr result (λ error. IsRefused self.old.executor self.new.executor × (self.new.notes ≡ self.old.notes)) }
    {
        let caller = self.executor.begin_making(slot, given, places)?;
        Ok(caller)
    }

    /// Takes the next step of the making of this map that a caller has under way: at most one operation. What it does is added to the list. It is refused where the
    /// list, or the notes, find no more room: then the executor has gone on, and it is written down no more.
    pub fn step_making(
        &mut self,
        caller: u64,
        map: u64,
        effects: &mut Vec<Effect>,
    ) -> Result<Advance<Setting>, AllocError>
        requires { (same : K → K → Bool) × (hash : K → ℕ) × (s : Scene K V) × IsThere same hash self.old.executor s × IsMaking s caller }
        ensures leads { IfOk result (λ told. MakingSteps caller map told effects.old.items effects.new.items self.old self.new) }
        ensures steps { IfOk result (λ told. (same : K → K → Bool) (hash : K → ℕ) (s : Scene K V) → IsThere same hash self.old.executor s
            → MakesThere same hash caller told s self.old.executor self.new.executor) }
        ensures numbers { IfOk result (λ told. length self.new.executor.maps.items ≡ length self.old.executor.maps.items) }
        ensures did { IfOk result (λ told. effects.new.items ≡ effects.old.items ++ effects_of (Making map) (known self.old.notes) self.new.executor.memory.changed) }
        ensures noted { IfOk result (λ told. known self.new.notes ≡ known_after (Making map) self.new.executor.memory.changed (known self.old.notes)) }
        ensures given { PreservesSettings self.old.executor self.new.executor }
    {
        let told = self.executor.step_making(caller);
        self.note(Acting::Making { map }, effects)?;
        Ok(told)
    }

    /// Takes steps of the making of this map that a caller has under way, until it is over, and answers what the last step told. What the steps do is added to the
    /// list, in their order. If it was refused, the next map gets its number, unless a later one was given out. It is refused as a step is.
    pub fn run_making(
        &mut self,
        caller: u64,
        map: u64,
        effects: &mut Vec<Effect>,
    ) -> Result<Advance<Setting>, AllocError>
        requires { (same : K → K → Bool) × (hash : K → ℕ) × (s : Scene K V) × IsThere same hash self.old.executor s × (b : Beginning K) × (s.makers caller ≡ Some b) × (b.map ≡ map) }
        ensures over { IfOk result (λ told. is_over told ≡ true) }
        ensures numbers { IfOk result (λ told. length self.new.executor.maps.items ≡ numbers_then map told (length self.old.executor.maps.items)) }
        ensures ran { IfOk result (λ told. MakingRan caller map told effects.old.items effects.new.items self.old self.new) }
        ensures finds { IfOk result (λ told. MakingFinds caller map told effects.old.items effects.new.items self.old self.new) }
        ensures gone { IfOk result (λ told. MakingGone caller map told effects.old.items effects.new.items self.old self.new) }
        ensures given { StaysGiven self.old.executor self.new.executor }
    {
        loop {
            let told = self.step_making(caller, map, effects)?;
            if is_over(&told) {
                give_back(&mut self.executor.maps, map, &told);
                return Ok(told);
            }
        }
    }
}

//! Ends of maps begin, take steps, and run to their ends.
ghost use Rattle.std.specs.Prelude.{◌≡◌, ◌<◌, ◌+◌, ◌*◌, ◌++◌, ℕ, Bool, true, List, length, slice_index_or, Some, None, IfOk, IfErr};
ghost use Rattle.run_effects.specs.Effects.Effects.{effects_of, known_after};
ghost use Rattle.run_effects.specs.Effects.Known.{known};
ghost use Rattle.run_effects.specs.declared.acting.Acting.TheVariants.{Ending};
ghost use Rattle.run_schedules.specs.Schedules.Moment.{Moment};
ghost use Rattle.papaya_raw.specs.Given.TablesDeclared.setting.Setting.{Setting};
ghost use Rattle.run_shows.specs.declared.callers.TheConstants.{SLOTS};
ghost use Rattle.run_logged.specs.Log.Back.{EndBringsBack};
ghost use Rattle.run_logged.specs.Log.Ends.{EndIsBegun, EndSteps, EndRan, EndIsOver, is_done};
ghost use Rattle.run_logged.specs.Log.Goes.{EndGone};
ghost use Rattle.run_logged.specs.Log.Shown.{IsShown};
ghost use Rattle.run_executor.specs.Executing.Beginning.{IsRefused};
ghost use Rattle.run_executor.specs.Executing.Ending.{EndingBegins, EndsThere};
ghost use Rattle.run_executor.specs.Executing.IsThere.{IsThere, PreservesSettings};
ghost use Rattle.run_shows.specs.Scenes.Scene.{IsEnding, Scene};

use crate::back::keep_settled;
use crate::logged::Logged;
use papaya_raw::Node;
use run_effects::acting::Acting;
use run_schedules::effect::Effect;
use run_schedules::ended::Pair;
use run_shows::callers::SLOTS;
use seize::rows::Settled;
use std::alloc::AllocError;

/// Whether an end is over.
pub(crate) fn is_done<T>(told: &Settled<T>) -> bool
    ensures { result ≡ is_done told.now }
{
    match told {
        Settled::Done => true,
        Settled::Goes | Settled::Waits | Settled::Gave(_) => false,
    }
}

impl<K: Drop, V: Drop, S> Logged<K, V, S> {
    /// Begins to end the map of this number, which stands, for a caller in this slot, and answers with the number of the caller. Nobody is to have a call on the
    /// map. From then on none stands under that number. On an error nothing has changed.
    pub fn begin_end(&mut self, slot: u64, map: u64) -> Result<u64, AllocError>
        requires slot { slot < SLOTS }
        requires stands { (setting : Setting) × (slice_index_or self.old.executor.maps.items map None ≡ Some setting) }
        ensures number { IfOk result (λ caller. caller ≡ length self.old.executor.workers.items * SLOTS + slot) }
        ensures leads { IfOk result (λ caller. (same : K → K → Bool) (hash : K → ℕ) (name : ℕ → List ℕ) (m : Moment K V) (s : Scene K V) → IsShown same hash name m self.old s
            → EndIsBegun same hash name m s map caller self.old self.new) }
        ensures begun { IfOk result (λ caller. (same : K → K → Bool) (hash : K → ℕ) (s : Scene K V) → IsThere same hash self.old.executor s
            → EndingBegins same hash map caller s self.old.executor self.new.executor) }
        ensures notes { IfOk result (λ caller. self.new.notes ≡ self.old.notes) }
        ensures given { PreservesSettings self.old.executor self.new.executor }
        ensures refused { IfErr result (λ error. IsRefused self.old.executor self.new.executor × (self.new.notes ≡ self.old.notes)) }
    {
        let caller = self.executor.begin_ending(slot, map)?;
        Ok(caller)
    }

    /// Takes the next step of the end of this map that a caller has under way: at most one operation. What it does is added to the list. It is refused where the
    /// list, or the notes, find no more room: then the executor has gone on, and it is written down no more.
    pub fn step_end(
        &mut self,
        caller: u64,
        map: u64,
        effects: &mut Vec<Effect>,
    ) -> Result<Settled<Node<K, V>>, AllocError>
        requires { (same : K → K → Bool) × (hash : K → ℕ) × (s : Scene K V) × IsThere same hash self.old.executor s × IsEnding s caller }
        ensures leads { IfOk result (λ told. EndSteps caller map told effects.old.items effects.new.items self.old self.new) }
        ensures steps { IfOk result (λ told. (same : K → K → Bool) (hash : K → ℕ) (s : Scene K V) → IsThere same hash self.old.executor s
            → EndsThere same hash caller told s self.old.executor self.new.executor) }
        ensures did { IfOk result (λ told. effects.new.items ≡ effects.old.items ++ effects_of (Ending map) (known self.old.notes) self.new.executor.memory.changed) }
        ensures noted { IfOk result (λ told. known self.new.notes ≡ known_after (Ending map) self.new.executor.memory.changed (known self.old.notes)) }
        ensures given { PreservesSettings self.old.executor self.new.executor }
    {
        let told = self.executor.step_ending(caller);
        self.note(Acting::Ending { map }, effects)?;
        Ok(told)
    }

    /// Takes steps of the end of this map that a caller has under way, until it is over. What the steps do is added to the list, in their order, and the pairs that they
    /// reclaim come back, behind those before. It is refused as a step is; or where there is no room for a pair that comes back, before the step that might reclaim one is taken.
    pub fn run_end(
        &mut self,
        caller: u64,
        map: u64,
        effects: &mut Vec<Effect>,
        back: &mut Vec<Pair<K, V>>,
    ) -> Result<(), AllocError>
        requires { (same : K → K → Bool) × (hash : K → ℕ) × (s : Scene K V) × IsThere same hash self.old.executor s × IsEnding s caller }
        ensures ran { IfOk result (λ done. EndRan caller map true effects.old.items effects.new.items self.old self.new) }
        ensures over { IfOk result (λ done. EndIsOver self.new) }
        ensures gone { IfOk result (λ done. EndGone caller map effects.old.items effects.new.items self.old self.new) }
        ensures back { IfOk result (λ done. EndBringsBack caller map effects.old.items effects.new.items self.old back.old.items back.new.items) }
        ensures given { PreservesSettings self.old.executor self.new.executor }
    {
        loop {
            back.reserve(1)?;
            let told = self.step_end(caller, map, effects)?;
            if is_done(&told) {
                return Ok(());
            }
            keep_settled(told, effects.as_slice(), back);
        }
    }
}

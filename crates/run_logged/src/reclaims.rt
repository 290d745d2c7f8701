//! All is reclaimed, step by step, while nobody has anything under way.
ghost use Rattle.std.specs.Prelude.{◌≡◌, ◌++◌, ℕ, Bool, List, IfOk, OnOk, if◌then◌else◌};
ghost use Rattle.seize.specs.ReclaimAll.{reclaiming_all, clearing};
ghost use Rattle.run_effects.specs.Effects.Effects.{effects_of, known_after};
ghost use Rattle.run_effects.specs.Effects.Known.{known};
ghost use Rattle.run_effects.specs.declared.acting.Acting.TheVariants.{Row};
ghost use Rattle.run_schedules.specs.Schedules.Moment.{Moment};
ghost use Rattle.run_executor.specs.ReclaimsAll.Reclaiming.{IsReclaimingThere, MayReclaim, NobodyHas, ReclaimsThere};
ghost use Rattle.run_logged.specs.Log.Back.{AllBringsBack};
ghost use Rattle.run_logged.specs.Log.Goes.{ReclaimingGone};
ghost use Rattle.run_logged.specs.Log.Reclaims.{ReclaimingIsShown, ReclaimingRan, ReclaimingSteps};
ghost use Rattle.run_logged.specs.Log.Shown.{IsShown};
ghost use Rattle.run_executor.specs.Executing.IsThere.{PreservesSettings};
ghost use Rattle.run_shows.specs.Scenes.Scene.{Scene};

use crate::back::keep_settled;
use crate::ends::is_done;
use crate::logged::Logged;
use papaya_raw::Node;
use run_effects::acting::Acting;
use run_executor::reclaiming::FullReclamation;
use run_schedules::effect::Effect;
use run_schedules::ended::Pair;
use seize::rows::Settled;
use std::alloc::AllocError;

impl<K: Drop, V: Drop, S> Logged<K, V, S> {
    /// Begins to reclaim all: with the slots, if one was ever taken, else with the roots.
    pub fn begin_reclaiming(&self, taken: bool) -> FullReclamation
        ensures shown { (same : K → K → Bool) (hash : K → ℕ) (name : ℕ → List ℕ) (m : Moment K V) (s : Scene K V) (i : ℕ) (lists : ℕ → List ℕ) → IsShown same hash name m self.now s
            → NobodyHas self.now.executor → MayReclaim self.now.executor s lists taken → ReclaimingIsShown same hash name m self.now s i lists result.all }
        ensures is { result.all ≡ (if taken then reclaiming_all self.now.executor.batch_size self.now.executor.roots else clearing self.now.executor.roots) }
    {
        FullReclamation::new(&self.executor, taken)
    }

    /// Takes the next step: at most one operation. What it does is added to the list, and once it is over no slot is in use. It is refused where the list, or the
    /// notes, find no more room: then the executor has gone on, and it is written down no more.
    pub fn step_reclaiming(
        &mut self,
        reclaiming: &mut FullReclamation,
        effects: &mut Vec<Effect>,
    ) -> Result<Settled<Node<K, V>>, AllocError>
        requires { (same : K → K → Bool) × (hash : K → ℕ) × (s : Scene K V) × (i : ℕ) × (lists : ℕ → List ℕ) × IsReclaimingThere same hash self.old.executor s i lists reclaiming.old.all }
        ensures leads { IfOk result (λ told. ReclaimingSteps reclaiming.old.all reclaiming.new.all told effects.old.items effects.new.items self.old self.new) }
        ensures steps { IfOk result (λ told. (same : K → K → Bool) (hash : K → ℕ) (s : Scene K V) (i : ℕ) (lists : ℕ → List ℕ) → IsReclaimingThere same hash self.old.executor s i lists reclaiming.old.all
            → ReclaimsThere same hash s i lists self.old.executor self.new.executor reclaiming.old.all reclaiming.new.all told) }
        ensures did { IfOk result (λ told. effects.new.items ≡ effects.old.items ++ effects_of Row (known self.old.notes) self.new.executor.memory.changed) }
        ensures noted { IfOk result (λ told. known self.new.notes ≡ known_after Row self.new.executor.memory.changed (known self.old.notes)) }
        ensures given { PreservesSettings self.old.executor self.new.executor }
    {
        let told = reclaiming.step(&mut self.executor);
        self.note(Acting::Row, effects)?;
        Ok(told)
    }

    /// Takes steps until all is reclaimed, with the slots first, if one was ever taken, else with the roots alone. What the steps do is added to the list, in their order, and the
    /// pairs that they reclaim come back, behind those before. It is refused as a step is; where there is no room for a pair that comes back, before the step is taken; and if so many steps are not enough as a number can tell.
    pub fn run_reclaiming(
        &mut self,
        taken: bool,
        effects: &mut Vec<Effect>,
        back: &mut Vec<Pair<K, V>>,
    ) -> Result<(), AllocError>
        requires { (same : K → K → Bool) × (hash : K → ℕ) × (name : ℕ → List ℕ) × (m : Moment K V) × (s : Scene K V) × (lists : ℕ → List ℕ) × IsShown same hash name m self.old s
            × NobodyHas self.old.executor × MayReclaim self.old.executor s lists taken }
        ensures ran { OnOk result (ReclaimingRan taken effects.old.items effects.new.items self.old self.new) }
        ensures gone { OnOk result (ReclaimingGone taken effects.old.items effects.new.items self.old self.new) }
        ensures back { OnOk result (AllBringsBack taken effects.old.items effects.new.items self.old back.old.items back.new.items) }
        ensures given { PreservesSettings self.old.executor self.new.executor }
    {
        let mut reclaiming = self.begin_reclaiming(taken);
        let mut left = u64::MAX;
        while left > 0 {
            back.reserve(1)?;
            let told = self.step_reclaiming(&mut reclaiming, effects)?;
            if is_done(&told) {
                return Ok(());
            }
            keep_settled(told, effects.as_slice(), back);
            left -= 1;
        }
        Err(AllocError)
    }
}

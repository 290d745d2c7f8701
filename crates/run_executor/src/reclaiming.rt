//! All that waits is reclaimed, one step at a time.
ghost use Rattle.std.specs.Prelude.{◌≡◌, ℕ, Bool, List, if◌then◌else◌};
ghost use Rattle.seize.specs.ReclaimAll.{reclaiming_all, clearing};
ghost use Rattle.run_executor.specs.ReclaimsAll.Reclaiming.{NobodyHas, MayReclaim, IsReclaimingThere, Leaves, ReclaimsThere};
ghost use Rattle.run_executor.specs.Executing.IsThere.{IsThere, PreservesSettings};
ghost use Rattle.run_places.specs.Given.ScenesScene.{Scene};

use crate::executor::Executor;
use papaya_raw::Node;
use seize::rows::{ReclaimAll, Settled};

/// All that waits is being reclaimed. It is no caller's: nobody has anything under way meanwhile.
#[derive(Clone, Copy)]
pub struct FullReclamation {
    /// How far it is.
    pub all: ReclaimAll,
}

/// Once it is over no slot is in use.
fn leave<K, V, S>(executor: &mut Executor<K, V, S>, told: &Settled<Node<K, V>>)
    ensures { Leaves executor.old executor.new told.now }
{
    if let Settled::Done = told {
        executor.vacate();
    }
}

impl FullReclamation {
    /// Begins with the slots, if one was ever taken, else with the roots.
    pub fn new<K, V, S>(executor: &Executor<K, V, S>, taken: bool) -> Self
        ensures begins { (same : K → K → Bool) (hash : K → ℕ) (s : Scene K V) (i : ℕ) (lists : ℕ → List ℕ) → IsThere same hash executor.now s → NobodyHas executor.now → MayReclaim executor.now s lists taken
            → IsReclaimingThere same hash executor.now s i lists result.all }
        ensures is { result.all ≡ (if taken then reclaiming_all executor.now.batch_size executor.now.roots else clearing executor.now.roots) }
    {
        let all = if taken {
            ReclaimAll::reclaim_all(executor.batch_size, executor.roots)
        } else {
            ReclaimAll::clearing(executor.roots)
        };
        FullReclamation { all }
    }

    /// Takes the next step: at most one operation. Once it is over no slot is in use.
    pub fn step<K, V, S>(&mut self, executor: &mut Executor<K, V, S>) -> Settled<Node<K, V>>
        requires { (same : K → K → Bool) × (hash : K → ℕ) × (s : Scene K V) × (i : ℕ) × (lists : ℕ → List ℕ) × IsReclaimingThere same hash executor.old s i lists self.old.all }
        ensures leads { (same : K → K → Bool) (hash : K → ℕ) (s : Scene K V) (i : ℕ) (lists : ℕ → List ℕ) → IsReclaimingThere same hash executor.old s i lists self.old.all
            → ReclaimsThere same hash s i lists executor.old executor.new self.old.all self.new.all result }
        ensures given { PreservesSettings executor.old executor.new }
    {
        let told = executor.step_nobodys(&mut self.all);
        leave(executor, &told);
        told
    }
}

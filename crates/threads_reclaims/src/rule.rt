//! The rule of a memory of maps, while one seat alone acts.
use crate::sole::Sole;
use map_tables::{Hashes, Node};
use seize::rows::{LeftOver, Leftovers, ReclaimAll};
use seize_blocks::Rule;
use seize_reclaims::One;
use seize_views::Fixed;
use std::marker::PhantomData;

/// One seat has the memory to itself: it takes a slot, so that the slots have their words, and then reclaims all that waits, by acts.
pub struct OneOfMaps<S>(PhantomData<S>);

impl<K: Eq, V, S: Hashes<K>> Rule<Node<K, V>> for OneOfMaps<S> {
    ghost use Rattle.threads_rule.specs.Views.Rule.{MapsWorld, at_rest};
    ghost use Rattle.threads_reclaims.specs.Reclaims.Rule.{HoldsOne, one_told, NobodyKeeps};
    ghost use Rattle.threads_reclaims.specs.declared.sole.Sole.TheVariants.{Left};

    type View = Sole<K, V, S>;

    type Fixed = Fixed;

    ghost World = { MapsWorld K V S };

    ghost holds = { HoldsOne K.eq S.hash };

    ghost keeps = { NobodyKeeps };

    ghost then = { one_told };

    ghost newcomer = { λ _. Left at_rest };

    ghost rests = { λ _. Unit {0} };

    ghost newcomers_rest = { λ _. tt };

    ghost resting_stay = { λ _ _ _ _ _ _. tt };

    ghost leans = { λ _ _. ⊥ };

    ghost upright = { λ _ _ _ none. none };

    ghost leaning_stay = { λ _ _ _ _ _ _ none. none };
}

impl<K, V, S> Leftovers<Node<K, V>> for OneOfMaps<S> {
    ghost use Rattle.map_tables.specs.Nodes.{was_left};

    ghost left = { was_left };

    fn is_left(value: &Node<K, V>) -> bool {
        value.is_left_over()
    }
}

impl<K: Eq, V, S: Hashes<K>> One<Node<K, V>> for OneOfMaps<S> {
    ghost use Rattle.threads_reclaims.specs.Reclaims.Rule.{acts_of, all_in, none_in, kept_of};
    ghost use Rattle.threads_rule.specs.declared.view.View.{View};

    ghost acts = { acts_of };

    ghost all = { all_in };

    ghost none = { none_in };

    ghost Beside = { View K V S };

    ghost beside = { kept_of };

    fn acts_alone() {}

    fn without_slots(row: &ReclaimAll) -> ReclaimAll {
        ReclaimAll::clearing(row.roots)
    }
}

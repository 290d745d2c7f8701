//! The rule while one seat alone acts.
use crate::alone::Alone;
use crate::one::One;
use seize::rows::{Defers, Leftovers, NoneLeft};
use seize_blocks::{Rule, Turn};
use seize_views::Fixed;
use std::marker::PhantomData;

/// One seat has the memory to itself: it takes a slot, so that the slots have their words, and then reclaims all that waits.
pub struct OfOne;

impl<T: Defers> Rule<T> for OfOne {
    ghost use Rattle.seize.specs.ReclaimAll.{none_left};
    ghost use Rattle.seize.specs.World.{World};
    ghost use Rattle.seize_reclaims.specs.Renews.Rule.{KeepsNone};
    ghost use Rattle.seize_reclaims.specs.Renews.One.{HoldsOne, one_observed, one_first};

    type View = Alone<T>;

    type Fixed = Fixed;

    ghost World = { World T };

    ghost holds = { HoldsOne T.defers none_left };

    ghost keeps = { KeepsNone };

    ghost then = { one_observed T.defers none_left };

    ghost newcomer = { one_first };

    ghost rests = { λ _. Unit {0} };

    ghost newcomers_rest = { λ _. tt };

    ghost resting_stay = { λ _ _ _ _ _ _. tt };

    ghost leans = { λ _ _. ⊥ };

    ghost upright = { λ _ _ _ none. none };

    ghost leaning_stay = { λ _ _ _ _ _ _ none. none };
}

impl<T> Leftovers<T> for OfOne {
    ghost use Rattle.seize.specs.ReclaimAll.{none_left};

    ghost left = { none_left };

    fn is_left(value: &T) -> bool {
        NoneLeft::is_left(value)
    }
}

/// The turn of a step of its machine that makes no operation.
pub struct Passing<T, R>(PhantomData<(T, R)>);

impl<T: Defers, R: One<T>> Turn<Fixed, R::View> for Passing<T, R> {
    ghost use Rattle.seize_reclaims.specs.Empties.Asked.{HasPassed};

    ghost to = { λ _. HasPassed R.acts T.defers R.left R.beside };
}

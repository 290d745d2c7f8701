//! The rule of maps.
use crate::view::View;
use map_tables::{Hashes, Node};
use seize_blocks::Rule;
use seize_views::Fixed;
use std::marker::PhantomData;

/// The memory is that of a scene to which a list of acts has led, and each seat knows what it has under way there. The maps of one memory have hashers of one
/// type, each its own.
pub struct OfMaps<S>(PhantomData<S>);

impl<K: Eq, V, S: Hashes<K>> Rule<Node<K, V>> for OfMaps<S> {
    ghost use Rattle.threads_rule.specs.Views.Rule.{MapsWorld, Holds, KeepsFor, Leans, at_rest};
    ghost use Rattle.threads_rule.specs.Views.Told.{told};
    ghost use Rattle.threads_rule.specs.Views.Notes.{SeatIsQuiescent};
    ghost use Rattle.threads_rule.specs.Views.Resting.{resting_stay, upright, leaning_stay};

    type View = View<K, V, S>;

    type Fixed = Fixed;

    ghost World = { MapsWorld K V S };

    ghost holds = { Holds K.eq S.hash };

    ghost keeps = { KeepsFor };

    ghost then = { told K.eq S.hash };

    ghost newcomer = { λ _. at_rest };

    ghost rests = { SeatIsQuiescent };

    ghost newcomers_rest = { λ _. tt };

    ghost resting_stay = { resting_stay K.eq S.hash };

    ghost leans = { Leans };

    ghost upright = { upright };

    ghost leaning_stay = { leaning_stay K.eq S.hash };
}

//! The rule of the collector's rows.
use crate::view::{Fixed, Noted};
use seize::rows::Defers;
use seize_blocks::Rule;

/// The memory is that of a world of the collector, and each seat knows the row that it has under way there, and notes what it does.
pub struct OfRows;

impl<T: Defers> Rule<T> for OfRows {
    ghost use Rattle.seize.specs.World.{World};
    ghost use Rattle.seize_views.specs.Views.Notes.{NotedHolds, NotedKeeps, noted_observed, newcomer};
    ghost use Rattle.seize_views.specs.Views.Rows.{IsQuiescent};
    ghost use Rattle.seize_views.specs.Views.Resting.{resting_stay, upright, leaning_stay};
    ghost use Rattle.seize_views.specs.Views.Watched.{Leans};

    type View = Noted<T>;

    type Fixed = Fixed;

    ghost World = { World T };

    ghost holds = { NotedHolds T.defers };

    ghost keeps = { NotedKeeps };

    ghost then = { noted_observed T.defers };

    ghost newcomer = { λ _. newcomer };

    ghost rests = { λ v. IsQuiescent v.knows };

    ghost newcomers_rest = { λ _. tt };

    ghost resting_stay = { resting_stay T.defers };

    ghost leans = { Leans };

    ghost upright = { upright };

    ghost leaning_stay = { leaning_stay T.defers };
}

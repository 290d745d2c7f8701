//! What a memory has beside slots, sections and batches.
use crate::rows::OfRows;
use crate::view::Fixed;
use seize::rows::Defers;
use seize_blocks::Rule;

/// A rule by which seats have rows of the collector under way, whatever else they know and do.
pub trait Content<T: Defers>: Rule<T, Fixed = Fixed> {
    ghost use Rattle.seize_views.specs.Views.Content.{SeatsComeIn, RowsContinueIn, RowsAreObserved, RowsTurnIn, SettlingsBeginIn, LookedAreShownIn, LeansByTheRest, RestWithNothing};
    ghost use Rattle.seize_views.specs.declared.view.Noted.{Noted};

    /// What a view has that no row changes.
    ghost Beside: { Type 0 };

    /// What a seat knows of its slot and of its row, and has begun last.
    ghost notes: { Self.View → Noted T };

    /// What it knows beside that.
    ghost beside: { Self.View → Beside };

    /// Seats may come. Each row of a seat may begin, go on and end at any moment, whatever the other seats do, and changes nothing beside the notes; it begins
    /// and ends by a step of its seat, so where nobody leans on it.
    fn goes_on()
        ensures come { SeatsComeIn Self.holds Self.keeps notes beside Self.newcomer }
        ensures rows { RowsContinueIn Self.holds Self.keeps notes beside T.defers Self.then }
        ensures told { RowsAreObserved notes beside T.defers Self.then }
        ensures turn { RowsTurnIn Self.holds Self.keeps notes beside Self.leans }
        ensures settle { SettlingsBeginIn Self.holds Self.keeps notes beside Self.leans }
        ensures looked { LookedAreShownIn Self.holds Self.keeps notes beside }
        ensures leans { LeansByTheRest Self.leans notes beside }
        ensures rest { RestWithNothing Self.rests notes };
}

impl<T: Defers> Content<T> for OfRows {
    ghost Beside = { Unit {0} };

    ghost notes = { λ v. v };

    ghost beside = { λ _. tt };

    fn goes_on() {}
}

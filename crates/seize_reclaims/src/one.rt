//! What is asked of a rule by which one seat acts alone.
use crate::alone::Alone;
use crate::rule::OfOne;
use seize::rows::{Defers, Leftovers, ReclaimAll, Reclaiming};
use seize_blocks::Rule;
use seize_views::Fixed;

/// A rule by which one seat acts alone: it takes a slot, and then reclaims all.
pub trait One<T: Defers>: Rule<T, Fixed = Fixed> + Leftovers<T> {
    ghost use Rattle.std.specs.Prelude.{◌≡◌, Option};
    ghost use Rattle.seize.specs.declared.rows.reclaim_all.ReclaimAll.{ReclaimAll};
    ghost use Rattle.seize_reclaims.specs.declared.alone.Alone.{Alone};
    ghost use Rattle.seize_reclaims.specs.Empties.Asked.{OneTells, OneMayGoOn, OneMayTurn, OneIsShownAll, AllRest, NobodyLeans};

    /// What a seat knows that acts.
    ghost acts: { Self.View → Option (Alone T) };

    /// What it reclaims all by, once it has sought a slot.
    ghost all: { Self.View → ReclaimAll };

    /// What is done of that where slots have no words.
    ghost none: { ReclaimAll → ReclaimAll };

    /// What a view has beside that, which stays.
    ghost Beside: { Type 0 };

    ghost beside: { Self.View → Beside };

    /// Each operation of the one that acts may be made, whatever is answered, and tells it how far it has come; a step of its machine that makes none is a turn;
    /// what it is about to look at is there. All seats rest, and none leans on another.
    fn acts_alone()
        ensures tells { OneTells acts all none T.defers Self.left beside Self.then }
        ensures goes { OneMayGoOn acts T.defers Self.left Self.holds Self.keeps Self.then }
        ensures turns { OneMayTurn acts T.defers Self.left Self.holds Self.keeps beside }
        ensures shown { OneIsShownAll acts T.defers Self.left Self.holds }
        ensures rest { AllRest Self.rests }
        ensures aside { NobodyLeans Self.leans };

    /// Returns what is done where slots have no words.
    fn without_slots(row: &ReclaimAll) -> ReclaimAll
        ensures { result ≡ none row.now };
}

impl<T: Defers> One<T> for OfOne {
    ghost use Rattle.std.specs.Prelude.{Some};
    ghost use Rattle.seize_reclaims.specs.Renews.One.{all_of_one, none_of_one};

    ghost acts = { λ v. Some v };

    ghost all = { all_of_one };

    ghost none = { none_of_one };

    ghost Beside = { Unit {0} };

    ghost beside = { λ _. tt };

    fn acts_alone() {}

    fn without_slots(row: &ReclaimAll) -> ReclaimAll {
        let mut over = *row;
        over.stands = Reclaiming::Over;
        over
    }
}

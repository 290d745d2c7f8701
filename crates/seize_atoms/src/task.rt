//! A course of steps that a seat is sent for.
ghost use Rattle.std.specs.Prelude.{◌≡◌, ◌≢◌, ℕ, None};
ghost use Rattle.seize_seats.specs.Seats.Errands.{Lends};

use crate::rule::Rule;
use crate::seat::Seat;

/// A course of steps that a seat takes, in the memory of a name.
pub trait Task<T, R: Rule<T>>: Sized {
    /// What it answers.
    type Answer;

    /// What the seat has to know as it begins, of the memory of this name.
    ghost asks: { Self → ℕ → R.View → Type 0 };

    /// The view before it, the answer, and the view after it.
    ghost did: { Self → R.View → Self.Answer → R.View → Type 0 };

    /// Takes the steps.
    fn run(self, seat: &mut Seat<T, R>) -> Self::Answer
        requires { (seat.old.away ≢ None) × asks self seat.old.base seat.old.view }
        ensures { (seat.new.base ≡ seat.old.base) × (seat.new.id ≡ seat.old.id) × (seat.new.away ≡ seat.old.away)
            × did self seat.old.view result seat.new.view };
}

/// A course of steps that a seat takes while two others are lent for it, or one twice, which stay as they are meanwhile.
pub trait Charge<T, R: Rule<T>>: Sized {
    /// What it answers.
    type Answer;

    /// What has to be so as it begins: the name of the memory, the number and the view of each seat that is lent, and the view of the one that takes the steps.
    ghost asks: { Self → ℕ → ℕ → R.View → ℕ → R.View → R.View → Type 0 };

    /// The view before it, the answer, and the view after it.
    ghost did: { Self → R.View → Self.Answer → R.View → Type 0 };

    /// Takes the steps.
    fn run(self, seat: &mut Seat<T, R>) -> Self::Answer
        requires { (one : ℕ) × (u : R.View) × (other : ℕ) × (o : R.View) × Lends seat.old.away one × Lends seat.old.away other
            × asks self seat.old.base one u other o seat.old.view }
        ensures { (seat.new.base ≡ seat.old.base) × (seat.new.id ≡ seat.old.id) × (seat.new.away ≡ seat.old.away)
            × did self seat.old.view result seat.new.view };
}

//! What a seat is sent for: a course of steps, in the midst of which nobody has the memory to himself.
ghost use Rattle.std.specs.Prelude.{◌≡◌, ◌≢◌, ℕ, None};
ghost use Rattle.seize_seats.specs.Seats.Errands.{Lends};

use crate::blocks::Blocks;
use seize_atoms::{Charge, Rule, Seat, Task};

/// A course of steps that a seat takes.
pub trait Errand<T, R: Rule<T>>: Sized {
    /// What it answers.
    type Answer;

    /// What the seat has to know as it begins, by what was chosen as the memory was opened.
    ghost asks: { Self → R.Fixed → R.View → Type 0 };

    /// What it has come to: what was chosen, the view before it, the answer, and the view after it.
    ghost did: { Self → R.Fixed → R.View → Self.Answer → R.View → Type 0 };

    /// Takes the steps.
    fn run(self, blocks: &Blocks<T, R>, seat: &mut Seat<T, R>) -> Self::Answer
        requires { (seat.old.base ≡ blocks.now.words.id.views_name) × (seat.old.away ≢ None) × asks self blocks.now.words.fixed seat.old.view }
        ensures { (seat.new.base ≡ seat.old.base) × (seat.new.id ≡ seat.old.id) × (seat.new.away ≡ seat.old.away)
            × did self blocks.now.words.fixed seat.old.view result seat.new.view };
}

/// An errand in a memory.
pub(crate) struct Sent<'a, T, R: Rule<T>, E> {
    pub(crate) blocks: &'a Blocks<T, R>,
    pub(crate) errand: E,
}

impl<'a, T, R: Rule<T>, E: Errand<T, R>> Task<T, R> for Sent<'a, T, R, E> {
    type Answer = E::Answer;

    ghost asks = { λ s base v. (s.blocks.now.words.id.views_name ≡ base) × E.asks s.errand s.blocks.now.words.fixed v };

    ghost did = { λ s v answer w. E.did s.errand s.blocks.now.words.fixed v answer w };

    fn run(self, seat: &mut Seat<T, R>) -> E::Answer {
        let Self { blocks, errand } = self;
        errand.run(blocks, seat)
    }
}

/// A course of steps that a seat takes while another one is lent for it, which stays as it is meanwhile.
pub trait ErrandWith<T, R: Rule<T>>: Sized {
    /// What it answers.
    type Answer;

    /// What has to be so as it begins: the name of the memory, what was chosen as it was opened, the number and the view of the seat that is lent, and the view
    /// of the one that goes.
    ghost asks: { Self → ℕ → R.Fixed → ℕ → R.View → R.View → Type 0 };

    /// What it has come to: what was chosen, the view before it, the answer, and the view after it.
    ghost did: { Self → R.Fixed → R.View → Self.Answer → R.View → Type 0 };

    /// Takes the steps.
    fn run(self, blocks: &Blocks<T, R>, seat: &mut Seat<T, R>) -> Self::Answer
        requires { (seat.old.base ≡ blocks.now.words.id.views_name)
            × ((lent : ℕ) × (u : R.View) × Lends seat.old.away lent × asks self seat.old.base blocks.now.words.fixed lent u seat.old.view) }
        ensures { (seat.new.base ≡ seat.old.base) × (seat.new.id ≡ seat.old.id) × (seat.new.away ≡ seat.old.away)
            × did self blocks.now.words.fixed seat.old.view result seat.new.view };
}

/// A course of steps that a seat takes while two others are lent for it, or one twice, which stay as they are meanwhile: it may lean on both.
pub trait ErrandWithTwo<T, R: Rule<T>>: Sized {
    /// What it answers.
    type Answer;

    /// What has to be so as it begins: the name of the memory, what was chosen as it was opened, the number and the view of each seat that is lent, and the view
    /// of the one that goes.
    ghost asks: { Self → ℕ → R.Fixed → ℕ → R.View → ℕ → R.View → R.View → Type 0 };

    /// What it has come to: what was chosen, the view before it, the answer, and the view after it.
    ghost did: { Self → R.Fixed → R.View → Self.Answer → R.View → Type 0 };

    /// Takes the steps.
    fn run(self, blocks: &Blocks<T, R>, seat: &mut Seat<T, R>) -> Self::Answer
        requires { (seat.old.base ≡ blocks.now.words.id.views_name)
            × ((one : ℕ) × (u : R.View) × (other : ℕ) × (o : R.View) × Lends seat.old.away one × Lends seat.old.away other
            × asks self seat.old.base blocks.now.words.fixed one u other o seat.old.view) }
        ensures { (seat.new.base ≡ seat.old.base) × (seat.new.id ≡ seat.old.id) × (seat.new.away ≡ seat.old.away)
            × did self blocks.now.words.fixed seat.old.view result seat.new.view };
}

/// An errand for which one seat is lent, as one for which it is lent twice.
pub(crate) struct Single<E> {
    pub(crate) errand: E,
}

impl<T, R: Rule<T>, E: ErrandWith<T, R>> ErrandWithTwo<T, R> for Single<E> {
    type Answer = E::Answer;

    ghost asks = { λ s base fixed one u other o v. E.asks s.errand base fixed one u v };

    ghost did = { λ s fixed v answer w. E.did s.errand fixed v answer w };

    fn run(self, blocks: &Blocks<T, R>, seat: &mut Seat<T, R>) -> E::Answer {
        let Self { errand } = self;
        errand.run(blocks, seat)
    }
}

/// An errand for which seats are lent, in a memory.
pub(crate) struct Charged<'a, T, R: Rule<T>, E> {
    pub(crate) blocks: &'a Blocks<T, R>,
    pub(crate) errand: E,
}

impl<'a, T, R: Rule<T>, E: ErrandWithTwo<T, R>> Charge<T, R> for Charged<'a, T, R, E> {
    type Answer = E::Answer;

    ghost asks = { λ s base one u other o v. (s.blocks.now.words.id.views_name ≡ base)
        × E.asks s.errand base s.blocks.now.words.fixed one u other o v };

    ghost did = { λ s v answer w. E.did s.errand s.blocks.now.words.fixed v answer w };

    fn run(self, seat: &mut Seat<T, R>) -> E::Answer {
        let Self { blocks, errand } = self;
        errand.run(blocks, seat)
    }
}

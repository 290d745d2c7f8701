//! Who has the memory to himself, and errands, in the midst of which nobody has.
ghost use Rattle.std.specs.Prelude.{◌≡◌, ◌≢◌, ℕ, List, [], ◌∷◌, None};
ghost use Rattle.seize_seats.specs.Seats.Errands.{Lends, RenewsIdle, RenewsTo, RenewsFrom, RenewsInto};
ghost use Rattle.seize_seats.specs.Seats.Start.{WasIdle, WasKnown};
ghost use Rattle.seize_seats.specs.Seats.Owned.{IsLike};

use crate::rule::{Bequest, Rule};
use crate::seat::Seat;
use crate::task::{Charge, Task};
use crate::words::StripWords;
use std::marker::PhantomData;

impl<T, R: Rule<T>> StripWords<T, R> {
    /// Sends a seat on an errand: as long as that runs nobody has the memory to himself.
    pub fn errand<E: Task<T, R>>(&self, seat: &mut Seat<T, R>, errand: E) -> E::Answer
        requires { (seat.old.base ≡ self.now.id.views_name) × (seat.old.away ≡ None) × E.asks errand seat.old.base seat.old.view
            × ((answer : E.Answer) (w : R.View) → E.did errand seat.old.view answer w → R.rests w) }
        ensures { (seat.new.base ≡ seat.old.base) × (seat.new.id ≡ seat.old.id) × (seat.new.away ≡ None)
            × E.did errand seat.old.view result seat.new.view }
    {
        self.sent(seat, errand)
    }

    // The steps of an errand that a seat is on.
    fn sent<E: Task<T, R>>(&self, seat: &mut Seat<T, R>, errand: E) -> E::Answer
        requires { (seat.old.away ≢ None) × E.asks errand seat.old.base seat.old.view }
        ensures { (seat.new.base ≡ seat.old.base) × (seat.new.id ≡ seat.old.id) × (seat.new.away ≡ seat.old.away)
            × E.did errand seat.old.view result seat.new.view }
    {
        errand.run(seat)
    }

    /// Sends a seat on an errand for which two others are lent, or one twice: as long as that runs they take no step.
    pub fn errand_with_two<E: Charge<T, R>>(
        &self,
        seat: &mut Seat<T, R>,
        one: &Seat<T, R>,
        other: &Seat<T, R>,
        errand: E,
    ) -> E::Answer
        requires { (seat.old.base ≡ self.now.id.views_name) × (one.now.base ≡ self.now.id.views_name) × (other.now.base ≡ self.now.id.views_name)
            × (seat.old.away ≡ None)
            × E.asks errand seat.old.base one.now.id one.now.view other.now.id other.now.view seat.old.view
            × ((answer : E.Answer) (w : R.View) → E.did errand seat.old.view answer w → R.rests w) }
        ensures { (seat.new.base ≡ seat.old.base) × (seat.new.id ≡ seat.old.id) × (seat.new.away ≡ None)
            × E.did errand seat.old.view result seat.new.view }
    {
        self.charged(seat, errand)
    }

    // The steps of an errand that is lent two other seats.
    fn charged<E: Charge<T, R>>(&self, seat: &mut Seat<T, R>, errand: E) -> E::Answer
        requires { (one : ℕ) × (u : R.View) × (other : ℕ) × (o : R.View) × Lends seat.old.away one × Lends seat.old.away other
            × E.asks errand seat.old.base one u other o seat.old.view }
        ensures { (seat.new.base ≡ seat.old.base) × (seat.new.id ≡ seat.old.id) × (seat.new.away ≡ seat.old.away)
            × E.did errand seat.old.view result seat.new.view }
    {
        errand.run(seat)
    }

    /// Ends all seats, and puts the memory under another rule from then on, with one seat, which has just come.
    pub fn alone<S: Rule<T>>(self, fixed: &S::Fixed) -> (StripWords<T, S>, Seat<T, S>)
        requires { RenewsTo R.rests (R.holds self.fixed) (S.holds fixed.now) (S.newcomer fixed.now ∷ []) }
        ensures { (result.0.words ≡ self.words) × (result.0.fixed ≡ fixed.now) × IsLike result.0.id self.id
            × (result.1.base ≡ result.0.id.views_name) × (result.1.id ≡ 0) × (result.1.view ≡ S.newcomer fixed.now) × (result.1.away ≡ None)
            × WasIdle R.rests (R.holds self.fixed) result.0.start }
    {
        let StripWords { words, marker: _ } = self;
        (
            StripWords {
                words,
                marker: PhantomData,
            },
            Seat {
                marker: PhantomData,
            },
        )
    }

    /// Ends all seats, where it is known what this one knows, and puts the memory under another rule from then on, with no seat.
    pub fn used<S: Rule<T>>(self, seat: &mut Seat<T, R>, fixed: &S::Fixed) -> StripWords<T, S>
        requires { (seat.old.base ≡ self.id.views_name) × RenewsFrom R.rests (R.holds self.fixed) (S.holds fixed.now) seat.old.id seat.old.view }
        ensures { (result.words ≡ self.words) × (result.fixed ≡ fixed.now) × IsLike result.id self.id
            × WasKnown R.rests (R.holds self.fixed) seat.old.id seat.old.view result.start }
    {
        let StripWords { words, marker: _ } = self;
        StripWords {
            words,
            marker: PhantomData,
        }
    }

    /// Ends all seats, where it is known what this one knows, and puts the memory under another rule from then on, with the same seats: this one comes again, and
    /// nobody has the others.
    pub fn inherits<S: Rule<T>, B: Bequest<S::Fixed, R::View, S::View>>(
        self,
        seat: &mut Seat<T, R>,
        fixed: &S::Fixed,
    ) -> (StripWords<T, S>, Seat<T, S>)
        requires { (seat.old.base ≡ self.id.views_name) × S.rests (B.heir fixed.now seat.old.view)
            × ((v : R.View) → R.rests v → S.rests (B.left fixed.now v))
            × RenewsInto R.rests (R.holds self.fixed) (S.holds fixed.now) seat.old.id seat.old.view (B.left fixed.now) (B.heir fixed.now seat.old.view) }
        ensures { (result.0.words ≡ self.words) × (result.0.fixed ≡ fixed.now) × IsLike result.0.id self.id
            × (result.1.base ≡ result.0.id.views_name) × (result.1.id ≡ seat.old.id) × (result.1.view ≡ B.heir fixed.now seat.old.view)
            × (result.1.away ≡ None) × WasKnown R.rests (R.holds self.fixed) seat.old.id seat.old.view result.0.start }
    {
        let StripWords { words, marker: _ } = self;
        (
            StripWords {
                words,
                marker: PhantomData,
            },
            Seat {
                marker: PhantomData,
            },
        )
    }

    /// Ends all seats.
    pub fn renew(&mut self)
        requires { RenewsIdle R.rests (R.holds self.old.fixed) }
        ensures { (self.new.words ≡ self.old.words) × (self.new.fixed ≡ self.old.fixed) × IsLike self.new.id self.old.id
            × WasIdle R.rests (R.holds self.old.fixed) self.new.start }
    {}
}

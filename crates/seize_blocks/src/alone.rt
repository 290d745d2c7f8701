//! A memory that one seat has to itself, under a rule of its own, and that goes back under the rule of all.
ghost use Rattle.std.specs.Prelude.{◌≡◌, List, [], ◌∷◌, None};
ghost use Rattle.seize_seats.specs.Seats.Errands.{RenewsTo, RenewsFrom, RenewsInto};
ghost use Rattle.seize_seats.specs.Seats.Start.{WasIdle, WasKnown};
ghost use Rattle.seize_seats.specs.Seats.Owned.{IsLike};

use crate::blocks::Blocks;
use seize_atoms::{Bequest, Rule, Seat};

impl<T, R: Rule<T>> Blocks<T, R> {
    /// All seats end, and what was lent is back. The memory is under another rule from then on, with one seat, which has just come.
    pub(crate) fn alone<S: Rule<T>>(self, fixed: &S::Fixed) -> (Blocks<T, S>, Seat<T, S>)
        requires { RenewsTo R.rests (R.holds self.words.fixed) (S.holds fixed.now) (S.newcomer fixed.now ∷ []) }
        ensures fixed { result.0.words.fixed ≡ fixed.now }
        ensures comes { (result.1.base ≡ result.0.words.id.views_name) × (result.1.view ≡ S.newcomer fixed.now) × (result.1.away ≡ None) }
        ensures start { WasIdle R.rests (R.holds self.words.fixed) result.0.words.start }
        ensures same { (result.0.words.words ≡ self.words.words) × IsLike result.0.words.id self.words.id × (result.0.values.at ≡ self.values.at)
            × (result.0.doors.at ≡ self.doors.at) }
    {
        let Blocks {
            alloc,
            words,
            roots,
            count,
            last,
            digits,
            skip,
            values,
            doors,
        } = self;
        let (words, seat) = words.alone::<S>(fixed);
        (
            Blocks {
                alloc,
                words,
                roots,
                count,
                last,
                digits,
                skip,
                values,
                doors,
            },
            seat,
        )
    }

    /// All seats end, and what was lent is back, where it is known what this seat knows. The memory is under another rule from then on, with no seat.
    pub(crate) fn used<S: Rule<T>>(self, seat: Seat<T, R>, fixed: &S::Fixed) -> Blocks<T, S>
        requires { (seat.base ≡ self.words.id.views_name) × RenewsFrom R.rests (R.holds self.words.fixed) (S.holds fixed.now) seat.id seat.view }
        ensures fixed { result.words.fixed ≡ fixed.now }
        ensures start { WasKnown R.rests (R.holds self.words.fixed) seat.id seat.view result.words.start }
        ensures same { (result.words.words ≡ self.words.words) × IsLike result.words.id self.words.id × (result.values.at ≡ self.values.at)
            × (result.doors.at ≡ self.doors.at) }
    {
        let mut seat = seat;
        let Blocks {
            alloc,
            words,
            roots,
            count,
            last,
            digits,
            skip,
            values,
            doors,
        } = self;
        let words = words.used::<S>(&mut seat, fixed);
        Blocks {
            alloc,
            words,
            roots,
            count,
            last,
            digits,
            skip,
            values,
            doors,
        }
    }

    /// All seats end, and what was lent is back, where it is known what this seat knows. The memory is under another rule from then on, with the same seats: this one
    /// comes again, and nobody has the others.
    pub(crate) fn inherits<S: Rule<T>, B: Bequest<S::Fixed, R::View, S::View>>(
        self,
        seat: Seat<T, R>,
        fixed: &S::Fixed,
    ) -> (Blocks<T, S>, Seat<T, S>)
        requires own { seat.base ≡ self.words.id.views_name }
        requires rests { S.rests (B.heir fixed.now seat.view) × ((v : R.View) → R.rests v → S.rests (B.left fixed.now v)) }
        requires ends { RenewsInto R.rests (R.holds self.words.fixed) (S.holds fixed.now) seat.id seat.view (B.left fixed.now) (B.heir fixed.now seat.view) }
        ensures fixed { result.0.words.fixed ≡ fixed.now }
        ensures comes { (result.1.base ≡ result.0.words.id.views_name) × (result.1.id ≡ seat.id) × (result.1.view ≡ B.heir fixed.now seat.view)
            × (result.1.away ≡ None) }
        ensures start { WasKnown R.rests (R.holds self.words.fixed) seat.id seat.view result.0.words.start }
        ensures same { (result.0.words.words ≡ self.words.words) × IsLike result.0.words.id self.words.id × (result.0.values.at ≡ self.values.at)
            × (result.0.doors.at ≡ self.doors.at) }
    {
        let mut seat = seat;
        let Blocks {
            alloc,
            words,
            roots,
            count,
            last,
            digits,
            skip,
            values,
            doors,
        } = self;
        let (words, heir) = words.inherits::<S, B>(&mut seat, fixed);
        (
            Blocks {
                alloc,
                words,
                roots,
                count,
                last,
                digits,
                skip,
                values,
                doors,
            },
            heir,
        )
    }
}

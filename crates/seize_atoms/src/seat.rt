//! What one of those knows that share a memory.
ghost use Rattle.std.specs.Prelude.{ℕ};
ghost use Rattle.seize_seats.specs.Seats.Stretches.{seat_owns, seat_shares};
ghost use Rattle.seize_seats.specs.Seats.Visits.{Visit};
ghost use Rattle.seize_seats.specs.Seats.Errands.{Away, away_coded};
ghost use Rattle.seize_atoms.specs.Visiting.{seat_coded, visit_coded};

use crate::rule::Rule;
use std::marker::{Model, PhantomData};

/// The right to take steps, with what is known by those taken so far. It has no bytes.
pub struct Seat<T, R: Rule<T>> {
    pub marker: PhantomData<(T, R)>,
    pub ghost base: { ℕ },
    pub ghost id: { ℕ },
    pub ghost view: { R.View } by { R.View.code },
    pub ghost visit: { Visit } by { visit_coded },
    pub ghost away: { Away } by { away_coded },
    pub ghost stretch: { ℕ },
    pub ghost mark: { ℕ },
}

impl<T, R: Rule<T>> Model for Seat<T, R> {
    ghost also_owns = { λ s. seat_owns (seat_coded R.View.row.coded).code s.base s.id ((s.view, s.visit), s.away) s.stretch s.mark };

    ghost also_shares = { λ s _ κ. seat_shares (seat_coded R.View.row.coded).code s.base s.id ((s.view, s.visit), s.away) s.stretch s.mark κ };
}

impl<T, R: Rule<T>> Drop for Seat<T, R> {
    fn drop(self) {
        let Self { marker: _ } = self;
    }
}

unsafe impl<T, R: Rule<T>> Send for Seat<T, R> {}

unsafe impl<T, R: Rule<T>> Sync for Seat<T, R> {}

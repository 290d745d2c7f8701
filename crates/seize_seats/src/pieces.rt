//! The own words of many blocks.
ghost use Rattle.std.specs.Prelude.{◌≡◌, ℕ, List, []};
ghost use base.Stored.{coded_list, coded×, coded_ℕ};
ghost use denote.RawPtr.{Ptr, coded_ptr};
ghost use Rattle.seize_seats.specs.Plots.Pieces.{all_pieces, first_spot, other_spots};

use crate::piece::Piece;
use std::marker::{Model, PhantomData};

/// The words that lie in each of these spots, with the right to give their memory back. It has no bytes, and can't be let go.
pub struct Pieces {
    pub marker: PhantomData<u64>,
    pub ghost spots: { List (Ptr × ℕ) } by { coded_list (coded× coded_ptr coded_ℕ) },
}

impl Model for Pieces {
    ghost also_owns = { λ s. all_pieces s.spots };
}

impl Pieces {
    /// Parts those in the first spot from the others.
    pub fn next(self) -> (Piece, Pieces)
        ensures { (result.0.at ≡ (first_spot self.spots).0) × (result.0.count ≡ (first_spot self.spots).1)
            × (result.1.spots ≡ other_spots self.spots) }
    {
        let Pieces { marker: _ } = self;
        (
            Piece {
                marker: PhantomData,
            },
            Pieces {
                marker: PhantomData,
            },
        )
    }

    /// Ends where none are left.
    pub fn over(self)
        requires { self.spots ≡ [] }
    {
        let Pieces { marker: _ } = self;
    }
}

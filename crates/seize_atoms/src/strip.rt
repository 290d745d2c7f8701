//! What a strip of the numbers of a memory is known by.
ghost use Rattle.seize_seats.specs.Seats.Owned.{BaseId, base_id_coded, strip_known, strip_owns};
ghost use Rattle.seize_seats.specs.contracts.kept.Kept.{the_row as KeptOf};

use std::marker::{Model, PhantomData};

/// The address of the words of a strip, with what shows that it is one of a memory's.
#[derive(Drop)]
pub struct Strip<T> {
    pub words: *mut u64,
    pub marker: PhantomData<T>,
    pub ghost id: { BaseId } by { base_id_coded },
}

impl<T> Model for Strip<T> {
    ghost also_owns = { λ s. strip_owns (KeptOf T.row) s.words s.id };

    ghost also_shares = { λ s _ κ. strip_known (KeptOf T.row) s.words s.id };
}

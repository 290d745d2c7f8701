//! The claim to a number of a block.
ghost use Rattle.std.specs.Prelude.{ℕ};
ghost use Rattle.seize_seats.specs.Seats.Owned.{claim_owns};

use std::marker::Model;

/// What an attempt to claim a number came to: the number is claimed where 0 was found, and is lost till the end if the claim is dropped.
#[derive(Drop)]
pub struct Claim {
    pub found: u64,
    pub ghost base: { ℕ },
    pub ghost index: { ℕ },
}

impl Model for Claim {
    ghost also_owns = { λ s. claim_owns s.base s.index s.found };
}

//! What tells one crew from another.
use std::marker::Brand;
use std::sync::ledger::Ledger;

/// A crew: the ledger that counts its events, and what the collector of its run is made with.
pub trait CrewName: Ledger {
    ghost use Rattle.run_schedules.specs.declared.setup.Setup.{Setup};

    ghost setup: { Setup };
}

impl CrewName for Brand {
    ghost setup = { record { batch_size = 0; processors = 0; roots = 0 } };
}

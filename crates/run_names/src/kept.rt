//! Events of a crew.
ghost use Rattle.std.specs.Prelude.{◌≡◌, IfOk};
ghost use Rattle.run_names.specs.Crews.Crew.{events_of};

use crate::runner::Runner;
use std::alloc::{AllocError, Global};

/// An event of the kept schedule.
#[derive(Drop)]
pub struct KeptEvent<E> {
    /// The number of the driver that applied it.
    pub driver: u64,
    /// The event.
    pub event: E,
}

/// An event that a driver applied.
#[derive(Drop)]
pub struct Applied<E, O> {
    /// The event.
    pub event: E,
    /// What it came to.
    pub outcome: O,
}

/// Copies of the events of a schedule.
pub fn events_again<E: Drop, R: Runner<E>>(
    alloc: Global,
    schedule: &[KeptEvent<E>],
) -> Result<Vec<E>, AllocError>
    requires { R.can_copy }
    ensures { IfOk result (λ events. events.items ≡ events_of schedule.now) }
{
    let mut again = Vec::new(alloc);
    let mut left = schedule;
    while let Some((kept, later)) = left.split_first() {
        again.push(R::copy_of_event(alloc, &kept.event)?)?;
        left = later;
    }
    Ok(again)
}

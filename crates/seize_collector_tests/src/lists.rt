//! A value that keeps a list of further values is put with the words that it asks for, and comes back where these can't be counted.
ghost use Rattle.std.specs.Prelude.{Some};

use crate::{Told, opened};
use seize::Fault;
use seize::rows::Defers;
use seize_collector::{RootGuard, Shared};
use std::alloc::Global;

/// A number, which keeps a list at this word of its block.
#[derive(Drop)]
struct Listed {
    number: u64,
    field: u64,
}

impl Defers for Listed {
    ghost defers = { λ x. Some x.field };

    fn deferred(&self) -> Option<u64> {
        Some(self.field)
    }
}

/// The number that has come back, 0 for none.
fn back(came: Result<(), Listed>) -> u64 {
    match came {
        Ok(()) => 0,
        Err(value) => value.number,
    }
}

/// Which numbers come back from a guard that is to put one, and then one where it has seen nothing.
fn come_back(collector: &Shared<'_, Listed>, field: u64) -> Option<(u64, u64)> {
    let mut guard = collector.enter_owned().ok()?;
    let first = back(guard.put(0, Listed { number: 1, field }));
    let second = back(guard.exchange(0, Listed { number: 2, field }));
    Some((first, second))
}

/// The same over one collector, which ends then.
fn come_back_alone(alloc: Global, field: u64) -> Result<Option<(u64, u64)>, Fault> {
    let collector = opened(alloc)?;
    Ok(come_back(&collector.shared(), field))
}

/// Tells whether a value that keeps a list is put if its words can be counted.
pub(crate) fn are_put(alloc: Global) -> Told {
    let mut all = true;
    for (field, first) in [(0, 0), (2, 0), (1 << 62, 1), (u64::MAX, 1)] {
        let back = come_back_alone(alloc, field)? == Some((first, 2));
        all = all && back;
    }
    Ok(all)
}

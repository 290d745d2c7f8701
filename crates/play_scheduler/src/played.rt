//! What an event came to: an entry of a log, without the event.
ghost use Rattle.std.specs.Prelude.{◌≡◌, []};

use run_schedules::effect::Effect;
use run_schedules::outcome::Outcome;
use seize_words::Fault;
use std::alloc::Global;

/// What an event came to, how many steps of a call it made, and what it did.
#[derive(Drop)]
pub struct Played<V> {
    /// What it came to.
    pub outcome: Outcome<V>,
    /// How many steps of a call it made.
    pub steps: u64,
    /// What it did.
    pub effects: Vec<Effect>,
}

impl<V> Played<V> {
    /// Returns what made no step of a call, did nothing, and came to this.
    pub fn quietly(alloc: Global, outcome: Outcome<V>) -> Self
        ensures outcome { result.outcome ≡ outcome }
        ensures steps { result.steps ≡ 0 }
        ensures effects { result.effects.items ≡ [] }
    {
        Played {
            outcome,
            steps: 0,
            effects: Vec::new(alloc),
        }
    }

    /// Returns what was out of turn.
    pub fn busy(alloc: Global) -> Self
        ensures outcome { result.outcome ≡ Outcome.Refused Fault.Busy }
        ensures steps { result.steps ≡ 0 }
        ensures effects { result.effects.items ≡ [] }
    {
        Played::quietly(alloc, Outcome::Refused(Fault::Busy))
    }
}

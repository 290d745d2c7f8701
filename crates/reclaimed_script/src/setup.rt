//! The collector and the hashes that a schedule asks for.
ghost use Rattle.std.specs.Prelude.{◌≡◌};
ghost use Rattle.reclaimed_script.specs.Script.{setup_of, hasher_of};

use run_schedules::event::Event;
use run_schedules::key_hash::KeyHash;
use run_schedules::setup::Setup;
use run_schedules::token::Token;

const USUAL_SETUP: Setup = Setup {
    batch_size: 32,
    processors: 1,
    roots: 8,
};

/// Returns the setup of a collector that is the first event, and else the usual one: a batch of 32, one processor and eight roots.
pub fn setup_of(events: &[Event<u64, Token>]) -> Setup
    ensures { result ≡ setup_of events.now }
{
    match events {
        [Event::Collector(setup), ..] => *setup,
        _ => USUAL_SETUP,
    }
}

/// Returns how keys get their hashes: as the last event says that speaks of it before the first one that makes a map. Where there is none, the hash of a key is
/// the key.
pub fn hasher_of(events: &[Event<u64, Token>]) -> KeyHash
    ensures { result ≡ hasher_of events.now }
{
    let mut by = KeyHash::Key;
    for event in events {
        match event {
            Event::Hash(said) => by = *said,
            Event::MakeMap { .. } => return by,
            _ => {}
        }
    }
    by
}

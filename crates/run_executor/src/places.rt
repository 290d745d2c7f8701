//! With how many places a map begins.
ghost use Rattle.std.specs.Prelude.{◌≡◌, None, Some, IfOk, IfErr};
ghost use Rattle.run_schedules.specs.Runs.Runs.{map_fault};
ghost use Rattle.run_executor.specs.Named.Places.{IsFirstLen, first_places};

use papaya_raw::{ResizeMode, entries_for};
use seize_words::Fault;

/// Returns the places that a map is made with, for so many pairs at least: none at all for none. The faults are ZeroChunk and Capacity.
pub fn places_for(mode: ResizeMode, capacity: u64) -> Result<u64, Fault>
    ensures fault { IfErr result (λ fault. map_fault mode capacity ≡ Some fault) }
    ensures none { IfOk result (λ places. map_fault mode capacity ≡ None) }
    ensures places { IfOk result (λ places. places ≡ first_places capacity) }
    ensures first { IfOk result IsFirstLen }
{
    if mode == ResizeMode::Incremental(0) {
        return Err(Fault::ZeroChunk);
    }
    let entries = entries_for(capacity)?;
    Ok(if capacity == 0 { 0 } else { entries })
}

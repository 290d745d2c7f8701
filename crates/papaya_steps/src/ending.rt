//! What a run tells at its end of the maps that live.
ghost use Rattle.std.specs.Prelude.{◌≡◌, map, IfOk};
ghost use Rattle.papaya_steps.specs.WholeRuns.Ending.{shown_of, map_reported};

use crate::NamedMap;
use run_effects::tally::Tally;
use run_names::crowd::Crowd;
use run_schedules::ended::Living;
use std::alloc::{AllocError, Global};

/// Returns the maps that live, with the numbers of their pairs.
pub fn living(
    alloc: Global,
    maps: Crowd<NamedMap>,
    tally: &Tally,
) -> Result<Vec<Living>, AllocError>
    ensures { IfOk result (λ living. map shown_of living.items ≡ map (map_reported tally.now) maps) }
{
    let by_map = tally.by_map(alloc)?;
    let maps = maps.into_items()?;
    let mut living = Vec::new(alloc);
    for named in maps {
        let pairs = by_map.pairs_of(alloc, named.number)?;
        living.push(Living {
            name: named.name,
            pairs,
        })?;
    }
    Ok(living)
}

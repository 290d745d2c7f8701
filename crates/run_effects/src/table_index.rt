//! Where each table stands in the list of those that ever were tables of maps.
ghost use Rattle.std.specs.Prelude.{◌≡◌, true, None, OnOk};
ghost use Rattle.run_schedules.specs.declared.effect.TableId.{TableId};
ghost use Rattle.run_effects.specs.Tallies.Places.{Comes, place_of, put_at};

use run_schedules::effect::TableId;
use std::alloc::{AllocError, Global};
use std::collections::HashMap;

/// Where each table stands in a list, by its map and its turn.
#[derive(Drop)]
pub struct TableIndex {
    by_turn: HashMap<(u64, u64), usize>,
    /// Whether each table came once. Else none has a place here.
    is_whole: bool,
}

impl TableIndex {
    /// Begins where no table came yet.
    pub fn nothing(alloc: Global) -> Self
        ensures whole { result.is_whole ≡ true }
        ensures places { (table : TableId) → put_at table result ≡ None }
    {
        TableIndex {
            by_turn: HashMap::new(alloc),
            is_whole: true,
        }
    }

    /// Returns the place of this table.
    pub fn get(&self, table: TableId) -> Option<usize>
        ensures { result ≡ place_of table self.now }
    {
        if self.is_whole {
            self.by_turn.get(&(table.map, table.turn)).copied()
        } else {
            None
        }
    }

    /// This table comes, and stands at this place.
    pub fn put(&mut self, table: TableId, place: usize) -> Result<(), AllocError>
        ensures { OnOk result (Comes table place self.old self.new) }
    {
        let before = self.by_turn.insert((table.map, table.turn), place)?;
        self.is_whole = self.is_whole && before.is_none();
        Ok(())
    }
}

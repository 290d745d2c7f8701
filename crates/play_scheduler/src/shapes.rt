//! The tables of a map, as a schedule is shown them.
ghost use Rattle.std.specs.Prelude.{◌≡◌, ◌-◌, ◌++◌, ℕ, Bool, map, IfOk};
ghost use Rattle.run_schedules.specs.declared.event.Event.TheVariants as event;
ghost use Rattle.map_straight.specs.Given.RuleChart.{Chart};
ghost use Rattle.map_straight.specs.Given.RuleWords.{Blocks};
ghost use Rattle.map_straight.specs.Shown.Shown.{HasMap, tables_on};
ghost use Rattle.play_scheduler.specs.Played.{MayPlay, PlaysAt};
ghost use Rattle.play_scheduler.specs.Shapes.{shape_of};
ghost use Rattle.play_scheduler.specs.Quiet.{BusyIsSilent};
ghost use Rattle.play_scheduler.specs.Works.{WorksOnSetup};

use crate::played::Played;
use crate::scheduler::Scheduler;
use map_straight::{root_of, table_behind};
use papaya_raw::{Node, Setting, Table};
use run_schedules::outcome::Outcome;
use run_schedules::shapes::TableShape;
use run_schedules::token::Token;
use seize_words::Plain;
use std::alloc::{AllocError, Global};

/// How long a table is, and its last try.
fn shape_of(table: Table) -> TableShape
    ensures { result ≡ shape_of table }
{
    TableShape {
        len: table.len,
        limit: table.limit,
    }
}

/// The tables of a map, from its root on.
fn shapes<K, V>(
    alloc: Global,
    memory: &Plain<Node<K, V>>,
    setting: Setting,
) -> Result<Vec<TableShape>, AllocError>
    requires { (same : K → K → Bool) × (hash : K → ℕ) × (c : Chart K) × (blocks : Blocks) × HasMap same hash memory.now setting c blocks }
    ensures { IfOk result (λ shapes. (same : K → K → Bool) (hash : K → ℕ) (c : Chart K) (blocks : Blocks) → HasMap same hash memory.now setting c blocks → shapes.items ≡ map shape_of (tables_on c blocks c.first (c.past - c.first))) }
{
    let mut shapes = Vec::new(alloc);
    let mut next = root_of(memory, setting);
    while let Some(table) = next {
        shapes.push(shape_of(table))?;
        next = table_behind(memory, setting, table);
    }
    Ok(shapes)
}

impl<K: Drop, V: Drop, S> Scheduler<K, V, S> {
    /// Shows the tables of a map.
    pub fn show_shape(&self, map: &Token) -> Result<Played<V>, AllocError>
        requires { (same : K → K → Bool) × (hash : K → ℕ) × MayPlay same hash (event.ShowShape map.now) self.now }
        ensures steps { IfOk result (λ played. played.steps ≡ 0) }
        ensures quiet { IfOk result (λ played. BusyIsSilent played.outcome played.effects.items) }
        ensures plays { IfOk result (λ played. (same : K → K → Bool) (hash : K → ℕ) → PlaysAt same hash (event.ShowShape map.now) played self.now self.now) }
        ensures works { IfOk result (λ played. WorksOnSetup played self.now self.now (event.ShowShape map.now)) }
    {
        match self.setting_of(map) {
            Some((_, setting)) => {
                let memory = &self.logged.executor.memory.memory;
                let shapes = shapes(self.maps.alloc(), memory, setting)?;
                Ok(self.quietly(Outcome::Shape(shapes)))
            }
            None => Ok(self.busy()),
        }
    }
}

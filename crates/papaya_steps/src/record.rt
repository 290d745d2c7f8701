//! What the events of a schedule came to so far.
ghost use Rattle.std.specs.Prelude.{◌≡◌, ◌++◌, ◌∷◌, [], length, OnOk, if◌then◌else◌};
ghost use Rattle.run_schedules.specs.declared.shapes.Single.TheVariants.{Whole};
ghost use Rattle.run_schedules.specs.Schedules.Entry.{is_busy};
ghost use Rattle.papaya_steps.specs.WholeRuns.Acting.{singles_as};

use crate::Played;
use crate::acting::{Traced, is_busy};
use run_schedules::effect::Effect;
use run_schedules::outcome::Outcome;
use run_schedules::shapes::Single;
use std::alloc::{AllocError, Global};

/// What the events so far came to.
#[derive(Drop)]
pub struct Record<V> {
    /// What each came to.
    pub outcomes: Vec<Outcome<V>>,
    /// How many steps of a call each made.
    pub steps: Vec<u64>,
    /// What each did.
    pub effects: Vec<Vec<Effect>>,
    /// The single events.
    pub trace: Vec<Single>,
}

/// Adds the single events of an event at this place.
fn add_singles(
    trace: &mut Vec<Single>,
    place: u64,
    traced: Traced,
    steps: u64,
) -> Result<(), AllocError>
    ensures { OnOk result (trace.new.items ≡ trace.old.items ++ singles_as place traced steps) }
{
    match traced {
        Traced::Whole => trace.push(Single::Whole(place))?,
        Traced::Begins => trace.push(Single::Begin(place))?,
        Traced::Runs => {
            trace.push(Single::Begin(place))?;
            trace.push(Single::Steps {
                event: place,
                count: steps,
            })?;
        }
        Traced::Steps => trace.push(Single::Steps {
            event: place,
            count: steps,
        })?,
    }
    Ok(())
}

impl<V: Drop> Record<V> {
    /// Begins a run in which nothing has happened yet.
    pub fn nothing(alloc: Global) -> Self
        ensures outcomes { result.outcomes.items ≡ [] }
        ensures steps { result.steps.items ≡ [] }
        ensures effects { result.effects.items ≡ [] }
        ensures trace { result.trace.items ≡ [] }
    {
        Record {
            outcomes: Vec::new(alloc),
            steps: Vec::new(alloc),
            effects: Vec::new(alloc),
            trace: Vec::new(alloc),
        }
    }

    /// Adds an event, of these single events, and what it came to.
    pub fn add(&mut self, traced: Traced, played: Played<V>) -> Result<(), AllocError>
        ensures outcomes { OnOk result (self.new.outcomes.items ≡ self.old.outcomes.items ++ played.outcome ∷ []) }
        ensures steps { OnOk result (self.new.steps.items ≡ self.old.steps.items ++ played.steps ∷ []) }
        ensures effects { OnOk result (self.new.effects.items ≡ self.old.effects.items ++ played.effects ∷ []) }
        ensures trace { OnOk result (self.new.trace.items ≡ self.old.trace.items
            ++ (if is_busy played.outcome then Whole (length self.old.outcomes.items) ∷ [] else singles_as (length self.old.outcomes.items) traced played.steps)) }
    {
        let place = self.outcomes.len() as u64;
        let traced = if is_busy(&played.outcome) {
            Traced::Whole
        } else {
            traced
        };
        add_singles(&mut self.trace, place, traced, played.steps)?;
        self.outcomes.push(played.outcome)?;
        self.steps.push(played.steps)?;
        self.effects.push(played.effects)?;
        Ok(())
    }
}

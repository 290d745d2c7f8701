//! The few effects of one operation.
ghost use Rattle.std.specs.Prelude.{◌≡◌, ◌++◌, OnOk};
ghost use Rattle.run_effects.specs.Effects.Did.{listed};

use run_schedules::effect::Effect;
use std::alloc::AllocError;

/// The effects of one operation, in their order.
#[derive(Clone, Copy)]
pub enum Did {
    /// None.
    Nothing,
    /// One.
    One(Effect),
    /// Two.
    Two(Effect, Effect),
}

impl Did {
    /// Adds them to a list.
    pub fn add_to(self, effects: &mut Vec<Effect>) -> Result<(), AllocError>
        ensures { OnOk result (effects.new.items ≡ effects.old.items ++ listed self) }
    {
        match self {
            Did::Nothing => {}
            Did::One(effect) => effects.push(effect)?,
            Did::Two(first, second) => {
                effects.push(first)?;
                effects.push(second)?;
            }
        }
        Ok(())
    }
}

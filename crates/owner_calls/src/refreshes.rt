//! Steps of a refresh, several at once: blocks of a batch are reclaimed one after another.
ghost use Rattle.owner_whole.specs.Strides.Ending.{Ends, Leads};
ghost use Rattle.owner_calls.specs.Owned.Machines.{refreshes_plan};

use crate::machines::OwnerRefresh;
use crate::skims::Skims;
use seize::rows::{Defers, Leaving};
use seize::{Advance, StepMachine};
use seize_straight::reclaims;
use seize_words::Plain;

impl OwnerRefresh {
    /// Reclaims the blocks of a batch, where it stands there.
    #[inline(always)]
    fn reclaims<T: Defers + Drop>(&mut self, memory: &mut Plain<T>)
        requires { Ends (refreshes_plan T.defers) self.old memory.old }
        ensures { Leads (refreshes_plan T.defers) self.old memory.old self.new memory.new }
    {
        let Leaving::Settles(settle) = &mut self.leave.stands else {
            return;
        };
        reclaims(settle, memory);
    }
}

impl<T: Defers + Drop> Skims<T, ()> for OwnerRefresh {
    fn skim(&mut self, memory: &mut Plain<T>) -> Advance<()> {
        self.reclaims(memory);
        self.step(memory)
    }
}

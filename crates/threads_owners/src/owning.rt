//! A caller makes a map of its own, and ends it.
ghost use Rattle.std.specs.Prelude.{◌≡◌, None};
ghost use Rattle.threads_ends.specs.Ending.{HasEndedOwn, OwnsWith};
ghost use Rattle.threads_errands.specs.Given.ErrandsMaking.{HasOwnOutcome, MayBegin};
ghost use Rattle.threads_errands.specs.Given.ViewsDeclared.view.SeatWork.TheVariants.{Nothing as NoWork};
ghost use Rattle.seize_views.specs.declared.view.SlotView.TheVariants.{Rests};

use map_machines::NewMap;
use map_tables::{Hashes, Setting};
use seize_words::Fault;
use threads_callers::MapCaller;
use threads_ends::{EndsOwn, MakesOwn};

/// Makes a map of no table by this machine, with this hasher, which is the caller's own. Where no root is free, or memory is refused, there is none.
pub fn makes_own<K: Eq + Drop, V: Drop, S: Hashes<K>>(
    caller: &mut MapCaller<'_, K, V, S>,
    hasher: &S,
    opening: NewMap,
) -> Result<Setting, Fault>
    requires may { MayBegin caller.old.blocks.now.words.fixed opening }
    requires rests { caller.old.seat.view.slot ≡ Rests }
    requires free { caller.old.seat.view.work ≡ NoWork }
    requires none { caller.old.seat.view.own ≡ None }
    ensures made { HasOwnOutcome hasher.now opening result caller.old.seat.view caller.new.seat.view }
    ensures blocks { caller.new.blocks ≡ caller.old.blocks }
{
    caller
        .blocks
        .errand(&mut caller.seat, MakesOwn { hasher, opening })
}

/// Ends the map that is the caller's own, of this setting, while others go on on other maps. It is refused nothing.
pub fn ends_own<K: Eq + Drop, V: Drop, S: Hashes<K>>(
    caller: &mut MapCaller<'_, K, V, S>,
    setting: Setting,
)
    requires rests { caller.old.seat.view.slot ≡ Rests }
    requires free { caller.old.seat.view.work ≡ NoWork }
    requires owns { OwnsWith setting caller.old.seat.view }
    ensures ended { HasEndedOwn caller.old.seat.view caller.new.seat.view }
    ensures blocks { caller.new.blocks ≡ caller.old.blocks }
{
    caller.blocks.errand(&mut caller.seat, EndsOwn { setting })
}

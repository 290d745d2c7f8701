//! A session shows the pairs of its map to a closure.
ghost use Rattle.std.specs.Prelude.{◌≡◌};
ghost use Rattle.papaya_raw.specs.Given.ReservesDeclared.sweep.Purpose.TheVariants.{Walks as ForWalk};
ghost use Rattle.threads_calls.specs.Given.SeizeViewsDeclared.view.Has.TheVariants.{Nothing};
ghost use Rattle.threads_calls.specs.Given.SeizeViewsDeclared.view.SlotView.TheVariants.{Inside};
ghost use Rattle.threads_sweeps.specs.Closures.{CalledOn, HasShownEach};
ghost use Rattle.threads_sweeps.specs.Swept.{HasGone};

use crate::onlooker::Onlooker;
use crate::walking::shows_to;
use map_tables::Hashes;
use seize_words::Fault;
use std::hash::Hash;
use std::sync::Wait;
use threads_calls::SessionBase;

/// A closure, as an onlooker: it is called with each pair.
#[derive(Drop)]
struct Calls<F> {
    each: F,
}

impl<K, V, F: FnMut(&K, &V)> Onlooker<K, V> for Calls<F> {
    ghost may_see = { λ c. F.IsAlwaysCallable c.each };

    ghost has_seen = { λ c key value n. CalledOn F.FnMut c.each key value n.each };

    fn sees(&mut self, key: &K, value: &V) {
        (self.each)(key, value)
    }
}

/// Shows the pairs of a session's map, within the section of its slot: each that is there from its beginning to its end once, and others that were there at a moment of it, none
/// twice. The faults are `Capacity` and `Memory`, of a table that this needs first; some pairs may have been shown then.
pub fn each<R: Wait, K: Eq + Hash + Drop, V: Drop, S: Hashes<K>, F: FnMut(&K, &V)>(
    session: &mut SessionBase<'_, K, V, S>,
    rt: &R,
    each: F,
) -> Result<(), Fault>
    requires inside { session.old.caller.seat.view.slot ≡ Inside session.old.slot Nothing }
    requires callable { F.IsAlwaysCallable each }
    ensures inside { session.new.caller.seat.view.slot ≡ Inside session.new.slot Nothing }
    ensures slot { session.new.slot ≡ session.old.slot }
    ensures gone { HasGone K.eq S.hash ForWalk result session.old.caller.seat.view session.new.caller.seat.view }
    ensures each { HasShownEach K.eq S.hash F.FnMut each session.old.caller.seat.view session.new.caller.seat.view }
    ensures map { session.new.caller.seat.view.map ≡ session.old.caller.seat.view.map }
    ensures blocks { session.new.caller.blocks ≡ session.old.caller.blocks }
{
    let (end, _) = shows_to(session, rt, Calls { each });
    end
}

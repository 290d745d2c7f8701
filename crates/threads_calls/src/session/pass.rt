//! A pass looks keys up under a session that is within its section.
ghost use Rattle.std.specs.Prelude.{◌≡◌, [], None, IfNone, IfSome};
ghost use Rattle.threads_callers.specs.Given.ErrandsLooking.{found_of};
ghost use Rattle.threads_callers.specs.Passing.{HasFoundUnder, HasRunUnder};
ghost use Rattle.threads_callers.specs.Given.ActsActs.{Get};
ghost use Rattle.seize_views.specs.declared.view.Has.TheVariants.{Nothing};
ghost use Rattle.seize_views.specs.declared.view.SlotView.TheVariants.{Inside};

use crate::session::SessionBase;
use map_machines::Lookup;
use map_tables::Hashes;
use std::hash::Hash;
use std::sync::Wait;
use threads_callers::{Form, MapPassSeat};

impl<'a, K: Eq, V, S: Hashes<K>> SessionBase<'a, K, V, S> {
    /// Makes a pass more, which may be sent to a thread.
    pub fn pass(&self) -> MapPassSeat<K, V, S>
        ensures own { result.seat.base ≡ self.now.caller.blocks.now.words.id.views_name }
        ensures none { result.seat.view.calls ≡ [] }
    {
        self.caller.pass()
    }
}

impl<'a, K: Eq + Hash, V, S: Hashes<K>> SessionBase<'a, K, V, S> {
    /// Looks a key up by a pass, within the section of the session's slot, and lends its pair, if the map has one: it is there for as long as the session is
    /// borrowed, whoever replaces or removes the pair meanwhile, and whatever the pass looks up then. Any number of passes may look keys up under one session at a time.
    pub fn find_by<'g, R: Wait, Q: Form<K, S>>(
        &'g self,
        rt: &R,
        key: &Q,
        pass: &mut MapPassSeat<K, V, S>,
    ) -> Option<(&'g K, &'g V)>
        requires own { pass.old.seat.base ≡ self.now.caller.blocks.now.words.id.views_name }
        requires inside { self.now.caller.seat.view.slot ≡ Inside self.now.slot Nothing }
        ensures own { pass.new.seat.base ≡ pass.old.seat.base }
        ensures found { IfSome result (λ pair. HasFoundUnder K.eq S.hash self.now.caller.blocks.now.words.fixed (Q.stands_for key.now) self.now.caller.seat.id self.now.caller.seat.view
            pass.old.seat.view pass.new.seat.view (pair.0.now, pair.1.now)) }
        ensures absent { IfNone result (HasRunUnder K.eq S.hash (Get (Q.stands_for key.now)) (found_of None) self.now.caller.seat.view pass.old.seat.view pass.new.seat.view) }
    {
        let hash = key.hash_by(self.hasher);
        let lookup = Lookup::new(self.setting.root, self.setting.mode, hash);
        self.caller.finds_by(rt, lookup, key, pass)
    }
}

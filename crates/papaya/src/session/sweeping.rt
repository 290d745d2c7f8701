//! A session of a set goes over the elements of that: it shows them to a closure, or keeps those of which a test says yes.
ghost use Rattle.std.specs.Prelude.{IfOk, IfErr};
ghost use Rattle.papaya.specs.OneSet.{SetWasShown, SetWasSifted};
ghost use Rattle.papaya.specs.Swept.{HasHeededElements, HasShownElements};
ghost use Rattle.papaya_map.specs.Given.Onlookers.{HasBeenShown};
ghost use Rattle.papaya_map.specs.Given.SessionsKept.{KeepsMap};
ghost use Rattle.papaya_map.specs.Given.SessionsOneMap.{WasRefused};
ghost use Rattle.papaya_map.specs.Given.Swept.{retains, walks};

use super::SetSession;
use map_tables::Hashes;
use papaya_map::Onlooker;
use seize_words::Fault;
use std::hash::Hash;
use std::sync::Wait;

impl<'m, K: Eq + Hash + Drop, S: Hashes<K>> SetSession<'m, K, S> {
    /// Shows the elements of the set to a closure: each that is there from the beginning of the call to its end once, and others that were there at a moment of it, none twice.
    /// The faults are `Fault::Capacity` and `Fault::Memory`, of a table that this needs first; some elements may have been shown then.
    pub fn each<R: Wait, F: FnMut(&K)>(&mut self, rt: &R, mut each: F) -> Result<(), Fault>
        requires callable { F.IsAlwaysCallable each }
        ensures keeps { KeepsMap self.old.session self.new.session }
        ensures shown { IfOk result (λ _. SetWasShown K.eq S.hash self.old.session.base.caller self.new.session.base.caller) }
        ensures each { HasShownElements K.eq S.hash F.FnMut each self.old.session.base.caller self.new.session.base.caller }
        ensures refused { IfErr result (λ fault. WasRefused K.eq S.hash walks fault self.old.session.base.caller self.new.session.base.caller) }
    {
        self.session.each(rt, move |element, _| each(element))
    }

    /// Shows the elements of the set to an onlooker, each with a unit for its value, and hands it back, beside how the walk has ended. The faults are those of `each`.
    pub fn shows_to<R: Wait, T: Onlooker<K, ()>>(
        &mut self,
        rt: &R,
        onlooker: T,
    ) -> (Result<(), Fault>, T)
        requires may { T.may_see onlooker }
        ensures keeps { KeepsMap self.old.session self.new.session }
        ensures shown { IfOk result.0 (λ _. SetWasShown K.eq S.hash self.old.session.base.caller self.new.session.base.caller) }
        ensures told { HasBeenShown K.eq S.hash T.has_seen onlooker result.1 self.old.session.base.caller.seat.view self.new.session.base.caller.seat.view }
        ensures refused { IfErr result.0 (λ fault. WasRefused K.eq S.hash walks fault self.old.session.base.caller self.new.session.base.caller) }
    {
        self.session.shows_to(rt, onlooker)
    }

    /// Removes the elements about which a closure says that they are not to be kept. Each that is there from the beginning of the call to its end is asked about, and it may be
    /// asked again. What was removed is dropped once no section that was open before holds it. The faults are `Fault::Capacity` and `Fault::Memory`, of a table that this needs;
    /// some elements may be gone then.
    pub fn retain<R: Wait, F: FnMut(&K) -> bool>(
        &mut self,
        rt: &R,
        mut keep: F,
    ) -> Result<(), Fault>
        requires callable { F.IsAlwaysCallable keep }
        ensures keeps { KeepsMap self.old.session self.new.session }
        ensures sifted { IfOk result (λ _. SetWasSifted K.eq S.hash self.old.session.base.caller self.new.session.base.caller) }
        ensures heeded { HasHeededElements K.eq S.hash F.FnMut keep self.old.session.base.caller self.new.session.base.caller }
        ensures refused { IfErr result (λ fault. WasRefused K.eq S.hash retains fault self.old.session.base.caller self.new.session.base.caller) }
    {
        self.session.retain(rt, move |element, _| keep(element))
    }
}

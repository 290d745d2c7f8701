//! A session's calls on its whole map that ask nothing: they count its pairs, make room for further ones, and remove all of them.
ghost use Rattle.std.specs.Prelude.{◌≡◌, Err, IfErr, IfOk};
ghost use Rattle.threads_callers.specs.Given.ErrandsCalling.{outcome_of};
ghost use Rattle.threads_callers.specs.Given.ErrandsLooking.{HasRun};
ghost use Rattle.threads_callers.specs.Given.ActsActs.{MakeRoom};
ghost use Rattle.threads_calls.specs.Answers.{HasFoundEmpty, HasMeasured, HasReserved, HasSweptAll, clears};
ghost use Rattle.seize_views.specs.declared.view.Has.TheVariants.{Nothing};
ghost use Rattle.seize_views.specs.declared.view.SlotView.TheVariants.{Inside};

use crate::session::{SessionBase, setting_in};
use map_tables::Hashes;
use papaya_raw::machines::{Machine, Reserve, Sum, Sweep};
use seize_words::Fault;
use std::hash::Hash;
use std::sync::Wait;
use threads_callers::told_of;

impl<'a, K: Eq + Hash + Drop, V: Drop, S: Hashes<K>> SessionBase<'a, K, V, S> {
    /// Counts the pairs within its section, a shard of the map's count a step: while others change the map it may answer what was never so at one moment.
    pub fn len(&mut self) -> u64
        requires inside { self.old.caller.seat.view.slot ≡ Inside self.old.slot Nothing }
        ensures inside { self.new.caller.seat.view.slot ≡ Inside self.new.slot Nothing }
        ensures slot { self.new.slot ≡ self.old.slot }
        ensures counted { HasMeasured K.eq S.hash result self.old.caller.seat.view self.new.caller.seat.view }
        ensures map { self.new.caller.seat.view.map ≡ self.old.caller.seat.view.map }
        ensures blocks { self.new.caller.blocks ≡ self.old.caller.blocks }
    {
        let setting = setting_in(self.setting, self.slot);
        let sum = Sum::new(setting);
        self.caller.counts(self.hasher, Machine::Count(sum))
    }

    /// Tells whether the map has no pair, by its count.
    pub fn is_empty(&mut self) -> bool
        requires inside { self.old.caller.seat.view.slot ≡ Inside self.old.slot Nothing }
        ensures inside { self.new.caller.seat.view.slot ≡ Inside self.new.slot Nothing }
        ensures slot { self.new.slot ≡ self.old.slot }
        ensures counted { HasFoundEmpty K.eq S.hash result self.old.caller.seat.view self.new.caller.seat.view }
        ensures map { self.new.caller.seat.view.map ≡ self.old.caller.seat.view.map }
        ensures blocks { self.new.caller.blocks ≡ self.old.caller.blocks }
    {
        let count = self.len();
        count == 0
    }

    /// Makes room for so many further pairs, within the section of its slot. The faults are `Capacity` and `Memory`; no pair was changed then, nor is one where it is done.
    pub fn reserve<R: Wait>(&mut self, rt: &R, additional: u64) -> Result<(), Fault>
        requires inside { self.old.caller.seat.view.slot ≡ Inside self.old.slot Nothing }
        ensures inside { self.new.caller.seat.view.slot ≡ Inside self.new.slot Nothing }
        ensures slot { self.new.slot ≡ self.old.slot }
        ensures done { IfOk result (λ _. HasReserved K.eq S.hash additional self.old.caller.seat.view self.new.caller.seat.view) }
        ensures refused { IfErr result (λ fault. HasRun K.eq S.hash (MakeRoom additional) (outcome_of (Err fault)) self.old.caller.seat.view self.new.caller.seat.view) }
        ensures map { self.new.caller.seat.view.map ≡ self.old.caller.seat.view.map }
        ensures blocks { self.new.caller.blocks ≡ self.old.caller.blocks }
    {
        let setting = setting_in(self.setting, self.slot);
        let call = Reserve::new(setting, additional);
        let ran = self.caller.does(rt, self.hasher, Machine::Reserve(call));
        match told_of(ran) {
            Ok(_) => Ok(()),
            Err(fault) => Err(fault),
        }
    }

    /// Removes the pairs of the map, within the section of its slot: each that is there from its beginning to its end. What was removed is reclaimed once no section that had
    /// begun before holds it. The faults are `Capacity` and `Memory`, of a table that this needs first; some pairs may have been removed by then.
    pub fn clear<R: Wait>(&mut self, rt: &R) -> Result<(), Fault>
        requires inside { self.old.caller.seat.view.slot ≡ Inside self.old.slot Nothing }
        ensures inside { self.new.caller.seat.view.slot ≡ Inside self.new.slot Nothing }
        ensures slot { self.new.slot ≡ self.old.slot }
        ensures cleared { IfOk result (λ _. HasSweptAll K.eq S.hash self.old.caller.seat.view self.new.caller.seat.view) }
        ensures refused { IfErr result (λ fault. HasRun K.eq S.hash clears (outcome_of (Err fault)) self.old.caller.seat.view self.new.caller.seat.view) }
        ensures map { self.new.caller.seat.view.map ≡ self.old.caller.seat.view.map }
        ensures blocks { self.new.caller.blocks ≡ self.old.caller.blocks }
    {
        let setting = setting_in(self.setting, self.slot);
        let call = Sweep::clear(setting);
        let ran = self.caller.does(rt, self.hasher, Machine::Sweep(call));
        match told_of(ran) {
            Ok(_) => Ok(()),
            Err(fault) => Err(fault),
        }
    }
}

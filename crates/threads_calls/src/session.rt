//! A map, as one of those knows it who share it.
ghost use Rattle.std.specs.Prelude.{◌≡◌, ◌≤◌, ◌<◌, ◌^◌, [], Some, None, Err, IfErr, IfNone, IfOk, IfSome, is_some, option_map};
ghost use Rattle.threads_callers.specs.Given.ErrandsCalling.{outcome_of};
ghost use Rattle.threads_callers.specs.Given.ErrandsLooking.{HasRun, found_of};
ghost use Rattle.threads_calls.specs.Answers.{HasReplaced, HasStored};
ghost use Rattle.threads_calls.specs.Shown.{IsLent, IsPairLent, IsShown, Shows};
ghost use Rattle.threads_callers.specs.Standing.{known_by};
ghost use Rattle.threads_callers.specs.Given.ActsActs.{Get, Insert};
ghost use Rattle.threads_callers.specs.Given.ViewsDeclared.view.SeatWork.TheVariants.{Nothing as NoWork};
ghost use Rattle.seize_views.specs.declared.view.Has.TheVariants.{Nothing};
ghost use Rattle.seize_views.specs.declared.view.SlotView.TheVariants.{Inside, Outside, Rests};

mod keys;
mod pass;
mod seats;
mod sends;
mod whole;

use map_machines::{Lookup, NewMap};
use map_tables::{Counter, Hashes, Node, ResizeMode, Setting};
use papaya_raw::machines::There;
use seize_blocks::Blocks;
use seize_views::Fixed;
use seize_words::{Fault, Link, Refused};
use std::hash::Hash;
use std::sync::Wait;
use threads_callers::{Form, Found, MapCaller, OfMaps, Ran, Sleepers, refused, replaced};

/// A map, as one of those knows it who share it: with a seat of its own, which may be sent to a thread. It has nothing under way between its calls.
pub struct SessionBase<'a, K: Eq, V, S: Hashes<K>> {
    caller: MapCaller<'a, K, V, S>,
    hasher: &'a S,
    setting: Setting,
    slot: u64,
    ghost sized: { caller.blocks.now.words.fixed.batch_size ≡ setting.batch_size },
    ghost knows: { known_by caller.seat.view ≡ Some (setting, hasher.now) },
    ghost free: { caller.seat.view.work ≡ NoWork },
}

/// Returns what a call works with in this slot.
fn setting_in(setting: Setting, slot: u64) -> Setting
    ensures { result ≡ record setting { slot = slot } }
{
    Setting { slot, ..setting }
}

impl<'a, K: Eq + Drop, V: Drop, S: Hashes<K>> SessionBase<'a, K, V, S> {
    /// Makes a map with no pair, and no table yet, in a memory that was opened so; its keys are hashed by this hasher. It comes to its next table so as
    /// it grows, and counts its pairs for so many processors. The faults are `RootsUsedUp` and `Memory`: there is no map then, and no root is taken.
    pub fn open(
        blocks: &'a Blocks<Node<K, V>, OfMaps<S>>,
        sleepers: &'a Sleepers,
        hasher: &'a S,
        chosen: &Fixed,
        mode: ResizeMode,
        processors: u64,
    ) -> Result<Self, Fault>
        requires fixed { blocks.now.words.fixed ≡ chosen.now }
        requires roots { 0 < chosen.now.roots }
        requires processors { processors ≤ 2 ^ 63 }
        ensures blocks { IfOk result (λ session. session.caller.blocks.now ≡ blocks.now) }
        ensures rests { IfOk result (λ session. session.caller.seat.view.slot ≡ Rests) }
        ensures none { IfOk result (λ session. session.caller.seat.view.calls ≡ []) }
        ensures hashes { IfOk result (λ session. session.hasher.now ≡ hasher.now) }
        ensures mode { IfOk result (λ session. session.setting.mode ≡ mode) }
    {
        let setting = Setting {
            slot: 0,
            batch_size: chosen.batch_size,
            root: 0,
            mode,
            counter: 0,
            mask: Counter::new(processors).mask,
            initial: 1,
        };
        let opening = NewMap::new(setting, chosen.roots, 0);
        let mut caller = MapCaller::new(blocks, sleepers);
        let setting = caller.makes_map(hasher, opening)?;
        Ok(SessionBase {
            caller,
            hasher,
            setting,
            slot: 0,
        })
    }
}

impl<'a, K: Eq, V, S: Hashes<K>> SessionBase<'a, K, V, S> {
    /// Returns the same map for one more of those who share it.
    pub fn session(&self) -> Self
        ensures blocks { result.caller.blocks.now ≡ self.now.caller.blocks.now }
        ensures map { result.caller.seat.view.map ≡ self.now.caller.seat.view.map }
        ensures rests { result.caller.seat.view.slot ≡ Rests }
        ensures none { result.caller.seat.view.calls ≡ [] }
    {
        let caller = self.caller.shows();
        SessionBase {
            caller,
            hasher: self.hasher,
            setting: self.setting,
            slot: 0,
        }
    }

    /// Takes the first slot that can be taken. The faults are `SlotsUsedUp` and `Memory`: it has none then.
    pub fn register(&mut self) -> Result<(), Fault>
        requires rests { self.old.caller.seat.view.slot ≡ Rests }
        ensures taken { IfOk result (λ _. self.new.caller.seat.view.slot ≡ Outside self.new.slot) }
        ensures refused { IfErr result (λ fault. self.new.caller.seat.view.slot ≡ Rests) }
        ensures calls { self.new.caller.seat.view.calls ≡ self.old.caller.seat.view.calls }
        ensures map { self.new.caller.seat.view.map ≡ self.old.caller.seat.view.map }
        ensures blocks { self.new.caller.blocks ≡ self.old.caller.blocks }
    {
        self.slot = self.caller.register(self.setting.batch_size)?;
        Ok(())
    }

    /// Opens a section of its slot.
    pub fn enter(&mut self)
        requires outside { self.old.caller.seat.view.slot ≡ Outside self.old.slot }
        ensures inside { self.new.caller.seat.view.slot ≡ Inside self.new.slot Nothing }
        ensures calls { self.new.caller.seat.view.calls ≡ self.old.caller.seat.view.calls }
        ensures map { self.new.caller.seat.view.map ≡ self.old.caller.seat.view.map }
        ensures blocks { self.new.caller.blocks ≡ self.old.caller.blocks }
    {
        self.caller.enter(self.setting.batch_size, self.slot);
    }

    /// Gives its slot up.
    pub fn unregister(&mut self)
        requires outside { self.old.caller.seat.view.slot ≡ Outside self.old.slot }
        ensures rests { self.new.caller.seat.view.slot ≡ Rests }
        ensures calls { self.new.caller.seat.view.calls ≡ self.old.caller.seat.view.calls }
        ensures map { self.new.caller.seat.view.map ≡ self.old.caller.seat.view.map }
        ensures blocks { self.new.caller.blocks ≡ self.old.caller.blocks }
    {
        self.caller.unregister(self.setting.batch_size, self.slot);
    }
}

impl<'a, K: Eq + Drop, V: Drop, S: Hashes<K>> SessionBase<'a, K, V, S> {
    /// Ends the section: whatever was found can't be looked at from then on.
    pub fn leave(&mut self)
        requires inside { self.old.caller.seat.view.slot ≡ Inside self.old.slot Nothing }
        ensures outside { self.new.caller.seat.view.slot ≡ Outside self.new.slot }
        ensures calls { self.new.caller.seat.view.calls ≡ self.old.caller.seat.view.calls }
        ensures map { self.new.caller.seat.view.map ≡ self.old.caller.seat.view.map }
        ensures blocks { self.new.caller.blocks ≡ self.old.caller.blocks }
    {
        self.caller.leave(self.setting.batch_size, self.slot);
    }
}

impl<'a, K: Eq + Hash, V, S: Hashes<K>> SessionBase<'a, K, V, S> {
    /// Looks a key up within the section of its slot, and answers its pair, if the map has one: it is there until the session takes its next step.
    pub fn find<R: Wait, Q: Form<K, S>>(&mut self, rt: &R, key: &Q) -> Option<Found>
        requires inside { self.old.caller.seat.view.slot ≡ Inside self.old.slot Nothing }
        ensures inside { self.new.caller.seat.view.slot ≡ Inside self.new.slot Nothing }
        ensures slot { self.new.slot ≡ self.old.slot }
        ensures shown { IfSome result (λ found. IsShown K.eq (Q.stands_for key.now) self.new.caller found.word) }
        ensures found { IfSome result (λ found. HasRun K.eq S.hash (Get (Q.stands_for key.now)) (found_of (Some found.word)) self.old.caller.seat.view self.new.caller.seat.view) }
        ensures absent { IfNone result (HasRun K.eq S.hash (Get (Q.stands_for key.now)) (found_of None) self.old.caller.seat.view self.new.caller.seat.view) }
        ensures map { self.new.caller.seat.view.map ≡ self.old.caller.seat.view.map }
        ensures blocks { self.new.caller.blocks ≡ self.old.caller.blocks }
    {
        let hash = key.hash_by(self.hasher);
        let lookup = Lookup::new(self.setting.root, self.setting.mode, hash);
        let word = self.caller.finds(rt, lookup, key)?;
        Some(Found { word })
    }

    /// Returns a pair that the session shows, for as long as it is borrowed.
    pub fn pair(&self, found: Found) -> (&K, &V)
        requires shown { Shows self.now.caller found.word }
        ensures { IsPairLent K.eq S.hash self.now.caller found.word (result.0.now, result.1.now) }
    {
        match self.caller.pair(Link::block_of(found.word)) {
            Node::Pair(key, value) => (key, value),
            Node::Table { .. } | Node::Shards => unreachable!(),
        }
    }

    /// Returns the value of the pair that was found, for as long as the session is borrowed.
    pub fn value(&self, found: Found) -> &V
        requires shown { (key : K) × IsShown K.eq key self.now.caller found.word }
        ensures { IsLent K.eq S.hash self.now.caller found.word result.now }
    {
        self.pair(found).1
    }
}

impl<'a, K: Eq + Hash + Drop, V: Drop, S: Hashes<K>> SessionBase<'a, K, V, S> {
    /// Stores a pair within its section, and answers with the one that it replaced, there until its next step. After `Memory` and `Capacity` it comes back.
    pub fn insert<R: Wait>(
        &mut self,
        rt: &R,
        key: K,
        value: V,
    ) -> Result<Option<Found>, Refused<K, V>>
        requires inside { self.old.caller.seat.view.slot ≡ Inside self.old.slot Nothing }
        ensures inside { self.new.caller.seat.view.slot ≡ Inside self.new.slot Nothing }
        ensures slot { self.new.slot ≡ self.old.slot }
        ensures stored { IfOk result (λ old. HasStored K.eq S.hash key value (is_some old) self.old.caller.seat.view self.new.caller.seat.view) }
        ensures replaced { IfOk result (λ old. HasReplaced K.eq S.hash key value (option_map (λ found. found.word) old) self.old.caller.seat.view self.new.caller.seat.view) }
        ensures shown { IfOk result (λ old. IfSome old (λ found. Shows self.new.caller found.word)) }
        ensures refused { IfErr result (λ refused. HasRun K.eq S.hash (Insert key value) (outcome_of (Err refused.fault)) self.old.caller.seat.view self.new.caller.seat.view) }
        ensures back { IfErr result (λ refused. (refused.key ≡ key) × (refused.value ≡ value)) }
        ensures map { self.new.caller.seat.view.map ≡ self.old.caller.seat.view.map }
        ensures blocks { self.new.caller.blocks ≡ self.old.caller.blocks }
    {
        let hash = self.hasher.hash_of(&key);
        let setting = setting_in(self.setting, self.slot);
        let pair = Node::Pair(key, value);
        let ran = self
            .caller
            .stores(rt, self.hasher, setting, hash, There::Puts, pair);
        let Ran {
            told,
            unstored,
            near: _,
        } = ran;
        match told {
            Ok(answer) => Ok(replaced(&answer)),
            Err(fault) => Err(refused(fault, unstored)),
        }
    }
}

impl<'a, K: Eq, V, S: Hashes<K>> Drop for SessionBase<'a, K, V, S> {
    fn drop(self)
        requires rests { self.caller.seat.view.slot ≡ Rests }
    {
        let SessionBase {
            caller,
            hasher: _,
            setting: _,
            slot: _,
        } = self;
        drop(caller);
    }
}

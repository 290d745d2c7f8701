//! A map, as one of those has it who share it: with a slot of its own, within a section.
ghost use Rattle.std.specs.Prelude.{◌≡◌, ◌^◌, [], true, IfOk, IfErr, IfSome, is_some, nat_lt, option_map};
ghost use Rattle.std.specs.Borrow.{sem};
ghost use Rattle.std.specs.Fn.{FnOnceReturns};
ghost use Rattle.std.specs.Iterator.{IsFiniteIterable};
ghost use Rattle.papaya_sessions.specs.Asked.{MapGaveUpIf, MapHasNamedWith};
ghost use Rattle.papaya_sessions.specs.Extended.{Extends, PutsPair, RefusesPair, pair_of};
ghost use Rattle.papaya_sessions.specs.OneMap.{MapCameToHave, MapCounted, MapGaveUp, MapGaveUpNamed, MapHad, MapHadBefore, MapHadOne, MapHadRoom, MapHasNamed, MapLacked, MapLookedEmpty, MapWasCleared, MapWasShown, MapWasSifted, WasRefused};
ghost use Rattle.papaya_sessions.specs.Sessions.{HasMadeNone};
ghost use Rattle.play_moves.specs.Given.ActsActs.{Insert, MakeRoom, Remove, RemoveIf, TryToInsert, TryToInsertWith};
ghost use Rattle.threads_updates.specs.Given.CallsAnswers.{CameBack, clears, has_stored};
ghost use Rattle.threads_updates.specs.Given.CallsShown.{IsPairLent, Shows};
ghost use Rattle.threads_updates.specs.Given.SeizeViewsDeclared.view.Has.TheVariants.{Nothing};
ghost use Rattle.threads_updates.specs.Given.SeizeViewsDeclared.view.SlotView.TheVariants.{Inside, Rests};
ghost use Rattle.threads_updates.specs.Given.StepsAsking.{HasAsked, MakingSays, MayTest, TestSays};
ghost use Rattle.threads_sweeps.specs.Closures.{HasHeeded, HasShownEach};
ghost use Rattle.threads_sweeps.specs.Onlookers.{HasBeenShown};
ghost use Rattle.threads_sweeps.specs.Swept.{retains, walks};

mod comparing;
mod lends;
mod updates;

use crate::registration::Registration;
use map_tables::Hashes;
use seize_words::{Fault, Refused};
use std::hash::{Hash, RandomState};
use std::sync::Wait;
use threads_sweeps::Onlooker;
use threads_updates::{Attempt, Form, Found, SessionBase as Base};

/// A map, as one of those has it who share it. It may be sent to a thread, and holds a slot, within a section that is open from its beginning to its end: what its calls have
/// found isn't given back as long as the answer is borrowed. As long as it neither ends nor is refreshed, nothing that was removed or replaced meanwhile is reclaimed,
/// whoever did it: so who keeps a session for long refreshes it now and then.
pub struct Session<'m, K: Eq + Hash + Drop, V: Drop, S: Hashes<K> = RandomState> {
    pub(crate) base: Base<'m, K, V, S>,
    pub(crate) number: u64,
    ghost inside: { base.caller.seat.view.slot ≡ Inside base.slot Nothing },
    ghost small: { nat_lt base.caller.blocks.now.words.fixed.batch_size (2 ^ 64) ≡ true },
}

impl<'m, K: Eq + Hash + Drop, V: Drop, S: Hashes<K>> Session<'m, K, V, S> {
    ghost use Rattle.papaya_sessions.specs.Kept.{KeepsMap};
    ghost use Rattle.papaya_sessions.specs.Lent.{EndsSo};

    /// Takes a slot, and opens a section of it, for a map whose collector has this number. The faults are `Fault::SlotsUsedUp` and `Fault::Memory`: there is no session then.
    pub fn begin(base: Base<'m, K, V, S>, number: u64) -> Result<Self, Fault>
        requires rests { base.caller.seat.view.slot ≡ Rests }
        requires small { nat_lt base.caller.blocks.now.words.fixed.batch_size (2 ^ 64) ≡ true }
        ensures same { IfOk result (λ session. HasMadeNone base.entry.caller session.base.caller) }
        ensures number { IfOk result (λ session. session.number ≡ number) }
    {
        let registration = Registration::begin(base, number)?;
        Ok(registration.enter())
    }

    /// Returns the number of its map's collector.
    pub fn number(&self) -> u64
        ensures { result ≡ self.now.number }
    {
        self.number
    }

    /// Begins one more session on the same map. The faults are `Fault::SlotsUsedUp` and `Fault::Memory`.
    pub fn another(&self) -> Result<Session<'m, K, V, S>, Fault>
        ensures memory { IfOk result (λ session. session.base.caller.blocks.now ≡ self.now.base.caller.blocks.now) }
        ensures map { IfOk result (λ session. session.base.caller.seat.view.map ≡ self.now.base.caller.seat.view.map) }
        ensures none { IfOk result (λ session. session.base.caller.seat.view.calls ≡ []) }
        ensures number { IfOk result (λ session. session.number ≡ self.now.number) }
    {
        let base = self.base.session();
        Session::begin(base, self.number)
    }

    /// Ends its section, and opens another one.
    pub fn refresh(&mut self)
        ensures same { HasMadeNone self.old.base.caller self.new.base.caller }
        ensures number { self.new.number ≡ self.old.number }
    {
        self.base.leave();
        self.base.enter();
    }

    /// Ends its section, and keeps its slot: what it was lent before, and what was replaced or removed meanwhile, is kept from nobody any more.
    pub fn leave(self) -> Registration<'m, K, V, S>
        ensures same { HasMadeNone self.entry.base.caller result.base.caller }
        ensures number { result.number ≡ self.entry.number }
    {
        let Session { base, number } = self;
        let mut base = base;
        base.leave();
        Registration { base, number }
    }

    /// Looks a key up, and lends the value of its pair, if the map has one, for as long as the session is borrowed, whoever replaces or removes it meanwhile. How many
    /// steps that takes is up to the others.
    pub fn get<R: Wait, Q: Form<K, S>>(&mut self, rt: &R, key: &Q) -> Option<&V>
        ensures* got { sem 𝓛 (EndsSo K.row V.row S.row K.PartialEq S.Hashes self.entry (λ now. KeepsMap self.old now
            × MapHad K.eq S.hash (Q.stands_for key.now) (option_map (λ value. value.now) result) self.old.base.caller now.base.caller)) }
    {
        match self.base.find(rt, key) {
            Some(found) => Some(self.base.value(found)),
            None => None,
        }
    }

    /// Returns whether the map has a pair of this key.
    pub fn contains_key<R: Wait, Q: Form<K, S>>(&mut self, rt: &R, key: &Q) -> bool
        ensures keeps { KeepsMap self.old self.new }
        ensures sought { MapHadOne K.eq S.hash (Q.stands_for key.now) result self.old.base.caller self.new.base.caller }
    {
        self.base.contains_key(rt, key)
    }

    /// Stores a pair, also in the place of one of an equal key, and names that one, if there was one: `value` and `pair` lend it until the next call. The faults are
    /// `Fault::Capacity` and `Fault::Memory`; then the pair was not stored, and key and value come back.
    pub fn insert<R: Wait>(
        &mut self,
        rt: &R,
        key: K,
        value: V,
    ) -> Result<Option<Found>, Refused<K, V>>
        ensures keeps { KeepsMap self.old self.new }
        ensures stored { IfOk result (λ old. MapCameToHave K.eq S.hash key value (is_some old) self.old.base.caller self.new.base.caller) }
        ensures before { IfOk result (λ old. IfSome old (λ found. MapHadBefore K.eq S.hash key value found.word self.old.base.caller self.new.base.caller)) }
        ensures shown { IfOk result (λ old. IfSome old (λ found. Shows self.new.base.caller found.word)) }
        ensures refused { IfErr result (λ r. WasRefused K.eq S.hash (Insert key value) r.fault self.old.base.caller self.new.base.caller) }
        ensures back { IfErr result (λ r. (r.key ≡ key) × (r.value ≡ value)) }
    {
        self.base.insert(rt, key, value)
    }

    /// Stores a pair, if the map has none of an equal key: else it comes back. The pair that is there then is named, its own or the other one: `value` and `pair` lend it until
    /// the next call. The faults are `Fault::Capacity` and `Fault::Memory`; then the pair comes back, too.
    pub fn try_insert<R: Wait>(
        &mut self,
        rt: &R,
        key: K,
        value: V,
    ) -> Result<(Found, Attempt<K, V>), Refused<K, V>>
        ensures keeps { KeepsMap self.old self.new }
        ensures tried { IfOk result (λ told. MapLacked K.eq S.hash key value (has_stored told.1) self.old.base.caller self.new.base.caller) }
        ensures there { IfOk result (λ told. MapHasNamed K.eq S.hash key value told.0.word self.old.base.caller self.new.base.caller) }
        ensures shown { IfOk result (λ told. Shows self.new.base.caller told.0.word) }
        ensures present { IfOk result (λ told. CameBack key value told.1) }
        ensures refused { IfErr result (λ r. WasRefused K.eq S.hash (TryToInsert key value) r.fault self.old.base.caller self.new.base.caller) }
        ensures back { IfErr result (λ r. (r.key ≡ key) × (r.value ≡ value)) }
    {
        self.base.try_insert(rt, key, value)
    }

    /// Removes the pair of a key, and names it, if there was one: `value` and `pair` lend it until the next call. It is dropped once no section that was open before holds it.
    /// The faults are `Fault::Capacity` and `Fault::Memory`; then no pair was removed.
    pub fn take<R: Wait, Q: Form<K, S>>(&mut self, rt: &R, key: &Q) -> Result<Option<Found>, Fault>
        ensures keeps { KeepsMap self.old self.new }
        ensures removed { IfOk result (λ taken. MapGaveUp K.eq S.hash (Q.stands_for key.now) (is_some taken) self.old.base.caller self.new.base.caller) }
        ensures taken { IfOk result (λ taken. IfSome taken (λ found. MapGaveUpNamed K.eq S.hash (Q.stands_for key.now) found.word self.old.base.caller self.new.base.caller)) }
        ensures shown { IfOk result (λ taken. IfSome taken (λ found. Shows self.new.base.caller found.word)) }
        ensures refused { IfErr result (λ fault. WasRefused K.eq S.hash (Remove (Q.stands_for key.now)) fault self.old.base.caller self.new.base.caller) }
    {
        self.base.remove(rt, key)
    }

    /// Lends the pair that the last call has named, for as long as the session is borrowed, whoever replaces or removes it meanwhile.
    pub fn pair(&self, found: Found) -> (&K, &V)
        requires shown { Shows self.now.base.caller found.word }
        ensures { IsPairLent K.eq S.hash self.now.base.caller found.word (result.0.now, result.1.now) }
    {
        self.base.pair(found)
    }

    /// Lends its value.
    pub fn value(&self, found: Found) -> &V
        requires shown { Shows self.now.base.caller found.word }
        ensures { (key : K) × IsPairLent K.eq S.hash self.now.base.caller found.word (key, result.now) }
    {
        self.base.pair(found).1
    }

    /// Stores a value that is made, if the map has no pair of this key yet, names the pair that is there then, and answers whether it was stored: `value` and `pair` lend it until
    /// the next call. The closure is called where the key was missing; if another one has stored a pair meanwhile, what it has made is dropped. The faults are `Fault::Capacity` and
    /// `Fault::Memory`: nothing was stored then, and the key is dropped.
    pub fn try_insert_with<R: Wait, F: FnOnce() -> V>(
        &mut self,
        rt: &R,
        key: K,
        make: F,
    ) -> Result<(Found, bool), Fault>
        requires callable { F.pre make }
        ensures keeps { KeepsMap self.old self.new }
        ensures tried { IfOk result (λ told. MapHasNamedWith K.eq S.hash key told.1 told.0.word self.old.base.caller self.new.base.caller) }
        ensures shown { IfOk result (λ told. Shows self.new.base.caller told.0.word) }
        ensures asked { HasAsked K.eq S.hash (MakingSays (FnOnceReturns F.FnOnce make tt)) (TryToInsertWith key) self.old.base.caller.seat.view self.new.base.caller.seat.view }
        ensures refused { IfErr result (λ fault. WasRefused K.eq S.hash (TryToInsertWith key) fault self.old.base.caller self.new.base.caller) }
    {
        self.base.try_insert_with(rt, key, make)
    }

    /// Removes the pair of a key, if the test says yes of it, and names it, if it has: `value` and `pair` lend it until the next call. The test is called again where another pair
    /// of the key has taken the place of the first. The faults are `Fault::Capacity` and `Fault::Memory`: no pair was removed then.
    pub fn remove_if<R: Wait, Q: Form<K, S>, F: Fn(&K, &V) -> bool>(
        &mut self,
        rt: &R,
        key: &Q,
        test: F,
    ) -> Result<Option<Found>, Fault>
        requires callable { F.IsAlwaysCallable test }
        ensures keeps { KeepsMap self.old self.new }
        ensures removed { IfOk result (λ taken. MapGaveUpIf K.eq S.hash (Q.stands_for key.now) (option_map (λ found. found.word) taken) self.old.base.caller self.new.base.caller) }
        ensures shown { IfOk result (λ taken. IfSome taken (λ found. Shows self.new.base.caller found.word)) }
        ensures asked { HasAsked K.eq S.hash (TestSays (MayTest F.Fn test)) (RemoveIf (Q.stands_for key.now)) self.old.base.caller.seat.view self.new.base.caller.seat.view }
        ensures refused { IfErr result (λ fault. WasRefused K.eq S.hash (RemoveIf (Q.stands_for key.now)) fault self.old.base.caller self.new.base.caller) }
    {
        self.base.remove_if(rt, key, test)
    }

    /// Stores what an iterator gives, one pair after another, each also in the place of another one of its key. Where a pair is refused, it comes back, those that came before
    /// stay, and no further one is asked for. The faults are `Fault::Capacity` and `Fault::Memory`.
    pub fn extend<R: Wait, I: IntoIterator<Item = (K, V)>>(
        &mut self,
        rt: &R,
        items: I,
    ) -> Result<(), Refused<K, V>>
        requires { IsFiniteIterable I.into_iter_gives I.IntoIter.can_next I.IntoIter.remaining items }
        ensures extended { Extends (PutsPair K.eq S.hash) I.into_iter_gives I.IntoIter.next_gives pair_of (RefusesPair K.eq S.hash) items result self.old.base.caller self.new.base.caller }
        ensures number { self.new.number ≡ self.old.number }
    {
        for (key, value) in items {
            match self.insert(rt, key, value) {
                Ok(_) => {}
                Err(refused) => return Err(refused),
            }
        }
        Ok(())
    }

    /// Returns how many pairs the map has, by its count: of each shard of that what it says at a moment of the call. While other threads change the map, that
    /// may be what it never had at one moment; where nobody does it is how many there are.
    pub fn len(&mut self) -> u64
        ensures keeps { KeepsMap self.old self.new }
        ensures counted { MapCounted K.eq S.hash result self.old.base.caller self.new.base.caller }
    {
        self.base.len()
    }

    /// Returns whether the map has no pair, by its count.
    pub fn is_empty(&mut self) -> bool
        ensures keeps { KeepsMap self.old self.new }
        ensures counted { MapLookedEmpty K.eq S.hash result self.old.base.caller self.new.base.caller }
    {
        self.base.is_empty()
    }

    /// Makes room for so many further pairs, so that as many may be stored before a table is made. The faults are `Fault::Capacity` and `Fault::Memory`. It changes no pair.
    pub fn reserve<R: Wait>(&mut self, rt: &R, additional: u64) -> Result<(), Fault>
        ensures keeps { KeepsMap self.old self.new }
        ensures reserved { IfOk result (λ _. MapHadRoom K.eq S.hash additional self.old.base.caller self.new.base.caller) }
        ensures refused { IfErr result (λ fault. WasRefused K.eq S.hash (MakeRoom additional) fault self.old.base.caller self.new.base.caller) }
    {
        self.base.reserve(rt, additional)
    }

    /// Removes each pair that the map has from the beginning of the call to its end; those that others store meanwhile may stay. What was removed is dropped once no section
    /// that was open before holds it. The faults are `Fault::Capacity` and `Fault::Memory`, of a table that this needs first; some pairs may be gone then.
    pub fn clear<R: Wait>(&mut self, rt: &R) -> Result<(), Fault>
        ensures keeps { KeepsMap self.old self.new }
        ensures cleared { IfOk result (λ _. MapWasCleared K.eq S.hash self.old.base.caller self.new.base.caller) }
        ensures refused { IfErr result (λ fault. WasRefused K.eq S.hash clears fault self.old.base.caller self.new.base.caller) }
    {
        self.base.clear(rt)
    }

    /// Shows the pairs of the map to a closure: each that is there from the beginning of the call to its end once, and others that were there at a moment of it, none twice. The
    /// faults are `Fault::Capacity` and `Fault::Memory`, of a table that this needs first; some pairs may have been shown then.
    pub fn each<R: Wait, F: FnMut(&K, &V)>(&mut self, rt: &R, each: F) -> Result<(), Fault>
        requires callable { F.IsAlwaysCallable each }
        ensures keeps { KeepsMap self.old self.new }
        ensures shown { IfOk result (λ _. MapWasShown K.eq S.hash self.old.base.caller self.new.base.caller) }
        ensures each { HasShownEach K.eq S.hash F.FnMut each self.old.base.caller.seat.view self.new.base.caller.seat.view }
        ensures refused { IfErr result (λ fault. WasRefused K.eq S.hash walks fault self.old.base.caller self.new.base.caller) }
    {
        threads_sweeps::each(&mut self.base, rt, each)
    }

    /// Shows the pairs of the map to an onlooker, as `each` shows them to a closure, and hands it back, beside how the walk has ended. The faults are `Fault::Capacity` and
    /// `Fault::Memory`, of a table that this needs first; some pairs may have been shown then.
    pub fn shows_to<R: Wait, T: Onlooker<K, V>>(
        &mut self,
        rt: &R,
        onlooker: T,
    ) -> (Result<(), Fault>, T)
        requires may { T.may_see onlooker }
        ensures keeps { KeepsMap self.old self.new }
        ensures shown { IfOk result.0 (λ _. MapWasShown K.eq S.hash self.old.base.caller self.new.base.caller) }
        ensures told { HasBeenShown K.eq S.hash T.has_seen onlooker result.1 self.old.base.caller.seat.view self.new.base.caller.seat.view }
        ensures refused { IfErr result.0 (λ fault. WasRefused K.eq S.hash walks fault self.old.base.caller self.new.base.caller) }
    {
        threads_sweeps::shows_to(&mut self.base, rt, onlooker)
    }

    /// Removes the pairs about which a closure says that they are not to be kept. Each pair that is there from the beginning of the call to its end is asked about, and it may be
    /// asked again. What was removed is dropped once no section that was open before holds it. The faults are `Fault::Capacity` and `Fault::Memory`, of a table that this needs;
    /// some pairs may be gone then.
    pub fn retain<R: Wait, F: FnMut(&K, &V) -> bool>(
        &mut self,
        rt: &R,
        keep: F,
    ) -> Result<(), Fault>
        requires callable { F.IsAlwaysCallable keep }
        ensures keeps { KeepsMap self.old self.new }
        ensures sifted { IfOk result (λ _. MapWasSifted K.eq S.hash self.old.base.caller self.new.base.caller) }
        ensures heeded { HasHeeded K.eq S.hash F.FnMut keep self.old.base.caller.seat.view self.new.base.caller.seat.view }
        ensures refused { IfErr result (λ fault. WasRefused K.eq S.hash retains fault self.old.base.caller self.new.base.caller) }
    {
        threads_sweeps::retain(&mut self.base, rt, keep)
    }
}

impl<'m, K: Eq + Hash + Drop, V: Drop, S: Hashes<K>> Drop for Session<'m, K, V, S> {
    fn drop(self) {
        let Session { base, number: _ } = self;
        let mut base = base;
        base.leave();
        base.unregister();
        drop(base);
    }
}

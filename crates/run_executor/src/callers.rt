//! Callers by name, each with its call.
ghost use Rattle.std.specs.Prelude.{◌≡◌, ◌==◌, ◌∷◌, ℕ, List, [], Some, Option, MatchOption, OnOk, is_some, length, option_copied, option_map, position, slice_get, slice_set};
ghost use Rattle.std.specs.List.{list_any, remove};
ghost use Rattle.run_schedules.specs.Runs.Same.{is_same};
ghost use Rattle.run_names.specs.Presence.Crowd.{IsAbsent, IsHome, LeadsHome};
ghost use Rattle.run_executor.specs.Named.Roll.{IsTrimmedAt, called, name_of};
ghost use Rattle.run_executor.specs.Named.Seen.{is_named};
ghost use Rattle.run_executor.specs.Named.Telling.{kept, kept_by};
ghost use Rattle.run_executor.specs.declared.caller.NamedCaller.{NamedCaller};

use crate::caller::{NamedCaller, Stands, value_of};
use crate::kind::CallKind;
use papaya_raw::Node;
use run_names::counts::Counts;
use run_names::crowd::{is_at, place_in};
use run_names::name_index::NameIndex;
use run_names::number_counts::NumberCounts;
use run_schedules::token::Token;
use std::alloc::{AllocError, Global};
use std::marker::Model;

/// The callers that have a call under way, the newest first.
#[derive(Drop)]
pub struct Callers<V> {
    /// In the order of their coming. A place stays empty where one has left, until all behind it have.
    comers: Vec<Option<NamedCaller<V>>>,
    places: NameIndex,
    /// How many calls are under each guard.
    under: Counts,
    /// How many calls are on each map.
    on: NumberCounts,
    count: usize,
    /// Where the one stood of which was spoken last.
    last: usize,
}

impl<V> Model for Callers<V> {
    ghost use Rattle.std.specs.Prelude.{List};
    ghost use Rattle.run_executor.specs.Named.Roll.{AreKept, newest};
    ghost use Rattle.run_executor.specs.declared.caller.NamedCaller.{NamedCaller};

    ghost Value = { List (NamedCaller V) };

    ghost view = { λ c. newest c.comers.items };

    ghost invariant = { λ c. AreKept c.comers.items c.places c.under c.on c.count };
}

/// What becomes of the value that a call keeps.
#[derive(Drop)]
enum Keeps<V> {
    /// It stays.
    Same,
    /// It is this one.
    Is(Option<V>),
    /// It is this one, which was not stored, if the call tells that.
    Unstored(Option<V>),
}

impl<V: Drop> Keeps<V> {
    /// What a call keeps then.
    fn after(self, kind: CallKind, value: Option<V>) -> Option<V>
        ensures { result ≡ kept_by self kind value }
    {
        match self {
            Keeps::Same => value,
            Keeps::Is(other) => other,
            Keeps::Unstored(unstored) => match kind {
                CallKind::TriesToInsert => unstored,
                _ => value,
            },
        }
    }
}

/// Where the caller of this name stands. It is looked for first where one stood before.
fn place_of<V: Drop>(
    comers: &[Option<NamedCaller<V>>],
    places: &NameIndex,
    last: usize,
    name: &Token,
) -> Option<usize>
    requires { LeadsHome name_of comers.now places.now }
    ensures { MatchOption result (IsAbsent name_of name.now comers.now) (IsHome name_of name.now comers.now) }
{
    if is_at(comers, last, name) {
        return Some(last);
    }
    place_in(comers, places, name)
}

/// The call of the caller at this place is this far from now on, and keeps this.
fn change<V: Drop>(place: &mut Option<NamedCaller<V>>, stands: Stands, keeps: Keeps<V>)
    ensures { (caller : NamedCaller V) → place.old ≡ Some caller
        → place.new ≡ Some (record caller { stands = stands; value = kept_by keeps caller.kind caller.value }) }
{
    if let Some(caller) = place {
        caller.stands = stands;
        caller.value = keeps.after(caller.kind, caller.value.take());
    }
}

/// How many places are left once those at the end go where nobody stands.
fn length_of<V: Drop>(comers: &[Option<NamedCaller<V>>]) -> usize
    ensures { IsTrimmedAt result comers.now }
{
    for length in (0..comers.len()).rev() {
        if comers[length].is_some() {
            return length + 1;
        }
    }
    0
}

impl<V: Drop> Callers<V> {
    /// Begins where nobody has a call.
    pub fn nobody(alloc: Global) -> Self
        ensures { result ≡ [] }
    {
        Callers {
            comers: Vec::new(alloc),
            places: NameIndex::new(alloc),
            under: Counts::new(alloc),
            on: NumberCounts::new(alloc),
            count: 0,
            last: 0,
        }
    }

    /// Returns whether nobody has a call.
    pub fn is_empty(&self) -> bool
        ensures { result ≡ (length self.now == 0) }
    {
        self.count == 0
    }

    /// Returns whether a caller of this name has a call.
    pub fn has(&self, name: &Token) -> bool
        ensures { result ≡ is_some (position (is_named name.now) self.now) }
    {
        self.count > 0 && place_of(&self.comers, &self.places, self.last, name).is_some()
    }

    /// Returns the caller of this name.
    pub fn get(&self, name: &Token) -> Option<&NamedCaller<V>>
        ensures { option_copied result ≡ called name.now self.now }
    {
        if self.count == 0 {
            return None;
        }
        let place = place_of(&self.comers, &self.places, self.last, name)?;
        self.comers[place].as_ref()
    }

    /// Returns whether a call is under the guard of this name.
    pub fn uses(&self, guard: &Token) -> bool
        ensures { result ≡ list_any (λ caller. is_same caller.guard guard.now) self.now }
    {
        self.count > 0 && self.under.of(guard) > 0
    }

    /// Returns whether a call on the map of this number is under way.
    pub fn are_on(&self, map: u64) -> bool
        ensures { result ≡ list_any (λ caller. caller.map == map) self.now }
    {
        self.on.of(map) > 0
    }

    /// The call of the caller of this name is this far from now on, and keeps this.
    fn change(&mut self, name: &Token, stands: Stands, keeps: Keeps<V>)
        ensures { (place : ℕ) (caller : NamedCaller V) → position (is_named name.now) self.old ≡ Some place → slice_get self.old place ≡ Some caller
            → self.new ≡ slice_set self.old place (record caller { stands = stands; value = kept_by keeps caller.kind caller.value }) }
    {
        if let Some(place) = place_of(&self.comers, &self.places, self.last, name) {
            change(&mut self.comers[place], stands, keeps);
            self.last = place;
        }
    }

    /// Lets the call of the caller of this name go on, with this value.
    pub fn resume(&mut self, name: &Token, value: Option<V>)
        ensures { (place : ℕ) (caller : NamedCaller V) → position (is_named name.now) self.old ≡ Some place → slice_get self.old place ≡ Some caller
            → self.new ≡ slice_set self.old place (record caller { stands = Stands.Goes; value = value }) }
    {
        self.change(name, Stands::Goes, Keeps::Is(value));
    }

    /// Notes how far the call of the caller of this name is from now on.
    pub fn stand(&mut self, name: &Token, stands: Stands)
        ensures { (place : ℕ) (caller : NamedCaller V) → position (is_named name.now) self.old ≡ Some place → slice_get self.old place ≡ Some caller
            → self.new ≡ slice_set self.old place (record caller { stands = stands }) }
    {
        self.change(name, stands, Keeps::Same);
    }

    /// Lets the call of the caller of this name go on, and keeps the value that it has not stored, if it tells that.
    pub fn keep<K: Drop>(&mut self, name: &Token, unstored: Node<K, V>)
        ensures { (place : ℕ) (caller : NamedCaller V) → position (is_named name.now) self.old ≡ Some place → slice_get self.old place ≡ Some caller
            → self.new ≡ slice_set self.old place (record caller { stands = Stands.Goes; value = kept caller.kind unstored caller.value }) }
    {
        self.change(name, Stands::Goes, Keeps::Unstored(value_of(unstored)));
    }

    /// Adds a caller. On an error nobody did: memory found none, or one of this name is there.
    pub fn add(&mut self, caller: NamedCaller<V>) -> Result<(), AllocError>
        ensures { OnOk result (self.new ≡ caller ∷ self.old) }
    {
        if place_of(&self.comers, &self.places, self.last, &caller.name).is_some() {
            return Err(AllocError);
        }
        let alloc = *self.comers.allocator();
        let place = self.comers.len();
        self.comers.push(None)?;
        self.places.put(alloc, &caller.name, place)?;
        self.on.reach(caller.map)?;
        self.under.add(alloc, &caller.guard)?;
        self.on.add(caller.map);
        self.count += 1;
        self.last = place;
        self.comers[place] = Some(caller);
        Ok(())
    }

    /// Takes the call of the caller of this name away. Answers what the call is, and the value that it kept.
    pub fn remove(&mut self, name: &Token) -> Option<(CallKind, Option<V>)>
        ensures who { result ≡ option_map (λ caller. (caller.kind, caller.value)) (called name.now self.old) }
        ensures left { (place : ℕ) → position (is_named name.now) self.old ≡ Some place → self.new ≡ remove self.old place }
    {
        let place = place_of(&self.comers, &self.places, self.last, name)?;
        let caller = self.comers[place].take()?;
        self.places.remove(name);
        self.under.lessen(&caller.guard);
        self.on.lessen(caller.map, 1);
        self.count -= 1;
        let length = length_of(&self.comers);
        self.comers.truncate(length);
        Some((caller.kind, caller.value))
    }
}

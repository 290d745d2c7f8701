//! Where pairs and tables are, as what was done says: the pairs of maps that live at the end, what waits, and how many tables do, are told by this.
ghost use Rattle.std.specs.Prelude.{◌≡◌, ◌==◌, ◌<◌, ◌++◌, ◌∷◌, [], ℕ, false, not, Option, Some, None, length, filter, map, slice_index_or, IfOk, OnOk, if◌then◌else◌};
ghost use Rattle.run_schedules.specs.Schedules.Lists.{is_among};
ghost use Rattle.run_schedules.specs.declared.effect.Effect.TheVariants as effect;
ghost use Rattle.run_schedules.specs.Schedules.Things.{same_table};
ghost use Rattle.run_effects.specs.Tallies.ByMap.{numbers_in};
ghost use Rattle.run_effects.specs.Tallies.Places.{Comes, Leads};
ghost use Rattle.run_effects.specs.Tallies.Tally.{RecordsAll, RecordsNext, counted, flagged, numbers_at, numbers_behind, passes, stored_in, waits};
ghost use Rattle.run_effects.specs.declared.tally.Whereabouts.TheVariants.{Unborn, Waits};

use crate::by_map::ByMap;
use crate::table_index::TableIndex;
use run_schedules::effect::{Effect, TableId, Thing};
use std::alloc::{AllocError, Global};

/// Where a pair is.
#[derive(Clone, Copy)]
pub enum Whereabouts {
    /// No pair has the number yet.
    Unborn,
    /// In the map of this number.
    InMap(u64),
    /// It left its map, and is not reclaimed.
    Waits,
    /// It was reclaimed.
    Back,
}

/// A pair that waits behind a table.
#[derive(Clone, Copy)]
pub struct Behind {
    /// The number of the pair.
    pub pair: u64,
    /// The table.
    pub table: TableId,
}

/// A table of a map, and whether it was retired and not reclaimed.
#[derive(Clone, Copy)]
pub struct Flagged {
    /// The table.
    pub table: TableId,
    /// Whether it waits.
    pub is_retired: bool,
}

/// Where pairs and tables are.
#[derive(Drop)]
pub struct Tally {
    /// Where each pair is, by its number.
    pub pairs: Vec<Whereabouts>,
    /// What waits behind tables, the newest first.
    pub behind: Vec<Behind>,
    /// The tables that ever were tables of maps.
    pub tables: Vec<Flagged>,
    /// Where each stands among them.
    pub places: TableIndex,
}

/// Whether two tables are one.
fn same(one: TableId, other: TableId) -> bool
    ensures { result ≡ same_table one other }
{
    one.map == other.map && one.turn == other.turn
}

/// Makes room for a pair of this number. Each pair is where it was.
fn reach(pairs: &mut Vec<Whereabouts>, pair: u64) -> Result<(), AllocError>
    ensures room { OnOk result (pair < length pairs.new.items) }
    ensures same { (n : ℕ) → slice_index_or pairs.new.items n Unborn ≡ slice_index_or pairs.old.items n Unborn }
{
    while pairs.len() <= pair as usize {
        pairs.push(Whereabouts::Unborn)?;
    }
    Ok(())
}

/// The pair of a number is there from now on.
fn put(pairs: &mut Vec<Whereabouts>, pair: u64, there: Whereabouts) -> Result<(), AllocError>
    ensures { OnOk result ((n : ℕ) → slice_index_or pairs.new.items n Unborn ≡ if n == pair then there else slice_index_or pairs.old.items n Unborn) }
{
    reach(pairs, pair)?;
    pairs[pair as usize] = there;
    Ok(())
}

/// What waits behind a table waits by itself from now on.
fn release(
    pairs: &mut Vec<Whereabouts>,
    behind: &[Behind],
    table: TableId,
) -> Result<(), AllocError>
    ensures { OnOk result ((n : ℕ) → slice_index_or pairs.new.items n Unborn ≡ if is_among n (numbers_behind table behind.now) then Waits else slice_index_or pairs.old.items n Unborn) }
{
    for waiting in behind {
        if same(waiting.table, table) {
            put(pairs, waiting.pair, Whereabouts::Waits)?;
        }
    }
    Ok(())
}

/// Nothing waits behind this table any more.
fn without(behind: &mut Vec<Behind>, table: TableId)
    ensures { behind.new.items ≡ filter (λ waiting. not (same_table waiting.table table)) behind.old.items }
{
    behind.retain(|waiting| !same(waiting.table, table));
}

/// A table with another flag, if it is this one.
fn with_flag(it: Flagged, table: TableId, is_retired: bool) -> Flagged
    ensures { result ≡ flagged table is_retired it }
{
    if same(it.table, table) {
        Flagged { is_retired, ..it }
    } else {
        it
    }
}

/// Whether a table waits is this from now on, by a look at each.
fn flag_each(tables: &mut Vec<Flagged>, table: TableId, is_retired: bool)
    ensures { tables.new.items ≡ map (flagged table is_retired) tables.old.items }
{
    for place in 0..tables.len() {
        tables[place] = with_flag(tables[place], table, is_retired);
    }
}

/// Whether a table waits is this from now on.
fn flag(tables: &mut Vec<Flagged>, places: &TableIndex, table: TableId, is_retired: bool)
    ensures { Leads places.now tables.old.items → tables.new.items ≡ map (flagged table is_retired) tables.old.items }
{
    let Some(place) = places.get(table) else {
        flag_each(tables, table, is_retired);
        return;
    };
    if place < tables.len() {
        tables[place] = with_flag(tables[place], table, is_retired);
    }
}

/// Whether a pair left its map, and is not reclaimed.
fn waits(there: Whereabouts) -> bool
    ensures { result ≡ waits there }
{
    matches!(there, Whereabouts::Waits)
}

/// The numbers of the pairs that wait.
fn waiting_among(alloc: Global, pairs: &[Whereabouts]) -> Result<Vec<u64>, AllocError>
    ensures { IfOk result (λ numbers. numbers.items ≡ numbers_at (passes None) 0 pairs.now) }
{
    let mut numbers = Vec::new(alloc);
    for place in 0..pairs.len() {
        if waits(pairs[place]) {
            numbers.push(place as u64)?;
        }
    }
    Ok(numbers)
}

impl Tally {
    /// Begins where no pair and no table is there.
    pub fn nothing(alloc: Global) -> Self
        ensures pairs { result.pairs.items ≡ [] }
        ensures behind { result.behind.items ≡ [] }
        ensures tables { result.tables.items ≡ [] }
    {
        Tally {
            pairs: Vec::new(alloc),
            behind: Vec::new(alloc),
            tables: Vec::new(alloc),
            places: TableIndex::nothing(alloc),
        }
    }

    /// The pair of a number is there from now on.
    fn put(&mut self, pair: u64, there: Whereabouts) -> Result<(), AllocError>
        ensures pairs { OnOk result ((n : ℕ) → slice_index_or self.new.pairs.items n Unborn ≡ if n == pair then there else slice_index_or self.old.pairs.items n Unborn) }
        ensures rest { self.new ≡ record self.old { pairs = self.new.pairs } }
    {
        put(&mut self.pairs, pair, there)
    }

    /// A table goes: what waits behind it waits by itself.
    fn go(&mut self, table: TableId) -> Result<(), AllocError>
        ensures pairs { OnOk result ((n : ℕ) → slice_index_or self.new.pairs.items n Unborn ≡ if is_among n (numbers_behind table self.old.behind.items) then Waits else slice_index_or self.old.pairs.items n Unborn) }
        ensures behind { OnOk result (self.new.behind.items ≡ filter (λ waiting. not (same_table waiting.table table)) self.old.behind.items) }
        ensures tables { OnOk result (Leads self.old.places self.old.tables.items → self.new.tables.items ≡ map (flagged table false) self.old.tables.items) }
        ensures places { self.new.places ≡ self.old.places }
    {
        release(&mut self.pairs, self.behind.as_slice(), table)?;
        without(&mut self.behind, table);
        flag(&mut self.tables, &self.places, table, false);
        Ok(())
    }

    /// A pair is put behind a table, and waits.
    fn put_behind(&mut self, pair: u64, table: TableId) -> Result<(), AllocError>
        ensures pairs { OnOk result ((n : ℕ) → slice_index_or self.new.pairs.items n Unborn ≡ if n == pair then Waits else slice_index_or self.old.pairs.items n Unborn) }
        ensures behind { OnOk result (self.new.behind.items ≡ record { pair = pair; table = table } ∷ self.old.behind.items) }
        ensures tables { self.new.tables ≡ self.old.tables }
        ensures places { self.new.places ≡ self.old.places }
    {
        self.put(pair, Whereabouts::Waits)?;
        self.behind.insert(0, Behind { pair, table })?;
        Ok(())
    }

    /// A pair or a table is retired.
    fn retire(&mut self, thing: Thing) -> Result<(), AllocError>
        ensures { (map : Option ℕ) → OnOk result (RecordsNext map (effect.Retired thing) self.old self.new) }
    {
        match thing {
            Thing::APair(pair) => self.put(pair, Whereabouts::Waits),
            Thing::ATable(table) => {
                flag(&mut self.tables, &self.places, table, true);
                Ok(())
            }
        }
    }

    /// A pair or a table is reclaimed.
    fn reclaim(&mut self, thing: Thing) -> Result<(), AllocError>
        ensures { (map : Option ℕ) → OnOk result (RecordsNext map (effect.Reclaimed thing) self.old self.new) }
    {
        match thing {
            Thing::APair(pair) => self.put(pair, Whereabouts::Back),
            Thing::ATable(table) => self.go(table),
        }
    }

    /// A table comes.
    fn link(&mut self, table: TableId) -> Result<(), AllocError>
        ensures tables { OnOk result (self.new.tables.items ≡ self.old.tables.items ++ record { table = table; is_retired = false } ∷ []) }
        ensures places { OnOk result (Comes table (length self.old.tables.items) self.old.places self.new.places) }
        ensures rest { self.new ≡ record self.old { tables = self.new.tables; places = self.new.places } }
    {
        let is_retired = false;
        self.places.put(table, self.tables.len())?;
        self.tables.push(Flagged { table, is_retired })?;
        Ok(())
    }

    /// Notes an effect of an event on this map, if on any.
    pub fn note(&mut self, map: Option<u64>, effect: Effect) -> Result<(), AllocError>
        ensures { OnOk result (RecordsNext map effect self.old self.new) }
    {
        match effect {
            Effect::Stored { pair, .. } => self.put(pair, stored_in(map)),
            Effect::Replaced(pair) => self.put(pair, Whereabouts::Waits),
            Effect::Removed(pair) => self.put(pair, Whereabouts::Waits),
            Effect::Deferred { pair, behind } => self.put_behind(pair, behind),
            Effect::Retired(thing) => self.retire(thing),
            Effect::Reclaimed(thing) => self.reclaim(thing),
            Effect::Ended(pair) => self.put(pair, Whereabouts::Back),
            Effect::Taken(table) => self.go(table),
            Effect::Linked { table, .. } => self.link(table),
            _ => Ok(()),
        }
    }

    /// Notes the effects of an event on this map, if on any, in their order.
    pub fn note_all(&mut self, map: Option<u64>, effects: &[Effect]) -> Result<(), AllocError>
        ensures { OnOk result (RecordsAll map effects.now self.old self.new) }
    {
        for effect in effects {
            self.note(map, *effect)?;
        }
        Ok(())
    }

    /// Returns the numbers of the pairs of each map, ascending.
    pub fn by_map(&self, alloc: Global) -> Result<ByMap, AllocError>
        ensures { IfOk result (λ by_map. (map : ℕ) → numbers_in map by_map ≡ numbers_at (passes (Some map)) 0 self.now.pairs.items) }
    {
        ByMap::of(alloc, self.pairs.as_slice())
    }

    /// Returns the numbers of the pairs that wait, ascending.
    pub fn waiting(&self, alloc: Global) -> Result<Vec<u64>, AllocError>
        ensures { IfOk result (λ pairs. pairs.items ≡ numbers_at (passes None) 0 self.now.pairs.items) }
    {
        waiting_among(alloc, self.pairs.as_slice())
    }

    /// Returns how many tables were retired, and not reclaimed.
    pub fn waiting_tables(&self) -> u64
        ensures { result ≡ counted self.now.tables.items }
    {
        self.tables.iter().filter(|it| it.is_retired).count() as u64
    }
}

/// Where a pair is that is stored by an event on this map.
fn stored_in(map: Option<u64>) -> Whereabouts
    ensures { result ≡ stored_in map }
{
    match map {
        Some(number) => Whereabouts::InMap(number),
        None => Whereabouts::Unborn,
    }
}

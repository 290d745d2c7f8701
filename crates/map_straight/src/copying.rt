//! The places of a chunk that is copied in incremental mode, all but its last one.
ghost use Rattle.std.specs.Prelude.{◌≡◌, ◌+◌, true};
ghost use Rattle.map_tables.specs.Chunks.{is_incremental};
ghost use Rattle.map_tables.specs.declared.marks.TheConstants.{BORROWED as LENT};
ghost use Rattle.map_tables.specs.Marks.{unmarked_in};
ghost use Rattle.map_machines.specs.CopierMarks.{probing};
ghost use Rattle.map_machines.specs.CopierStates.{standing};
ghost use Rattle.map_machines.specs.declared.copier.Copying.TheVariants as at;
ghost use Rattle.map_straight.specs.Straight.Copying.{IsMidst, missed, placing};
ghost use Rattle.map_straight.specs.Straight.Going.{CopyLeads, MayCopy};

use map_machines::{Copier, Copying, key_hash};
use map_tables::marks::{BORROWED, COPIED, COPYING, has, unmarked};
use map_tables::{Hashes, Node, Probe, Table};
use seize_words::{Link, Memory};

/// What a try to put a pair into a table has come to.
#[derive(Clone, Copy)]
pub enum Placed {
    /// The pair stands there.
    Put,
    /// No place is left to be tried.
    Past,
    /// This one is to be tried.
    Next(Probe),
}

/// Whether a copying is to mark a place of a chunk in incremental mode, and a further one follows.
#[inline(always)]
fn is_midst(copier: &Copier) -> bool
    ensures { result ≡ true → IsMidst copier.now }
{
    match copier.stands {
        Copying::Marks => {
            !copier.whole
                && copier.setting.mode.is_incremental()
                && copier.place < copier.end.saturating_sub(1)
        }
        _ => false,
    }
}

/// The word of a copied pair: it stands in an older table, too.
#[inline(always)]
fn borrowed(word: u64) -> u64
    ensures { result ≡ unmarked_in word + LENT }
{
    unmarked(word) + BORROWED
}

/// A place was not empty: the next one follows, or none is left.
#[inline(always)]
fn miss(table: Table, probe: Probe) -> Placed
    ensures { result ≡ missed table probe }
{
    if probe.len < table.limit {
        let mut next = probe;
        next.next(table.mask());
        Placed::Next(next)
    } else {
        Placed::Past
    }
}

/// Tries to put a pair into a place of the table that is copied into.
#[inline(always)]
fn try_put<K, V, S: Hashes<K>, M: Memory<Node<K, V>>>(
    memory: &mut M,
    hasher: &S,
    copier: &Copier,
    word: u64,
    hash: u64,
    table: Table,
    probe: Probe,
) -> Placed
    requires mode { is_incremental copier.now.setting.mode ≡ true }
    requires may { MayCopy (S.hash hasher.now) M.took M.shown M.can (standing copier.now (at.Probes word hash table probe)) memory.old }
    ensures { CopyLeads (S.hash hasher.now) M.took M.shown (standing copier.now (at.Probes word hash table probe))
        memory.old (standing copier.now (placing word hash table result)) memory.new }
{
    let place = table.at(probe.i);
    let found = memory.load(place);
    if found != 0 {
        return miss(table, probe);
    }
    match memory.exchange(place, 0, borrowed(word)) {
        Ok(_) => Placed::Put,
        Err(_) => miss(table, probe),
    }
}

/// Puts a pair into the table that is copied into, from the first place of its key on.
#[inline(always)]
fn put_pair<K, V, S: Hashes<K>, M: Memory<Node<K, V>>>(
    memory: &mut M,
    hasher: &S,
    copier: &Copier,
    word: u64,
    hash: u64,
    table: Table,
) -> Placed
    requires mode { is_incremental copier.now.setting.mode ≡ true }
    requires may { MayCopy (S.hash hasher.now) M.took M.shown M.can (probing copier.now word hash table) memory.old }
    ensures { CopyLeads (S.hash hasher.now) M.took M.shown (probing copier.now word hash table)
        memory.old (standing copier.now (placing word hash table result)) memory.new }
{
    let mut probe = Probe::start(hash, table.mask());
    for _ in 0..table.limit {
        match try_put::<K, V, S, M>(memory, hasher, copier, word, hash, table, probe) {
            Placed::Next(next) => probe = next,
            placed => return placed,
        }
    }
    Placed::Next(probe)
}

/// The copying stands where the pair of this word has come to in the table that is copied into. It is a call of its own: a loop over places has nothing to clear
/// for it.
#[cold]
#[inline(never)]
fn stands_at(copier: &mut Copier, word: u64, hash: u64, table: Table, placed: Placed)
    ensures { copier.new ≡ standing copier.old (placing word hash table placed) }
{
    copier.stands = match placed {
        Placed::Put => Copying::Covers { word },
        Placed::Past => Copying::Passes { word, hash, table },
        Placed::Next(probe) => Copying::Probes {
            word,
            hash,
            table,
            probe,
        },
    };
}

/// Copies a place, if a further one follows, and answers whether it stands at that one then.
#[inline(always)]
fn copy_place<K: Drop, V: Drop, S: Hashes<K>, M: Memory<Node<K, V>>>(
    copier: &mut Copier,
    memory: &mut M,
    hasher: &S,
) -> bool
    requires { MayCopy (S.hash hasher.now) M.took M.shown M.can copier.old memory.old }
    ensures { CopyLeads (S.hash hasher.now) M.took M.shown copier.old memory.old copier.new memory.new }
{
    if !is_midst(copier) {
        return false;
    }
    let place = copier.source.at(copier.place);
    let word = memory.or(place, COPYING);
    if has(word, COPYING) {
        copier.place += 1;
        return true;
    }
    if Link::block_of(word) == 0 {
        copier.place += 1;
        copier.done = copier.done.wrapping_add(1);
        return true;
    }
    let hash = key_hash(memory.value(Link::block_of(word)), hasher);
    let pair = word - word % 2;
    let table = copier.target;
    match put_pair::<K, V, S, M>(memory, hasher, copier, pair, hash, table) {
        Placed::Put => {
            memory.store(place, pair | COPYING | COPIED);
            copier.place += 1;
            copier.done = copier.done.wrapping_add(1);
            true
        }
        Placed::Past => {
            stands_at(copier, pair, hash, table, Placed::Past);
            false
        }
        Placed::Next(probe) => {
            stands_at(copier, pair, hash, table, Placed::Next(probe));
            false
        }
    }
}

/// Copies the places of a chunk, up to its last one, or to one that is not copied at once.
#[inline(always)]
pub fn copy_places<K: Drop, V: Drop, S: Hashes<K>, M: Memory<Node<K, V>>>(
    copier: &mut Copier,
    memory: &mut M,
    hasher: &S,
)
    requires { MayCopy (S.hash hasher.now) M.took M.shown M.can copier.old memory.old }
    ensures { CopyLeads (S.hash hasher.now) M.took M.shown copier.old memory.old copier.new memory.new }
{
    for _ in copier.place..copier.end {
        if !copy_place::<K, V, S, M>(copier, memory, hasher) {
            return;
        }
    }
}

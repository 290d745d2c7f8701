//! A call that stores its own block: from the root to an empty place or to the pair that was there.
ghost use Rattle.std.specs.Prelude.{◌≡◌, ◌≢◌, Bool, true};
ghost use Rattle.seize_words.specs.OneMemory.Plan.{MaySee, Ends};
ghost use Rattle.map_tables.specs.declared.marks.TheConstants.{TOMBSTONE as BURIED};
ghost use Rattle.papaya_raw.specs.Call.{word_read};
ghost use Rattle.papaya_raw.specs.CallPoints.{told, after_finding, untried};
ghost use Rattle.papaya_raw.specs.declared.machines.call.Calling.{Calling as Point};
ghost use Rattle.papaya_raw.specs.declared.machines.call.Calling.TheVariants as at;
ghost use Rattle.map_straight.specs.Straight.Going.{CallLeads, CallReaches, MayCall};
ghost use Rattle.map_straight.specs.Straight.Storing.{HasRead, HasTried, call_at, calling_at, is_plain, replaced_by, stored_at, storing, try_at};

use crate::disposing::{Disposed, dispose, dispose_of};
use map_machines::{NewTable, count};
use map_tables::lengths::FIRST_LEN;
use map_tables::marks::TOMBSTONE;
use map_tables::{
    Aim, Equivalent, Finding, Hashes, Node, Probe, Setting, Table, Trial, may_be, seen,
};
use papaya_raw::machines::{
    Calling, End, KeyAnswer, KeyCall, Missing, Replies, Takes, There, Told, is_same_key,
};
use seize_straight::Retired;
use seize_words::{At, Link, Look, Memory};
use std::hash::Hash;

/// A point of a call that stores its own block. A pair is named by the word that links to it.
#[derive(Clone, Copy)]
pub enum StoringPoint {
    /// It is to read the root.
    Roots,
    /// The map has no table, and it makes the first one.
    Firsts,
    /// It is to read the word of its try.
    Probes,
    /// It is to read the link to the table after the one that it has tried.
    Nexts,
    /// It is to put its own block in the place of this word.
    Tries(u64),
    /// It has found the pair of this word, and gives its own block up.
    Finds(u64),
    /// It has replaced the pair of this word, whose disposal has come to this.
    Disposes(u64, Disposed),
}

/// Where a call that stores its own block has come to by a try.
#[derive(Clone, Copy)]
pub enum Tried {
    /// It is to make this try.
    Next(Trial),
    /// It stands here, at this try.
    Stands(Trial, StoringPoint),
}

/// Where a call that stores its own block has come to.
#[derive(Clone, Copy)]
pub enum Stored {
    /// It has ended with this answer.
    Answered(KeyAnswer),
    /// It stands here, at this try.
    Stands(Trial, StoringPoint),
}

/// Whether a call does no more with a pair of its key than to replace it, or to find it.
fn is_plain(there: There) -> bool
    ensures { result ≡ is_plain there }
{
    match there {
        There::Puts | There::Answers => true,
        There::Removes | There::Asks => false,
    }
}

/// Whether a word names a pair of the key of the own block.
#[inline(always)]
fn is_of_own<K: Eq + Hash, V, Q: Equivalent<K>, M: Look<Node<K, V>>>(
    memory: &M,
    setting: Setting,
    hash: u64,
    there: There,
    own: u64,
    trial: Trial,
    word: u64,
) -> bool
    requires { (stands : Point) × (loaded : Bool)
        × MaySee (M.shown memory.now)
        (word_read Q.Equivalent.equivalent K.eq loaded (storing {K = K} {V = V} {Q = Q} setting hash there own trial stands) word) }
    ensures { (stands : Point) (loaded : Bool)
        → Ends (M.shown memory.now)
        (word_read Q.Equivalent.equivalent K.eq loaded (storing {K = K} {V = V} {Q = Q} setting hash there own trial stands) word)
        (told loaded (storing setting hash there own trial stands) word result) }
{
    may_be(hash, word)
        && is_same_key(
            memory.value(Link::block_of(own)),
            memory.value(Link::block_of(word)),
        )
}

/// Judges a try by what its word says.
#[inline(always)]
fn judge<K, V, Q>(
    setting: Setting,
    hash: u64,
    there: There,
    own: u64,
    trial: Trial,
    word: u64,
    finding: Finding,
) -> Tried
    requires plain { is_plain there ≡ true }
    requires own { own ≢ 0 }
    ensures { (stands : Point) (loaded : Bool)
        → HasTried {K = K} {V = V} {Q = Q} setting hash there own (after_finding loaded (storing setting hash there own trial stands) word finding) result }
{
    match finding {
        Finding::Free => Tried::Stands(trial, StoringPoint::Tries(0)),
        Finding::Passed => {
            let met = trial.meets(word);
            match met.next() {
                Some(next) => Tried::Next(next),
                None => Tried::Stands(met, StoringPoint::Nexts),
            }
        }
        Finding::Moved => Tried::Stands(trial, StoringPoint::Nexts),
        Finding::Copying => Tried::Stands(trial, StoringPoint::Probes),
        Finding::There => match there {
            There::Puts => Tried::Stands(trial, StoringPoint::Tries(word)),
            There::Answers => Tried::Stands(trial, StoringPoint::Finds(word)),
            There::Removes | There::Asks => unreachable!(),
        },
    }
}

/// Goes on by the word of a try, which was loaded, or found by an exchange that failed.
#[inline(always)]
fn read<K: Eq + Hash, V, Q: Equivalent<K>, M: Look<Node<K, V>>>(
    memory: &M,
    setting: Setting,
    hash: u64,
    there: There,
    own: u64,
    trial: Trial,
    word: u64,
) -> Tried
    requires plain { is_plain there ≡ true }
    requires own { own ≢ 0 }
    requires see { (stands : Point) × (loaded : Bool)
        × MaySee (M.shown memory.now)
        (word_read Q.Equivalent.equivalent K.eq loaded (storing {K = K} {V = V} {Q = Q} setting hash there own trial stands) word) }
    ensures { (stands : Point) (loaded : Bool)
        → HasRead {K = K} {V = V} {Q = Q} setting hash there own (M.shown memory.now)
        (word_read Q.Equivalent.equivalent K.eq loaded (storing setting hash there own trial stands) word) result }
{
    let same = is_of_own::<K, V, Q, M>(memory, setting, hash, there, own, trial, word);
    let finding = seen(setting.mode, Aim::Stores, word, same);
    judge::<K, V, Q>(setting, hash, there, own, trial, word, finding)
}

/// Makes a try.
#[inline(always)]
fn try_place<K: Eq + Hash, V, Q: Equivalent<K>, S: Hashes<K>, M: Memory<Node<K, V>>>(
    memory: &mut M,
    hasher: &S,
    setting: Setting,
    hash: u64,
    there: There,
    own: u64,
    trial: Trial,
) -> Tried
    requires plain { is_plain there ≡ true }
    requires own { own ≢ 0 }
    requires may { MayCall Q.Equivalent.equivalent K.eq (S.hash hasher.now) M.took M.shown M.can (storing setting hash there own trial at.Probes) memory.old }
    ensures { CallLeads Q.Equivalent.equivalent K.eq (S.hash hasher.now) M.took M.shown (storing setting hash there own trial at.Probes)
        memory.old (try_at setting hash there own result) memory.new }
{
    let word = memory.load(trial.at());
    read::<K, V, Q, M>(memory, setting, hash, there, own, trial, word)
}

/// Makes tries, from this one on, up to one that is not passed.
#[inline(always)]
fn try_places<K: Eq + Hash, V, Q: Equivalent<K>, S: Hashes<K>, M: Memory<Node<K, V>>>(
    memory: &mut M,
    hasher: &S,
    setting: Setting,
    hash: u64,
    there: There,
    own: u64,
    first: Trial,
) -> Tried
    requires plain { is_plain there ≡ true }
    requires own { own ≢ 0 }
    requires may { MayCall Q.Equivalent.equivalent K.eq (S.hash hasher.now) M.took M.shown M.can (storing setting hash there own first at.Probes) memory.old }
    ensures { CallLeads Q.Equivalent.equivalent K.eq (S.hash hasher.now) M.took M.shown (storing setting hash there own first at.Probes)
        memory.old (try_at setting hash there own result) memory.new }
{
    let mut trial = first;
    for _ in 0..first.table.limit {
        match try_place::<K, V, Q, S, M>(memory, hasher, setting, hash, there, own, trial) {
            Tried::Next(next) => trial = next,
            stands => return stands,
        }
    }
    Tried::Next(trial)
}

/// Puts the own block in the place of the word of a try, and ends the call.
#[inline(always)]
fn put<K: Eq + Hash, V, Q: Equivalent<K>, S: Hashes<K>, M: Memory<Node<K, V>>>(
    memory: &mut M,
    hasher: &S,
    setting: Setting,
    hash: u64,
    there: There,
    own: u64,
    trial: Trial,
    word: u64,
) -> Stored
    requires plain { is_plain there ≡ true }
    requires own { own ≢ 0 }
    requires buried { own ≢ BURIED }
    requires may { MayCall Q.Equivalent.equivalent K.eq (S.hash hasher.now) M.took M.shown M.can (storing setting hash there own trial (at.Tries word own))
        memory.old }
    ensures { CallReaches Q.Equivalent.equivalent K.eq (S.hash hasher.now) M.took M.shown (storing setting hash there own trial (at.Tries word own))
        memory.old memory.new (stored_at setting hash there own result) }
{
    match memory.exchange(trial.at(), word, own) {
        Ok(_) => {
            if word == 0 {
                let of = setting;
                count(of, memory, 0);
                return Stored::Answered(KeyAnswer::Stored(own));
            }
            let disposed = dispose(memory, setting, word, trial.table);
            replaced(trial, own, word, disposed)
        }
        Err(found) => match read::<K, V, Q, M>(memory, setting, hash, there, own, trial, found) {
            Tried::Next(next) => Stored::Stands(next, StoringPoint::Probes),
            Tried::Stands(trial, spot) => Stored::Stands(trial, spot),
        },
    }
}

/// The pair of a word was replaced, and its disposal has come to this.
#[inline(always)]
fn replaced(trial: Trial, own: u64, word: u64, disposed: Disposed) -> Stored
    ensures { result ≡ replaced_by trial own word disposed }
{
    match disposed {
        Disposed::Retires(Retired::Ended) => Stored::Answered(KeyAnswer::Replaced {
            old: word,
            new: own,
        }),
        disposed => Stored::Stands(trial, StoringPoint::Disposes(word, disposed)),
    }
}

/// No try.
fn no_trial() -> Trial
    ensures { result ≡ untried }
{
    Trial {
        table: Table {
            link: 0,
            len: 0,
            limit: 0,
            turn: 0,
        },
        probe: Probe { i: 0, len: 0 },
        met: 0,
        most: 0,
    }
}

/// Returns the call at the point where it has stopped.
pub fn call_of<K, V, Q>(
    setting: Setting,
    hash: u64,
    there: There,
    own: u64,
    trial: Trial,
    spot: StoringPoint,
) -> KeyCall<K, V, Q>
    ensures { result ≡ call_at setting hash there own trial spot }
{
    KeyCall {
        setting,
        hash,
        there,
        missing: Missing::Puts,
        asked: None,
        unmade: None,
        replies: Replies {
            takes: Takes::Nothing,
            key: None,
            absent: Told::Nothing,
            pair: 0,
            present: Told::Nothing,
        },
        own,
        trial,
        helped: false,
        stands: calling_of(setting, own, trial, spot),
    }
}

/// The point where it has stopped.
fn calling_of(setting: Setting, own: u64, trial: Trial, spot: StoringPoint) -> Calling
    ensures { result ≡ calling_at setting own trial spot }
{
    match spot {
        StoringPoint::Roots => Calling::Roots,
        StoringPoint::Firsts => Calling::Firsts(NewTable::first(setting, FIRST_LEN)),
        StoringPoint::Probes => Calling::Probes,
        StoringPoint::Nexts => Calling::Nexts,
        StoringPoint::Tries(word) => Calling::Tries { word, new: own },
        StoringPoint::Finds(word) => Calling::Drops(End::Answered(KeyAnswer::Found(word))),
        StoringPoint::Disposes(word, disposed) => Calling::Disposes {
            dispose: dispose_of(setting, word, trial.table, disposed),
            answer: KeyAnswer::Replaced {
                old: word,
                new: own,
            },
        },
    }
}

/// Stores the own block of a call that stands at the root: also in the place of a pair of its key, or only where there is none.
#[inline(always)]
pub fn store<K: Eq + Hash, V, Q: Equivalent<K>, S: Hashes<K>, M: Memory<Node<K, V>>>(
    memory: &mut M,
    hasher: &S,
    setting: Setting,
    hash: u64,
    there: There,
    own: u64,
) -> Stored
    requires { MayCall Q.Equivalent.equivalent K.eq (S.hash hasher.now) M.took M.shown M.can (storing setting hash there own untried at.Roots) memory.old }
    ensures { CallReaches Q.Equivalent.equivalent K.eq (S.hash hasher.now) M.took M.shown (storing setting hash there own untried at.Roots)
        memory.old memory.new (stored_at setting hash there own result) }
{
    let none = no_trial();
    if !is_plain(there) {
        return Stored::Stands(none, StoringPoint::Roots);
    }
    if own == 0 {
        return Stored::Stands(none, StoringPoint::Roots);
    }
    if own == TOMBSTONE {
        return Stored::Stands(none, StoringPoint::Roots);
    }
    let link = memory.load(At::Root(setting.root));
    if link == 0 {
        return Stored::Stands(none, StoringPoint::Firsts);
    }
    let table = Table::seen(link, memory.value(Link::block_of(link)));
    let first = Trial::first(table, hash);
    match try_places::<K, V, Q, S, M>(memory, hasher, setting, hash, there, own, first) {
        Tried::Stands(trial, StoringPoint::Tries(word)) => {
            put::<K, V, Q, S, M>(memory, hasher, setting, hash, there, own, trial, word)
        }
        Tried::Stands(trial, spot) => Stored::Stands(trial, spot),
        Tried::Next(trial) => Stored::Stands(trial, StoringPoint::Probes),
    }
}

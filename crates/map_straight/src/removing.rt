//! A call that removes the pair of a key: from the root to the disposal of the pair, or to the end of the tries.
ghost use Rattle.std.specs.Prelude.{◌≡◌, ◌≢◌, Bool};
ghost use Rattle.seize_words.specs.OneMemory.Plan.{MaySee, Ends};
ghost use Rattle.map_tables.specs.declared.marks.TheConstants.{TOMBSTONE as BURIED};
ghost use Rattle.papaya_raw.specs.Call.{word_read};
ghost use Rattle.papaya_raw.specs.CallPoints.{told, after_finding, untried};
ghost use Rattle.papaya_raw.specs.declared.machines.call.Calling.{Calling as Point};
ghost use Rattle.papaya_raw.specs.declared.machines.call.Calling.TheVariants as at;
ghost use Rattle.map_straight.specs.Straight.Going.{CallGoes, CallReaches, MayCall};
ghost use Rattle.seize_straight.specs.Reaches.{HasOutcome};
ghost use Rattle.map_straight.specs.Straight.Removing.{HasSought, past_all, removed_at, removed_by, removing_at, seeking, sought_at};

use crate::disposing::{Disposed, dispose, dispose_of};
use map_machines::{asks_for, count};
use map_tables::marks::TOMBSTONE;
use map_tables::{Aim, Equivalent, Finding, Hashes, Node, Setting, Table, Trial, may_be, seen};
use papaya_raw::machines::{Calling, KeyAnswer, KeyCall};
use seize_straight::Retired;
use seize_words::{At, Link, Look, Memory};
use std::hash::Hash;

/// A point of a call that removes the pair of a key. A pair is named by the word that links to it.
#[derive(Clone, Copy)]
pub enum Removal {
    /// It is to read the root.
    Roots,
    /// It is to read the word of its try.
    Probes,
    /// It is to read the link to the table after the one that it has tried.
    Nexts,
    /// It is to put a tombstone in the place of this word.
    Tries(u64),
    /// It is to count that the pair of this word was removed.
    Counts(u64),
    /// It has removed the pair of this word, whose disposal has come to this.
    Disposes(u64, Disposed),
}

/// Where a call that removes the pair of a key has come to.
#[derive(Clone, Copy)]
pub enum RemovalAt {
    /// It has ended with this answer.
    Answered(KeyAnswer),
    /// It stands here, at this try.
    Stands(Trial, Removal),
}

/// Where it has come to by a try.
#[derive(Clone, Copy)]
pub enum Sought {
    /// It is to make this try.
    Next(Trial),
    /// It makes no further try at the table.
    Ends(RemovalAt),
}

/// Whether a word names a pair of the key.
#[inline(always)]
fn is_asked<K: Eq + Hash, V, Q: Equivalent<K>, M: Look<Node<K, V>>>(
    memory: &M,
    setting: Setting,
    hash: u64,
    asked: &Q,
    trial: Trial,
    word: u64,
) -> bool
    requires { (stands : Point) × (loaded : Bool)
        × MaySee (M.shown memory.now)
        (word_read Q.Equivalent.equivalent K.eq loaded (seeking {K = K} {V = V} {Q = Q} setting hash asked.now trial stands) word) }
    ensures { (stands : Point) (loaded : Bool)
        → Ends (M.shown memory.now)
        (word_read Q.Equivalent.equivalent K.eq loaded (seeking {K = K} {V = V} {Q = Q} setting hash asked.now trial stands) word)
        (told loaded (seeking setting hash asked.now trial stands) word result) }
{
    may_be(hash, word) && asks_for(asked, memory.value(Link::block_of(word)))
}

/// All tries at a table are made. In incremental mode the key may be in the next one.
#[inline(always)]
fn past(setting: Setting, met: Trial) -> RemovalAt
    ensures { result ≡ past_all setting.mode met }
{
    if setting.mode.is_incremental() {
        RemovalAt::Stands(met, Removal::Nexts)
    } else {
        RemovalAt::Answered(KeyAnswer::Absent)
    }
}

/// Judges a try by what its word says.
#[inline(always)]
fn weigh<K, V, Q>(
    setting: Setting,
    hash: u64,
    asked: &Q,
    trial: Trial,
    word: u64,
    finding: Finding,
) -> Sought
    ensures { (stands : Point) (loaded : Bool)
        → HasOutcome CallGoes (after_finding loaded (seeking {K = K} {V = V} {Q = Q} setting hash asked.now trial stands) word finding) (sought_at setting hash asked.now result) }
{
    match finding {
        Finding::Free => Sought::Ends(RemovalAt::Answered(KeyAnswer::Absent)),
        Finding::Passed => {
            let met = trial.meets(word);
            match met.next() {
                Some(next) => Sought::Next(next),
                None => Sought::Ends(past(setting, met)),
            }
        }
        Finding::Moved => Sought::Ends(RemovalAt::Stands(trial, Removal::Nexts)),
        Finding::Copying => Sought::Ends(RemovalAt::Stands(trial, Removal::Probes)),
        Finding::There => Sought::Ends(RemovalAt::Stands(trial, Removal::Tries(word))),
    }
}

/// Goes on by the word of a try, which was loaded, or found by an exchange that failed.
#[inline(always)]
fn reread<K: Eq + Hash, V, Q: Equivalent<K>, M: Look<Node<K, V>>>(
    memory: &M,
    setting: Setting,
    hash: u64,
    asked: &Q,
    trial: Trial,
    word: u64,
) -> Sought
    requires { (stands : Point) × (loaded : Bool)
        × MaySee (M.shown memory.now)
        (word_read Q.Equivalent.equivalent K.eq loaded (seeking {K = K} {V = V} {Q = Q} setting hash asked.now trial stands) word) }
    ensures { (stands : Point) (loaded : Bool)
        → HasSought {K = K} {V = V} {Q = Q} setting hash asked.now (M.shown memory.now)
        (word_read Q.Equivalent.equivalent K.eq loaded (seeking setting hash asked.now trial stands) word) result }
{
    let same = is_asked::<K, V, Q, M>(memory, setting, hash, asked, trial, word);
    let finding = seen(setting.mode, Aim::Changes, word, same);
    weigh::<K, V, Q>(setting, hash, asked, trial, word, finding)
}

/// Makes a try.
#[inline(always)]
fn seek<K: Eq + Hash, V, Q: Equivalent<K>, S: Hashes<K>, M: Memory<Node<K, V>>>(
    memory: &mut M,
    hasher: &S,
    setting: Setting,
    hash: u64,
    asked: &Q,
    trial: Trial,
) -> Sought
    requires { MayCall Q.Equivalent.equivalent K.eq (S.hash hasher.now) M.took M.shown M.can (seeking setting hash asked.now trial at.Probes) memory.old }
    ensures { CallReaches Q.Equivalent.equivalent K.eq (S.hash hasher.now) M.took M.shown (seeking setting hash asked.now trial at.Probes)
        memory.old memory.new (sought_at setting hash asked.now result) }
{
    let word = memory.load(trial.at());
    reread::<K, V, Q, M>(memory, setting, hash, asked, trial, word)
}

/// Makes tries, from this one on, up to one that is not passed.
#[inline(always)]
fn seek_on<K: Eq + Hash, V, Q: Equivalent<K>, S: Hashes<K>, M: Memory<Node<K, V>>>(
    memory: &mut M,
    hasher: &S,
    setting: Setting,
    hash: u64,
    asked: &Q,
    first: Trial,
) -> RemovalAt
    requires { MayCall Q.Equivalent.equivalent K.eq (S.hash hasher.now) M.took M.shown M.can (seeking setting hash asked.now first at.Probes) memory.old }
    ensures { CallReaches Q.Equivalent.equivalent K.eq (S.hash hasher.now) M.took M.shown (seeking setting hash asked.now first at.Probes)
        memory.old memory.new (removed_at setting hash asked.now result) }
{
    let mut trial = first;
    for _ in 0..first.table.limit {
        match seek::<K, V, Q, S, M>(memory, hasher, setting, hash, asked, trial) {
            Sought::Next(next) => trial = next,
            Sought::Ends(end) => return end,
        }
    }
    RemovalAt::Stands(trial, Removal::Probes)
}

/// The pair of a word was removed, and its disposal has come to this.
#[inline(always)]
fn gone(trial: Trial, word: u64, disposed: Disposed) -> RemovalAt
    ensures { result ≡ removed_by trial word disposed }
{
    match disposed {
        Disposed::Retires(Retired::Ended) => RemovalAt::Answered(KeyAnswer::Removed(word)),
        disposed => RemovalAt::Stands(trial, Removal::Disposes(word, disposed)),
    }
}

/// Puts a tombstone in the place of the word of a try, and ends the call.
#[inline(always)]
fn bury<K: Eq + Hash, V, Q: Equivalent<K>, S: Hashes<K>, M: Memory<Node<K, V>>>(
    memory: &mut M,
    hasher: &S,
    setting: Setting,
    hash: u64,
    asked: &Q,
    trial: Trial,
    word: u64,
) -> RemovalAt
    requires { MayCall Q.Equivalent.equivalent K.eq (S.hash hasher.now) M.took M.shown M.can (seeking setting hash asked.now trial (at.Tries word BURIED))
        memory.old }
    ensures { CallReaches Q.Equivalent.equivalent K.eq (S.hash hasher.now) M.took M.shown (seeking setting hash asked.now trial (at.Tries word BURIED))
        memory.old memory.new (removed_at setting hash asked.now result) }
{
    match memory.exchange(trial.at(), word, TOMBSTONE) {
        Ok(_) => {
            if word == 0 {
                return RemovalAt::Stands(trial, Removal::Counts(word));
            }
            count(setting, memory, word);
            let disposed = dispose(memory, setting, word, trial.table);
            gone(trial, word, disposed)
        }
        Err(found) => match reread::<K, V, Q, M>(memory, setting, hash, asked, trial, found) {
            Sought::Next(next) => RemovalAt::Stands(next, Removal::Probes),
            Sought::Ends(end) => end,
        },
    }
}

/// Removes the pair of the key of a call that stands at the root.
#[inline(always)]
pub fn remove<K: Eq + Hash, V, Q: Equivalent<K>, S: Hashes<K>, M: Memory<Node<K, V>>>(
    memory: &mut M,
    hasher: &S,
    setting: Setting,
    hash: u64,
    asked: &Q,
) -> RemovalAt
    requires { MayCall Q.Equivalent.equivalent K.eq (S.hash hasher.now) M.took M.shown M.can (seeking setting hash asked.now untried at.Roots) memory.old }
    ensures { CallReaches Q.Equivalent.equivalent K.eq (S.hash hasher.now) M.took M.shown (seeking setting hash asked.now untried at.Roots)
        memory.old memory.new (removed_at setting hash asked.now result) }
{
    let link = memory.load(At::Root(setting.root));
    if link == 0 {
        return RemovalAt::Answered(KeyAnswer::Absent);
    }
    let table = Table::seen(link, memory.value(Link::block_of(link)));
    let first = Trial::first(table, hash);
    match seek_on::<K, V, Q, S, M>(memory, hasher, setting, hash, asked, first) {
        RemovalAt::Stands(trial, Removal::Tries(word)) => {
            bury::<K, V, Q, S, M>(memory, hasher, setting, hash, asked, trial, word)
        }
        RemovalAt::Stands(trial, removal) => RemovalAt::Stands(trial, removal),
        RemovalAt::Answered(answer) => RemovalAt::Answered(answer),
    }
}

/// The point where it has stopped.
fn removing_at(setting: Setting, trial: Trial, removal: Removal) -> Calling
    ensures { result ≡ removing_at setting trial removal }
{
    match removal {
        Removal::Roots => Calling::Roots,
        Removal::Probes => Calling::Probes,
        Removal::Nexts => Calling::Nexts,
        Removal::Tries(word) => Calling::Tries {
            word,
            new: TOMBSTONE,
        },
        Removal::Counts(removed) => Calling::Counts { removed },
        Removal::Disposes(word, disposed) => Calling::Disposes {
            dispose: dispose_of(setting, word, trial.table, disposed),
            answer: KeyAnswer::Removed(word),
        },
    }
}

/// Returns the call at the point where it has stopped.
pub fn removal_of<K: Drop, V: Drop, Q: Drop>(
    setting: Setting,
    hash: u64,
    asked: Q,
    trial: Trial,
    removal: Removal,
) -> KeyCall<K, V, Q>
    ensures { result ≡ seeking setting hash asked trial (removing_at setting trial removal) }
{
    let mut call = KeyCall::remove(setting, hash, asked);
    call.trial = trial;
    call.stands = removing_at(setting, trial, removal);
    call
}

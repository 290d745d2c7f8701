//! A lookup: from the root over the tries at the root's table, on a memory that can only be read, too.
ghost use Rattle.std.specs.Prelude.{◌≡◌};
ghost use Rattle.seize_words.specs.OneMemory.Plan.{MaySee, Ends};
ghost use Rattle.map_machines.specs.Lookup.{looking, told, after_finding, word_read};
ghost use Rattle.map_machines.specs.declared.lookup.Looking.TheVariants as at;
ghost use Rattle.map_straight.specs.Straight.Going.{LookGoes, LookReaches, MayLook};
ghost use Rattle.map_straight.specs.Straight.Looking.{HasGlanced, glance_at, looks, past_tries, sight_at};
ghost use Rattle.seize_straight.specs.Reaches.{HasOutcome};

use map_machines::asks_for;
use map_tables::{Aim, Equivalent, Finding, Node, ResizeMode, Table, Trial, may_be, seen};
use papaya_raw::machines::Looking;
use seize_words::{At, Link, Look};
use std::hash::Hash;

/// Where a lookup has come to.
#[derive(Clone, Copy)]
pub enum Sight {
    /// It has ended, with the link of the pair found.
    Ends(Option<u64>),
    /// It stands here.
    Stands(Looking),
}

/// Where it has come to by a try.
#[derive(Clone, Copy)]
pub enum Glance {
    /// It is to make this try.
    Next(Trial),
    /// No further try at the table is to be made.
    Ends(Sight),
}

/// Whether a word names a pair of the key.
#[inline(always)]
fn names<K: Eq + Hash, V, Q: Equivalent<K>, M: Look<Node<K, V>>>(
    memory: &M,
    root: u64,
    mode: ResizeMode,
    hash: u64,
    asked: &Q,
    trial: Trial,
    word: u64,
) -> bool
    requires { MaySee (M.shown memory.now) (word_read (Q.Equivalent.equivalent asked.now) (looks root mode hash (at.Probes trial)) trial word) }
    ensures { Ends (M.shown memory.now) (word_read (Q.Equivalent.equivalent asked.now) (looks root mode hash (at.Probes trial)) trial word)
        (told (looks root mode hash (at.Probes trial)) trial word result) }
{
    may_be(hash, word) && asks_for(asked, memory.value(Link::block_of(word)))
}

/// All tries at a table are made. In incremental mode the key may be in the next one.
#[inline(always)]
fn past(mode: ResizeMode, table: Table) -> Sight
    ensures { result ≡ past_tries mode table }
{
    if mode.is_incremental() {
        Sight::Stands(Looking::Nexts { table })
    } else {
        Sight::Ends(None)
    }
}

/// Judges a try by what its word says.
#[inline(always)]
fn tell(root: u64, mode: ResizeMode, hash: u64, trial: Trial, word: u64, finding: Finding) -> Glance
    ensures { HasOutcome LookGoes (after_finding (looks root mode hash (at.Probes trial)) trial word finding) (glance_at root mode hash result) }
{
    match finding {
        Finding::Free => Glance::Ends(Sight::Ends(None)),
        Finding::Passed => match trial.next() {
            Some(next) => Glance::Next(next),
            None => Glance::Ends(past(mode, trial.table)),
        },
        Finding::Moved => Glance::Ends(Sight::Stands(Looking::Nexts { table: trial.table })),
        Finding::Copying | Finding::There => Glance::Ends(Sight::Ends(Some(word))),
    }
}

/// Makes a try.
#[inline(always)]
fn look_at<K: Eq + Hash, V, Q: Equivalent<K>, M: Look<Node<K, V>>>(
    memory: &mut M,
    root: u64,
    mode: ResizeMode,
    hash: u64,
    asked: &Q,
    trial: Trial,
) -> Glance
    requires { MayLook (Q.Equivalent.equivalent asked.now) M.took M.shown M.can (looks root mode hash (at.Probes trial)) memory.old }
    ensures { LookReaches (Q.Equivalent.equivalent asked.now) M.took M.shown (looks root mode hash (at.Probes trial))
        memory.old memory.new (glance_at root mode hash result) }
{
    let word = memory.load(trial.at());
    let same = names::<K, V, Q, M>(memory, root, mode, hash, asked, trial, word);
    let finding = seen(mode, Aim::Looks, word, same);
    tell(root, mode, hash, trial, word, finding)
}

/// Makes tries, from this one on, up to one that ends them.
#[inline(always)]
fn look_on<K: Eq + Hash, V, Q: Equivalent<K>, M: Look<Node<K, V>>>(
    memory: &mut M,
    root: u64,
    mode: ResizeMode,
    hash: u64,
    asked: &Q,
    first: Trial,
) -> Sight
    requires { MayLook (Q.Equivalent.equivalent asked.now) M.took M.shown M.can (looks root mode hash (at.Probes first)) memory.old }
    ensures { LookReaches (Q.Equivalent.equivalent asked.now) M.took M.shown (looks root mode hash (at.Probes first))
        memory.old memory.new (sight_at root mode hash result) }
{
    let mut trial = first;
    for _ in 0..first.table.limit {
        match look_at::<K, V, Q, M>(memory, root, mode, hash, asked, trial) {
            Glance::Next(next) => trial = next,
            Glance::Ends(end) => return end,
        }
    }
    Sight::Stands(Looking::Probes { trial })
}

/// Looks for a key from the root on.
#[inline(always)]
pub fn look_up<K: Eq + Hash, V, Q: Equivalent<K>, M: Look<Node<K, V>>>(
    memory: &mut M,
    root: u64,
    mode: ResizeMode,
    hash: u64,
    asked: &Q,
) -> Sight
    requires { MayLook (Q.Equivalent.equivalent asked.now) M.took M.shown M.can (looking root mode hash) memory.old }
    ensures { LookReaches (Q.Equivalent.equivalent asked.now) M.took M.shown (looking root mode hash) memory.old memory.new (sight_at root mode hash result) }
{
    let link = memory.load(At::Root(root));
    if link == 0 {
        return Sight::Ends(None);
    }
    let table = Table::seen(link, memory.value(Link::block_of(link)));
    look_on::<K, V, Q, M>(memory, root, mode, hash, asked, Trial::first(table, hash))
}

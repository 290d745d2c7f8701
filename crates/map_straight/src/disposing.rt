//! The disposal of a pair: its retirement, where no older table that can be reached names it.
ghost use Rattle.std.specs.Prelude.{◌≡◌};
ghost use Rattle.seize.specs.Settle.{retiring};
ghost use Rattle.map_tables.specs.Marks.{link_in};
ghost use Rattle.map_machines.specs.Dispose.{disposing};
ghost use Rattle.map_straight.specs.Straight.Disposing.{dispose_at, disposed, is_borrowed, settling};
ghost use Rattle.map_straight.specs.Straight.Going.{DisposeReaches, MayDispose};

use map_machines::{Dispose, Disposing};
use map_tables::marks::{BORROWED, has, link_of};
use map_tables::{Node, ResizeMode, Setting, Table};
use seize_straight::{Retired, retire, settle_of};
use seize_words::{At, Link, Look, Memory};

/// Where the disposal of a pair has come to.
#[derive(Clone, Copy)]
pub enum Disposed {
    /// An older table may be reached, with this link, and the one just before the pair's own is to be found.
    Walks(u64),
    /// The retirement of the pair has come to this.
    Retires(Retired),
}

/// Whether an older table may name the pair of a word, too.
fn is_borrowed(mode: ResizeMode, word: u64) -> bool
    ensures { result ≡ is_borrowed mode word }
{
    match mode {
        ResizeMode::Incremental(_) => has(word, BORROWED),
        ResizeMode::Blocking => false,
    }
}

/// Retires the pair of a word that was taken out of a table.
#[inline(always)]
fn retire_pair<K, V, M: Memory<Node<K, V>>>(
    memory: &mut M,
    setting: Setting,
    word: u64,
    table: Table,
) -> Disposed
    requires { MayDispose M.took M.shown M.can (settling setting word table (retiring setting.slot setting.batch_size (link_in word))) memory.old }
    ensures { DisposeReaches M.took M.shown (settling setting word table (retiring setting.slot setting.batch_size (link_in word)))
        memory.old memory.new (disposed setting word table result) }
{
    let pair = link_of(word);
    let retired = retire(memory, setting.slot, setting.batch_size, pair);
    Disposed::Retires(retired)
}

/// Disposes of the pair of a word that was taken out of a table: retires it, where no older table may name it.
#[inline(always)]
pub fn dispose<K, V, M: Memory<Node<K, V>>>(
    memory: &mut M,
    setting: Setting,
    word: u64,
    table: Table,
) -> Disposed
    requires { MayDispose M.took M.shown M.can (disposing setting word table) memory.old }
    ensures { DisposeReaches M.took M.shown (disposing setting word table) memory.old memory.new (disposed setting word table result) }
{
    if !is_borrowed(setting.mode, word) {
        return retire_pair(memory, setting, word, table);
    }
    let root = memory.load(At::Root(setting.root));
    let turn = Table::seen(root, memory.value(Link::block_of(root))).turn;
    if turn < table.turn {
        return Disposed::Walks(root);
    }
    retire_pair(memory, setting, word, table)
}

/// Returns the disposal at the point where it has stopped.
pub fn dispose_of(setting: Setting, word: u64, table: Table, disposed: Disposed) -> Dispose
    ensures { result ≡ dispose_at setting word table disposed }
{
    let mut dispose = Dispose::begin(setting, word, table);
    dispose.stands = match disposed {
        Disposed::Walks(table) => Disposing::Walks { table },
        Disposed::Retires(retired) => Disposing::Settles(settle_of(
            setting.slot,
            setting.batch_size,
            link_of(word),
            retired,
        )),
    };
    dispose
}

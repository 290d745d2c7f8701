//! The tables of a map, from its root on.
ghost use Rattle.std.specs.Prelude.{◌≡◌, ◌≢◌, ◌<◌, ◌≤◌, ℕ, suc, Bool, Option, Some, None, IsSome};
ghost use Rattle.map_tables.specs.Nodes.{table_seen};
ghost use Rattle.map_tables.specs.declared.node.Node.{Node};
ghost use Rattle.map_rule.specs.Chart.{Chart};
ghost use Rattle.map_rule.specs.Words.{Blocks};
ghost use Rattle.seize_words.specs.OneMemory.Word.{block_in};
ghost use Rattle.seize_words.specs.OneMemory.Mem.{value_at};
ghost use Rattle.map_straight.specs.Shown.Shown.{HasMap, table_at, table_of};

use map_tables::table_words::NEXT;
use map_tables::{Node, Setting, Table};
use seize_words::{At, Link, Look, Plain};

/// The table that a link names, if it names one.
fn table_at<K, V>(memory: &Plain<Node<K, V>>, link: u64) -> Option<Table>
    requires { link ≢ 0 → IsSome (value_at memory.now (block_in link)) }
    ensures none { link ≡ 0 → result ≡ None }
    ensures some { (value : Node K V) → link ≢ 0 → value_at memory.now (block_in link) ≡ Some value → result ≡ Some (table_seen link value) }
{
    if link == 0 {
        return None;
    }
    Some(Table::seen(link, memory.value(Link::block_of(link))))
}

/// Returns the root of a map, if it has a table.
pub fn root_of<K, V>(memory: &Plain<Node<K, V>>, setting: Setting) -> Option<Table>
    requires { (eq : K → K → Bool) × (hash : K → ℕ) × (c : Chart K) × (blocks : Blocks) × HasMap eq hash memory.now setting c blocks }
    ensures { (eq : K → K → Bool) (hash : K → ℕ) (c : Chart K) (blocks : Blocks) → HasMap eq hash memory.now setting c blocks → result ≡ table_at c blocks c.first }
{
    let link = memory.look().load(At::Root(setting.root));
    table_at(memory, link)
}

/// Returns the table behind one, if there is one.
pub fn table_behind<K, V>(
    memory: &Plain<Node<K, V>>,
    setting: Setting,
    table: Table,
) -> Option<Table>
    requires { (eq : K → K → Bool) × (hash : K → ℕ) × (c : Chart K) × (blocks : Blocks) × HasMap eq hash memory.now setting c blocks × (c.first ≤ table.turn) × (table.turn < c.past) × (table ≡ table_of c blocks table.turn) }
    ensures { (eq : K → K → Bool) (hash : K → ℕ) (c : Chart K) (blocks : Blocks) → HasMap eq hash memory.now setting c blocks → c.first ≤ table.turn → table.turn < c.past → table ≡ table_of c blocks table.turn → result ≡ table_at c blocks (suc table.turn) }
{
    let link = memory
        .look()
        .load(At::Word(Link::block_of(table.link), NEXT));
    table_at(memory, link)
}

//! What the places of a table show.
ghost use Rattle.std.specs.Prelude.{if◌then◌else◌, ◌==◌, ◌≡◌, ◌≢◌, ◌<◌, ◌≤◌, ◌+◌, ◌-◌, ◌^◌, ◌∷◌, [], ℕ, Bool, MatchOption, Option, Some, None};
ghost use Rattle.map_tables.specs.Chunks.{is_incremental};
ghost use Rattle.seize_words.specs.OneMemory.Word.{block_in};
ghost use Rattle.seize_words.specs.OneMemory.Mem.{word_at, value_at};
ghost use Rattle.seize_words.specs.declared.at.At.TheVariants.{Word};
ghost use Rattle.map_tables.specs.declared.table_words.TheConstants.{PLACES};
ghost use Rattle.map_straight.specs.Shown.Chain.{IsPlace, IsTableAt, CanBeRead, HasTables, CountsTables, counts_tables_prop, pair_by, pairs_at, pairs_on, places_of, word_or_none};
ghost use Rattle.map_straight.specs.Shown.Lent.{shown};

use map_tables::marks::{COPYING, has};
use map_tables::table_words::PLACES;
use map_tables::{Node, Setting};
use seize_words::{At, Link, Look, Plain};

/// The pair at a place of the table at this link, if one is there that counts: in incremental mode one that is marked stands in a later table, too.
fn pair_at<'a, K, V>(
    memory: &'a Plain<Node<K, V>>,
    setting: Setting,
    link: u64,
    place: u64,
) -> Option<(&'a K, &'a V)>
    requires place { IsPlace memory.now link place }
    requires fits { place + PLACES < 2 ^ 64 }
    ensures { shown result ≡ pair_by memory.now (is_incremental setting.mode) (word_or_none (word_at memory.now (Word (block_in link) (place + PLACES)))) }
{
    let word = memory
        .look()
        .load(At::Word(Link::block_of(link), place + PLACES));
    if Link::block_of(word) == 0 || setting.mode.is_incremental() && has(word, COPYING) {
        return None;
    }
    match memory.value(Link::block_of(word)) {
        Node::Pair(key, value) => Some((key, value)),
        Node::Table { .. } | Node::Shards => unreachable!(),
    }
}

/// Returns the first pair that counts from a place on in a table, and the place behind it.
pub fn next_in<'a, K, V>(
    memory: &'a Plain<Node<K, V>>,
    setting: Setting,
    link: u64,
    place: u64,
    len: u64,
) -> Option<(u64, &'a K, &'a V)>
    requires places { (i : ℕ) → i < len → IsPlace memory.now link i }
    requires fits { len + PLACES < 2 ^ 64 }
    ensures { MatchOption result (pairs_at memory.now (is_incremental setting.mode) link place (len - place) ≡ [])
        (λ r. (r.0 ≤ len) × (pairs_at memory.now (is_incremental setting.mode) link place (len - place) ≡ (r.1.now, r.2.now) ∷ pairs_at memory.now (is_incremental setting.mode) link r.0 (len - r.0))) }
{
    for at in place..len {
        if let Some((key, value)) = pair_at(memory, setting, link, at) {
            return Some((at + 1, key, value));
        }
    }
    None
}

/// Returns how many places the table at this link has.
pub fn len_at<K, V>(memory: &Plain<Node<K, V>>, link: u64) -> u64
    requires { link ≢ 0 → IsTableAt memory.now link }
    ensures { result ≡ (if link == 0 then 0 else places_of (value_at memory.now (block_in link))) }
{
    if link == 0 {
        return 0;
    }
    match memory.value(Link::block_of(link)) {
        Node::Table { len, .. } => *len,
        Node::Pair(..) | Node::Shards => unreachable!(),
    }
}

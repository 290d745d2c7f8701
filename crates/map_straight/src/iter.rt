//! The pairs of a map, one after another, as its words show them.
ghost use Rattle.std.specs.Prelude.{◌≡◌, ℕ, Bool, true};
ghost use Rattle.std.specs.List.Sorted.{IsPermutation};
ghost use Rattle.map_rule.specs.Chart.{Chart};
ghost use Rattle.map_rule.specs.Words.{Blocks};
ghost use Rattle.map_straight.specs.Shown.Shown.{HasMap, NoneMoves, pairs_stored};
ghost use Rattle.std.specs.Iterator.{YieldsFirstBy, item_count};
ghost use Rattle.map_tables.specs.Chunks.{is_incremental};
ghost use Rattle.map_straight.specs.Shown.Chain.{CanBeRead, HasTables, CountsTables, pairs_from_root, pairs_on, root_link};
ghost use Rattle.map_straight.specs.Shown.Lent.{pair_shown};
ghost use Rattle.map_straight.specs.Shown.Coming.{pairs_to_come, can_go_on};

use crate::pairs::{Pairs, Tables};
use crate::places::{len_at, next_in};
use map_tables::table_words::NEXT;
use map_tables::{Node, Setting};
use seize_words::{At, Link, Look, Plain};

impl<'a, K, V> Pairs<'a, K, V> {
    /// The pairs from this link on.
    fn from_link(memory: &'a Plain<Node<K, V>>, setting: Setting, link: u64) -> Self
        requires counted { CountsTables memory.now link }
        requires read { (tables : ℕ) → HasTables memory.now tables link → CanBeRead memory.now tables link }
        ensures can { can_go_on result }
        ensures left { pairs_to_come result ≡ pairs_on memory.now (is_incremental setting.mode) result.tables.count.0 link }
        ensures at { (result.tables.memory.now ≡ memory.now) × (result.setting ≡ setting) × (result.tables.link ≡ link) }
    {
        Pairs {
            len: len_at(memory, link),
            tables: Tables { memory, link },
            setting,
            place: 0,
        }
    }
}

/// Returns the pairs of a map on which no call is under way, each once. It makes no operation on the memory but loads, and completes no resize.
pub fn pairs_of<K, V>(memory: &Plain<Node<K, V>>, setting: Setting) -> Pairs<'_, K, V>
    requires { (eq : K → K → Bool) × (hash : K → ℕ) × (c : Chart K) × (blocks : Blocks) × HasMap eq hash memory.now setting c blocks }
    ensures can { can_go_on result }
    ensures all { (tables : ℕ) → HasTables memory.now tables (root_link memory.now setting) → pairs_to_come result ≡ pairs_from_root memory.now setting tables }
    ensures pairs { (eq : K → K → Bool) (hash : K → ℕ) (c : Chart K) (blocks : Blocks) → HasMap eq hash memory.now setting c blocks → is_incremental setting.mode ≡ true → NoneMoves true c → IsPermutation (pairs_to_come result) (pairs_stored memory.now c blocks c.stored) }
{
    let link = memory.look().load(At::Root(setting.root));
    Pairs::from_link(memory, setting, link)
}

impl<'a, K, V> Iterator for Pairs<'a, K, V> {
    type Item = (&'a K, &'a V);

    ghost can_next = { can_go_on };

    ghost next_gives = { YieldsFirstBy pair_shown pairs_to_come };

    ghost remaining = { item_count pairs_to_come };

    fn next(&mut self) -> Option<(&'a K, &'a V)> {
        while self.tables.link != 0 {
            let memory = self.tables.memory;
            let link = self.tables.link;
            if let Some((place, key, value)) = next_in(
                memory,
                self.setting,
                link,
                self.place,
                self.len,
            ) {
                self.place = place;
                return Some((key, value));
            }
            let behind = memory.look().load(At::Word(Link::block_of(link), NEXT));
            *self = Pairs::from_link(memory, self.setting, behind);
        }
        None
    }
}

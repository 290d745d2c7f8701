//! Lookups that the owner of a map runs to their ends, over a memory that is only read.
ghost use Rattle.std.specs.Prelude.{◌≡◌, ℕ, Option, Some, option_map};
ghost use Rattle.seize_words.specs.OneMemory.Mem.{value_at};
ghost use Rattle.seize_words.specs.OneMemory.Word.{block_in};
ghost use Rattle.map_tables.specs.declared.node.Node.TheVariants as node;
ghost use Rattle.owner_whole.specs.Strides.Ending.{Ends};
ghost use Rattle.owner_whole.specs.Strides.Looking.{LooksIn, Finds};
ghost use Rattle.owner_calls.specs.Owned.Owned.{IsShownAt, NamesAPair};
ghost use Rattle.map_straight.specs.Given.ResizeLookup.{lookup_plan};
ghost use Rattle.map_straight.specs.Given.RuleChart.{Chart};
ghost use Rattle.map_straight.specs.Given.RuleWords.{Blocks};

use crate::most_looks::MostLooks;
use crate::tries::{Tried, tries};
use map_tables::{Equivalent, Node};
use papaya_raw::machines::{Looking, Lookup};
use seize::Advance;
use seize_words::{Link, Look, Plain};
use std::hash::Hash;
use std::snapshot::Snapshot;

/// How many steps there are still at most.
fn most<K: Eq + Hash, V, Q: Equivalent<K>>(
    memory: &Plain<Node<K, V>>,
    lookup: &Lookup,
    asked: &Q,
) -> MostLooks<K, V, Q>
    requires { Ends (lookup_plan (Q.Equivalent.equivalent asked.now)) lookup.now memory.now }
    ensures memory { result.memory.value ≡ memory.now }
    ensures lookup { result.lookup.value ≡ lookup.now }
    ensures asked { result.asked.value ≡ asked.now }
{
    let memory = Snapshot::of(memory);
    let lookup = Snapshot::of(lookup);
    let asked = Snapshot::of(asked);
    MostLooks {
        memory,
        lookup,
        asked,
    }
}

/// Takes the steps of a lookup until it has ended, and answers the pair that it has found.
pub fn find<'a, K: Eq + Hash, V, Q: Equivalent<K>>(
    memory: &'a Plain<Node<K, V>>,
    mut lookup: Lookup,
    asked: &Q,
) -> Option<(&'a K, &'a V)>
    requires { (hash : K → ℕ) × (c : Chart K) × (blocks : Blocks) × LooksIn K.eq hash (Q.Equivalent.equivalent asked.now) memory.now c blocks lookup lookup }
    ensures { (hash : K → ℕ) (c : Chart K) (blocks : Blocks) → LooksIn K.eq hash (Q.Equivalent.equivalent asked.now) memory.now c blocks lookup lookup
        → (found : Option ℕ) × Finds K.eq hash (Q.Equivalent.equivalent asked.now) c blocks lookup found × IsShownAt memory.now found (option_map (λ x. (x.0.now, x.1.now)) result) }
{
    let mut look = memory.look();
    let mut left = most(memory, &lookup, asked);
    loop {
        match lookup.step(&mut look, asked) {
            Advance::Goes | Advance::Waits | Advance::Refused(_) => {}
            Advance::Done(found) => return shown_at(memory, found),
        }
        let (tried, met) = tries(memory, &lookup, asked);
        match tried {
            Tried::Ends(_) => return met,
            Tried::GoesBeyond(table) => {
                lookup.stands = Looking::Nexts { table };
                left = most(memory, &lookup, asked);
            }
            Tried::Stays => left = most(memory, &lookup, asked),
        }
    }
}

/// Returns the pair of a word, where there is one.
pub fn shown_at<K, V>(memory: &Plain<Node<K, V>>, word: Option<u64>) -> Option<(&K, &V)>
    requires { (shown : Option (K × V)) × IsShownAt memory.now word shown }
    ensures { IsShownAt memory.now word (option_map (λ x. (x.0.now, x.1.now)) result) }
{
    match word {
        Some(word) => Some(pair_at(memory, word)),
        None => None,
    }
}

/// Returns the pair of a word.
pub fn pair_at<K, V>(memory: &Plain<Node<K, V>>, word: u64) -> (&K, &V)
    requires { NamesAPair memory.now word }
    ensures { (k : K) (v : V) → value_at memory.now (block_in word) ≡ Some (node.Pair k v) → (result.0.now ≡ k) × (result.1.now ≡ v) }
{
    match memory.value(Link::block_of(word)) {
        Node::Pair(key, value) => (key, value),
        Node::Table { .. } | Node::Shards => unreachable!(),
    }
}

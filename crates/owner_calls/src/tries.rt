//! The tries of a lookup at one table, one after another.
ghost use Rattle.std.specs.Prelude.{◌≡◌, ℕ, true, IfSome, IsSome, is_some, option_map};
ghost use Rattle.seize_words.specs.OneMemory.Mem.{Can, Took, value_at};
ghost use Rattle.seize_words.specs.OneMemory.Plan.{May, Steps};
ghost use Rattle.map_tables.specs.declared.node.Node.TheVariants as node;
ghost use Rattle.map_straight.specs.Given.ResizeLookup.{lookup_plan, names_pair, after_finding};
ghost use Rattle.map_straight.specs.Given.RuleChart.{Chart};
ghost use Rattle.map_straight.specs.Given.RuleWords.{Blocks};
ghost use Rattle.owner_whole.specs.Strides.Looking.{LooksIn, at_try};
ghost use Rattle.owner_calls.specs.Owned.Owned.{IsPairAt};
ghost use Rattle.owner_calls.specs.Owned.Tries.{IsMet, Nearer, TriesTo, is_there, tried_beyond};
ghost use Rattle.owner_whole.specs.Strides.Within.{within};

use map_tables::{Aim, Equivalent, Finding, Node, Table, Trial, may_be, seen};
use papaya_raw::machines::{Looking, Lookup};
use seize_words::{Link, Look, Plain};
use std::hash::Hash;

/// What the tries of a lookup at a table come to.
#[derive(Clone, Copy)]
pub(crate) enum Tried {
    /// The lookup ends with this answer.
    Ends(Option<u64>),
    /// It goes on to the table after this one.
    GoesBeyond(Table),
    /// It has entered no table, and none was made.
    Stays,
}

/// The pair of a node whose key this stands for.
fn pair_asked<'a, K: Eq + Hash, V, Q: Equivalent<K>>(
    asked: &Q,
    named: &'a Node<K, V>,
) -> Option<(&'a K, &'a V)>
    ensures asks { is_some result ≡ names_pair (Q.Equivalent.equivalent asked.now) named.now }
    ensures pair { IfSome result (λ x. named.now ≡ node.Pair x.0.now x.1.now) }
{
    match named {
        Node::Pair(key, value) if asked.equivalent(key) => Some((key, value)),
        Node::Pair(_, _) | Node::Table { .. } | Node::Shards => None,
    }
}

/// One try: its word, what that says, and the pair that it names, if it is the one.
fn try_at<'a, K: Eq + Hash, V, Q: Equivalent<K>>(
    memory: &'a Plain<Node<K, V>>,
    lookup: &Lookup,
    asked: &Q,
    trial: Trial,
) -> (u64, Finding, Option<(&'a K, &'a V)>)
    requires { May Can Took value_at memory.now (lookup_plan (Q.Equivalent.equivalent asked.now) (at_try lookup.now trial)) }
    ensures step { Steps Took value_at memory.now (lookup_plan (Q.Equivalent.equivalent asked.now) (at_try lookup.now trial)) memory.now (after_finding (at_try lookup.now trial) trial result.0 result.1) }
    ensures there { is_there result.1 ≡ true → IsSome result.2 }
    ensures pair { IfSome result.2 (λ x. IsPairAt memory.now result.0 (x.0.now, x.1.now)) }
{
    let word = memory.look().load(trial.at());
    let met = if may_be(lookup.hash, word) {
        pair_asked(asked, memory.value(Link::block_of(word)))
    } else {
        None
    };
    let finding = seen(lookup.mode, Aim::Looks, word, met.is_some());
    (word, finding, met)
}

/// All tries at a table are made. In incremental mode the key may be in the next one.
fn beyond(lookup: &Lookup, table: Table) -> Tried
    ensures { result ≡ tried_beyond lookup.now table }
{
    if lookup.mode.is_incremental() {
        Tried::GoesBeyond(table)
    } else {
        Tried::Ends(None)
    }
}

/// Makes the tries of a lookup at the table that it has entered, up to the one that tells. They are steps of the lookup, which is written only behind them.
pub(crate) fn tries<'a, K: Eq + Hash, V, Q: Equivalent<K>>(
    memory: &'a Plain<Node<K, V>>,
    lookup: &Lookup,
    asked: &Q,
) -> (Tried, Option<(&'a K, &'a V)>)
    requires { (hash : K → ℕ) × (c : Chart K) × (blocks : Blocks) × (begun : Lookup) × LooksIn K.eq hash (Q.Equivalent.equivalent asked.now) memory.now c blocks begun lookup.now }
    ensures to { (hash : K → ℕ) (c : Chart K) (blocks : Blocks) (begun : Lookup) → LooksIn K.eq hash (Q.Equivalent.equivalent asked.now) memory.now c blocks begun lookup.now
        → TriesTo K.eq hash (Q.Equivalent.equivalent asked.now) memory.now c blocks begun lookup.now result.0 }
    ensures nearer { (n : ℕ) → within (lookup_plan (Q.Equivalent.equivalent asked.now)) n lookup.now memory.now ≡ true
        → Nearer (λ k l. within (lookup_plan (Q.Equivalent.equivalent asked.now)) k l memory.now) n lookup.now result.0 }
    ensures met { IsMet memory.now result.0 (option_map (λ x. (x.0.now, x.1.now)) result.1) }
{
    let Looking::Probes { trial: first } = lookup.stands else {
        return (Tried::Stays, None);
    };
    let mut trial = first;
    loop {
        let (word, finding, met) = try_at(memory, lookup, asked, trial);
        match finding {
            Finding::Free => return (Tried::Ends(None), None),
            Finding::Copying | Finding::There => return (Tried::Ends(Some(word)), met),
            Finding::Moved => return (Tried::GoesBeyond(trial.table), None),
            Finding::Passed => match trial.next() {
                Some(next) => trial = next,
                None => return (beyond(lookup, trial.table), None),
            },
        }
    }
}

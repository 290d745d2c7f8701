//! Pairs that are reclaimed come back: they are kept in a list, in the order in which they are.
ghost use Rattle.std.specs.Prelude.{◌≡◌, ◌++◌, ◌<◌, vec_capacity, vec_len};
ghost use Rattle.run_logged.specs.Log.Back.{number_back, number_last, numbered, pair_back, row_back, settled_back};

use papaya_raw::Node;
use run_schedules::effect::{Effect, Thing};
use run_schedules::ended::Pair;
use run_shows::row::RowTold;
use seize::rows::Settled;

/// The number of the pair that an effect reclaims, if it reclaims one.
fn number_back(effect: Effect) -> Option<u64>
    ensures { result ≡ number_back effect }
{
    match effect {
        Effect::Reclaimed(Thing::APair(number)) => Some(number),
        Effect::Ended(number) => Some(number),
        _ => None,
    }
}

/// The number of the pair that the last of these effects reclaims.
fn number_last(effects: &[Effect]) -> Option<u64>
    ensures { result ≡ number_last effects.now }
{
    match effects.last() {
        Some(effect) => number_back(*effect),
        None => None,
    }
}

/// Keeps a pair that has a number. There is room for it.
fn keep_numbered<K: Drop, V: Drop>(
    key: K,
    value: V,
    number: Option<u64>,
    back: &mut Vec<Pair<K, V>>,
)
    requires { vec_len back.old < vec_capacity back.old }
    ensures { back.new.items ≡ back.old.items ++ numbered key value number }
{
    if let Some(number) = number {
        back.push_reserved(Pair { number, key, value });
    }
}

/// Keeps what was handed out, if it is a pair that the last of these effects reclaims. There is room for it.
fn keep<K: Drop, V: Drop>(value: Node<K, V>, effects: &[Effect], back: &mut Vec<Pair<K, V>>)
    requires { vec_len back.old < vec_capacity back.old }
    ensures { back.new.items ≡ back.old.items ++ pair_back value effects.now }
{
    match value {
        Node::Pair(key, value) => keep_numbered(key, value, number_last(effects), back),
        Node::Table { .. } | Node::Shards => {}
    }
}

/// Keeps what a step of a row has handed out, which did the last of these effects. There is room for it.
pub(crate) fn keep_row<K: Drop, V: Drop>(
    told: RowTold<Node<K, V>>,
    effects: &[Effect],
    back: &mut Vec<Pair<K, V>>,
)
    requires { vec_len back.old < vec_capacity back.old }
    ensures { back.new.items ≡ back.old.items ++ row_back told effects.now }
{
    match told {
        RowTold::Gave(value) => keep(value, effects, back),
        RowTold::Goes
        | RowTold::Waits
        | RowTold::Done
        | RowTold::Registered(_)
        | RowTold::Refused(_) => {}
    }
}

/// Keeps what a step of the end of a map has handed out, or one of reclaiming all, which did the last of these effects. There is room for it.
pub(crate) fn keep_settled<K: Drop, V: Drop>(
    told: Settled<Node<K, V>>,
    effects: &[Effect],
    back: &mut Vec<Pair<K, V>>,
)
    requires { vec_len back.old < vec_capacity back.old }
    ensures { back.new.items ≡ back.old.items ++ settled_back told effects.now }
{
    match told {
        Settled::Gave(value) => keep(value, effects, back),
        Settled::Goes | Settled::Waits | Settled::Done => {}
    }
}

//! What is known of a run when it has ended.
use crate::effect::Effect;
use crate::ended::Living;
use crate::outcome::Outcome;
use crate::pair_list::PairList;
use crate::shapes::Single;

/// A run of a schedule.
#[derive(Drop)]
pub struct Run<K, V> {
    /// What each event of the schedule came to.
    pub outcomes: Vec<Outcome<V>>,
    /// How many single steps of a call each event of the schedule made.
    pub steps: Vec<u64>,
    /// What each event of the schedule did.
    pub effects: Vec<Vec<Effect>>,
    /// The single events, in their order.
    pub trace: Vec<Single>,
    /// The maps that live at the end, in the order in which they were made.
    pub maps: Vec<Living>,
    /// The numbers of the pairs that left their map and were not reclaimed, ascending.
    pub waiting: Vec<u64>,
    /// How many retired tables were not reclaimed.
    pub tables: u64,
    /// How many pairs were stored.
    pub stored: u64,
    /// The pairs that were reclaimed, in that order.
    pub given_back: PairList<K, V>,
    /// The pairs that were not, in no order.
    pub kept: PairList<K, V>,
    /// How many blocks its memory held at the end: of pairs, of tables, of the shards of maps' counts.
    pub live: u64,
}

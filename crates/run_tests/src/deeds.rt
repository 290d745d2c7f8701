//! What events do, as rows of tables.
use run_schedules::effect::Growth::{ABlock, ABucket};
use run_schedules::effect::Thing::{APair, ATable};
use run_schedules::effect::{Effect, Spot, TableId};
use run_schedules::shapes::TableShape;

/// An effect. Tables are those of the first map, by their turns; a pair lies at a place of one.
#[derive(Clone, Copy)]
pub enum EffectRow {
    /// A block is asked for, or a bucket of words of slots.
    Block,
    Bucket,
    Pair,
    TableMade(u64),
    Linked(u64, u64, u64),
    Promoted(u64),
    Copied(u64, u64, u64),
    Stored(u64, u64, u64),
    Replaced(u64),
    Removed(u64),
    Counted,
    Deferred(u64, u64),
    Retired(u64),
    TableRetired(u64),
    Back(u64),
    TableBack(u64),
    GivenUp,
    Ended(u64),
    Taken(u64),
}

fn table(turn: u64) -> TableId {
    TableId { map: 0, turn }
}

impl EffectRow {
    /// What it does to a table, or asks for.
    fn on_tables(self) -> Effect {
        match self {
            EffectRow::TableMade(turn) => Effect::TableMade(table(turn)),
            EffectRow::Linked(turn, len, limit) => Effect::Linked {
                table: table(turn),
                shape: TableShape { len, limit },
            },
            EffectRow::Promoted(turn) => Effect::Promoted(table(turn)),
            EffectRow::TableRetired(turn) => Effect::Retired(ATable(table(turn))),
            EffectRow::TableBack(turn) => Effect::Reclaimed(ATable(table(turn))),
            EffectRow::Taken(turn) => Effect::Taken(table(turn)),
            EffectRow::Bucket => Effect::Asked(ABucket),
            _ => Effect::Asked(ABlock),
        }
    }

    /// Returns the effect.
    pub fn effect(self) -> Effect {
        match self {
            EffectRow::Pair => Effect::PairMade,
            EffectRow::GivenUp => Effect::PairGivenUp,
            EffectRow::Copied(pair, turn, place) => Effect::Copied {
                pair,
                into: Spot { turn, place },
            },
            EffectRow::Stored(pair, turn, place) => Effect::Stored {
                pair,
                at: Spot { turn, place },
            },
            EffectRow::Replaced(pair) => Effect::Replaced(pair),
            EffectRow::Removed(pair) => Effect::Removed(pair),
            EffectRow::Counted => Effect::Counted(0),
            EffectRow::Deferred(pair, turn) => Effect::Deferred {
                pair,
                behind: table(turn),
            },
            EffectRow::Retired(pair) => Effect::Retired(APair(pair)),
            EffectRow::Back(pair) => Effect::Reclaimed(APair(pair)),
            EffectRow::Ended(pair) => Effect::Ended(pair),
            other => other.on_tables(),
        }
    }
}

//! The counting of a map's pairs.
ghost use Rattle.std.specs.Prelude.{◌≡◌};
ghost use Rattle.map_machines.specs.Sum.{summing, adds};
ghost use Rattle.map_tables.specs.Given.SeizeWordsPlan.{May, Steps};

use map_tables::named::{At, Memory};
use map_tables::{Counter, Setting};
use seize::{Advance, StepMachine};

/// Where a counting stands.
#[derive(Clone, Copy)]
pub enum Summing {
    /// Adds the word of a shard to those of the shards before it.
    Adds {
        /// The shard.
        shard: u64,
        /// What the shards before it say, round at 2^64.
        total: u64,
    },
    /// It has ended, with this count.
    Over(u64),
}

/// Counts the pairs of a map: it reads each shard once, and answers what their sum says.
#[derive(Clone, Copy)]
pub struct Sum {
    /// What it works with.
    pub setting: Setting,
    /// Where it stands.
    pub stands: Summing,
}

impl Sum {
    /// Begins a counting.
    pub fn new(setting: Setting) -> Self
        ensures { result ≡ summing setting }
    {
        Sum {
            setting,
            stands: Summing::Adds { shard: 0, total: 0 },
        }
    }

    /// Reads a shard.
    fn adds<T, M: Memory<T>>(&mut self, memory: &mut M, shard: u64, total: u64) -> Advance<u64>
        requires { May M.can M.took M.shown memory.old (adds self.old shard total) }
        ensures { Steps M.took M.shown memory.old (adds self.old shard total) memory.new (self.new, result) }
    {
        let word = memory.load(At::Word(self.setting.counter, shard));
        let total = total.wrapping_add(word);
        if shard < self.setting.mask {
            self.stands = Summing::Adds {
                shard: shard + 1,
                total,
            };
            Advance::Goes
        } else {
            let count = Counter::read(total);
            self.stands = Summing::Over(count);
            Advance::Done(count)
        }
    }
}

impl<T> StepMachine<T> for Sum {
    ghost use Rattle.map_machines.specs.Sum.{sum_plan};

    type Progress = Advance<u64>;

    ghost plan = { sum_plan };

    fn step<M: Memory<T>>(&mut self, memory: &mut M) -> Advance<u64> {
        match self.stands {
            Summing::Adds { shard, total } => self.adds(memory, shard, total),
            Summing::Over(count) => Advance::Done(count),
        }
    }
}

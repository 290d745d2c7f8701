//! What a collector was made with.
ghost use Rattle.std.specs.Prelude.{◌≡◌, ◌≤◌, ◌^◌, ◌==◌};
ghost use Rattle.std.proofs.Common.{rules};
ghost use Rattle.std.specs.Cmp.Rules.{comparing};
ghost use Rattle.seize.specs.Ids.{given, following};
ghost use Rattle.seize.specs.Collector.{made_by, root_of};

use crate::ids::IdSource;
use seize_words::{At, Fault};
use std::marker::Model;

/// What a collector is known by and was made with, as a plain value. Collectors of one source are equal if they are the same.
#[derive(Debug, Drop)]
pub struct Collector {
    number: u64,
    batch_size: u64,
    processors: u64,
    roots: u64,
}

impl Model for Collector {
    ghost use Rattle.seize.specs.Collector.{Setting};

    ghost Value = { Setting };

    ghost view = { λ c. record { number = c.number; batch_size = c.batch_size; processors = c.processors; roots = c.roots } };
}

impl Collector {
    /// Makes a collector for 1 to 2^63 processors, with 1 to 65,536 root links. Its batches are first tried when they are as long as the greater of 32 and the
    /// processors. The only fault is `Fault::CollectorsUsedUp`, where the source has no number left.
    pub fn new(ids: &mut IdSource, processors: u64, roots: u64) -> Result<Self, Fault>
        requires some_processors { 1 ≤ processors }
        requires processors { processors ≤ 2 ^ 63 }
        requires some_roots { 1 ≤ roots }
        requires roots { roots ≤ 65536 }
        ensures made { result ≡ made_by (given ids.old) processors roots }
        ensures ids { ids.new ≡ following ids.old }
    {
        let number = ids.next()?;
        Ok(Collector {
            number,
            batch_size: processors.max(32),
            processors,
            roots,
        })
    }

    /// Returns the collector with another batch size, which is used as it is; 0 acts as 1.
    pub fn batch_size(self, size: u64) -> Self
        ensures { result ≡ record self { batch_size = size } }
    {
        Collector {
            batch_size: size,
            ..self
        }
    }

    /// Returns its number, which no other collector of its source has.
    pub fn number(&self) -> u64
        ensures { result ≡ self.now.number }
    {
        self.number
    }

    /// Returns how long a batch is when it is first tried.
    pub fn size_of_batches(&self) -> u64
        ensures { result ≡ self.now.batch_size }
    {
        self.batch_size
    }

    /// Returns the processors that it was made for.
    pub fn processors(&self) -> u64
        ensures { result ≡ self.now.processors }
    {
        self.processors
    }

    /// Returns how many root links it has.
    pub fn roots(&self) -> u64
        ensures { result ≡ self.now.roots }
    {
        self.roots
    }

    /// Returns the name of a root's word; `None` from the number of roots on.
    pub fn root(&self, root: u64) -> Option<At>
        ensures { result ≡ root_of self.now root }
    {
        if root < self.roots {
            Some(At::Root(root))
        } else {
            None
        }
    }
}

impl PartialEq for Collector {
    ghost eq = { λ a b. a.number == b.number };

    ghost laws = { Prim.search (comparing, rules) };

    fn eq(&self, other: &Collector) -> bool {
        self.number == other.number
    }
}

impl Eq for Collector {
    ghost laws = { Prim.search (comparing, rules) };
}

//! A memory that tells what its last operation has changed.
ghost use Rattle.std.specs.Prelude.{◌≡◌, false};
ghost use Rattle.run_effects.specs.declared.changed.Changed.TheVariants.{Nothing};

use crate::changed::{Changed, Kind};
use run_schedules::{At, Fault, Look, Memory, Node, Refuses};

/// A memory, and what its last operation has changed. It makes a store as a swap, which tells the word before. Where it is told to, it refuses each block.
#[derive(Drop)]
pub struct Teller<M> {
    /// The memory inside.
    pub memory: M,
    /// What the last operation has changed.
    pub changed: Changed,
    /// Whether each block that is asked for is refused.
    pub refuses: bool,
}

impl<M> Teller<M> {
    /// Makes a memory in which no operation was made yet, and that refuses no block.
    pub fn new(memory: M) -> Self
        ensures memory { result.memory ≡ memory }
        ensures changed { result.changed ≡ Nothing }
        ensures refuses { result.refuses ≡ false }
    {
        Teller {
            memory,
            changed: Changed::Nothing,
            refuses: false,
        }
    }

    /// Forgets what the last operation has changed, before a step that may make none.
    pub fn forget(&mut self)
        ensures { self.new ≡ record self.old { changed = Nothing } }
    {
        self.changed = Changed::Nothing;
    }
}

impl<K, V, M: Memory<Node<K, V>>> Look<Node<K, V>> for Teller<M> {
    ghost use Rattle.std.specs.Prelude.{◌≡◌};
    ghost use Rattle.run_effects.specs.ReportingMemory.Changed.{made_as, MadeSo, RefusesSo};

    ghost can = { λ t op. M.can t.memory (made_as op) };

    ghost took = { λ t op out n. MadeSo M.took t.memory op out n.memory n.changed × RefusesSo t.refuses n.changed n.refuses };

    ghost shown = { λ t. M.shown t.memory };

    fn load(&mut self, at: At) -> u64 {
        self.changed = Changed::Nothing;
        self.memory.load(at)
    }

    fn value(&self, block: u64) -> &Node<K, V> {
        self.memory.value(block)
    }
}

impl<K, V, M: Refuses<Node<K, V>>> Memory<Node<K, V>> for Teller<M> {
    fn store(&mut self, at: At, word: u64) {
        let old = self.memory.swap(at, word);
        self.changed = Changed::Wrote { at, old, new: word };
    }

    fn swap(&mut self, at: At, word: u64) -> u64 {
        let old = self.memory.swap(at, word);
        self.changed = Changed::Wrote { at, old, new: word };
        old
    }

    fn add(&mut self, at: At, by: u64) -> u64 {
        let old = self.memory.add(at, by);
        self.changed = Changed::Wrote {
            at,
            old,
            new: old.wrapping_add(by),
        };
        old
    }

    fn or(&mut self, at: At, bits: u64) -> u64 {
        let old = self.memory.or(at, bits);
        self.changed = Changed::Wrote {
            at,
            old,
            new: old | bits,
        };
        old
    }

    fn exchange(&mut self, at: At, old: u64, new: u64) -> Result<u64, u64> {
        let found = self.memory.exchange(at, old, new);
        self.changed = match found {
            Ok(old) => Changed::Wrote { at, old, new },
            Err(_) => Changed::Nothing,
        };
        found
    }

    fn make(&mut self, value: Node<K, V>, words: u64) -> Result<u64, Node<K, V>> {
        if self.refuses {
            return Err(self.refuse(value, words));
        }
        let kind = Kind::of(&value);
        let made = self.memory.make(value, words);
        self.changed = match &made {
            Ok(block) => Changed::Made {
                kind,
                block: *block,
            },
            Err(_) => Changed::Unmade { kind },
        };
        made
    }

    fn take(&mut self, block: u64) -> Node<K, V> {
        self.changed = Changed::Took { block };
        self.memory.take(block)
    }

    fn rewrite(&mut self, block: u64, value: Node<K, V>) -> Node<K, V> {
        self.changed = Changed::Nothing;
        self.memory.rewrite(block, value)
    }

    fn room(&mut self, bucket: u64) -> Result<(), Fault> {
        let roomed = self.memory.room(bucket);
        self.changed = Changed::Roomed {
            bucket,
            had: roomed.is_ok(),
        };
        roomed
    }
}

impl<K, V, M: Refuses<Node<K, V>>> Refuses<Node<K, V>> for Teller<M> {
    fn refuse(&mut self, value: Node<K, V>, words: u64) -> Node<K, V> {
        self.changed = Changed::Unmade {
            kind: Kind::of(&value),
        };
        self.memory.refuse(value, words)
    }
}

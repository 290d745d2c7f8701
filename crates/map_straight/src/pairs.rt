//! The pairs of a map that are still to come.
ghost use Rattle.std.specs.Prelude.{◌≡◌, ⊤};
ghost use Rattle.map_straight.specs.Shown.Chain.{CountsTables, counts_tables_prop};

use map_tables::{Node, Setting};
use seize_words::Plain;
use std::alloc::AllocError;

/// The table at a link, and all behind it. There is none where the link is 0.
#[derive(Drop)]
pub struct Tables<'a, K, V> {
    pub(crate) memory: &'a Plain<Node<K, V>>,
    pub(crate) link: u64,
    pub(crate) ghost count: { CountsTables memory.now link } by { counts_tables_prop memory.now link },
}

/// The pairs of a map that are still to come, table by table from its root on, place by place.
#[derive(Drop)]
pub struct Pairs<'a, K, V> {
    pub(crate) tables: Tables<'a, K, V>,
    pub(crate) setting: Setting,
    /// How many places the first of the tables has.
    pub(crate) len: u64,
    /// The place in it at which it goes on.
    pub(crate) place: u64,
}

impl<'a, K, V> Clone for Tables<'a, K, V> {
    ghost is_clone = { λ tables copy. copy ≡ tables };

    ghost is_infallible = { λ _. ⊤ };

    fn clone(&self) -> Result<Self, AllocError> {
        Ok(Tables {
            memory: self.memory,
            link: self.link,
        })
    }
}

/// Another walk over what is still to come. It takes no memory.
impl<'a, K, V> Clone for Pairs<'a, K, V> {
    ghost is_clone = { λ pairs copy. copy ≡ pairs };

    ghost is_infallible = { λ _. ⊤ };

    fn clone(&self) -> Result<Self, AllocError> {
        Ok(Pairs {
            tables: self.tables.clone()?,
            setting: self.setting,
            len: self.len,
            place: self.place,
        })
    }
}

//! The memory that maps share.
ghost use Rattle.std.specs.Prelude.{◌≡◌, ◌≤◌, ◌^◌, IfOk};

use map_tables::Node;
use seize_blocks::Home;
use seize_views::Fixed;
use std::alloc::{AllocError, Global};
use std::hash::{BuildHasher, Hash};
use threads_steps::OfMaps;

/// Makes a memory for maps of such keys, values and hashers: with so many roots, one for each map that is there at a time, and numbers for so many blocks at
/// first.
pub fn memory_for<K: Eq + Hash + Drop, V: Drop, S: BuildHasher>(
    alloc: Global,
    count: u64,
    chosen: &Fixed,
) -> Result<Home<Node<K, V>, OfMaps<S>>, AllocError>
    requires few { (chosen.now.roots ≤ 65536) × (count ≤ 2 ^ 32) }
    ensures { IfOk result (λ home. home.blocks.words.fixed ≡ chosen.now) }
{
    Home::open(alloc, chosen.roots, count, chosen)
}

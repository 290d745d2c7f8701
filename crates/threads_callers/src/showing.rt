//! A seat that knows a map hands it on to one more, which learns it.
ghost use Rattle.std.specs.Prelude.{◌≡◌, IsSome, None, true};
ghost use Rattle.threads_callers.specs.Standing.{come_to, known_by};
ghost use Rattle.seize_callers.specs.Kept.{is_home};

use map_tables::{Hashes, Node};
use seize_blocks::{Blocks, Lesson, Seat};
use seize_views::Fixed;
use threads_errands::{OfMaps, View};

/// A map is handed on.
pub struct Showing;

impl<K, V, S> Lesson<Fixed, View<K, V, S>> for Showing {
    ghost use Rattle.threads_callers.specs.Standing.{LearnsMap};

    ghost to = { λ _ v _. LearnsMap v };
}

/// Makes one seat more of this memory, which holds no slot, and to which the map is handed on that the other one knows.
pub fn newcomer<K: Eq, V, S: Hashes<K>>(
    blocks: &Blocks<Node<K, V>, OfMaps<S>>,
    seat: &Seat<Node<K, V>, OfMaps<S>>,
) -> Seat<Node<K, V>, OfMaps<S>>
    requires own { seat.now.base ≡ blocks.now.words.id.views_name }
    requires knows { IsSome (known_by seat.now.view) }
    requires good { seat.now.view.by ≡ None }
    ensures own { result.base ≡ blocks.now.words.id.views_name }
    ensures home { is_home result.away ≡ true }
    ensures shown { result.view ≡ come_to seat.now.view.map }
{
    let mut other = blocks.seat();
    blocks.learn::<Showing>(&mut other, seat);
    other
}

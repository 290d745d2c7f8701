//! Everything that waits in a memory of maps is reclaimed.
ghost use Rattle.std.specs.Prelude.{◌≡◌, ◌<◌, ◌^◌, None};
ghost use Rattle.seize_seats.specs.Seats.Owned.{IsLike};
ghost use Rattle.seize_views.specs.declared.view.SlotView.TheVariants.{Rests};
ghost use Rattle.threads_reclaims.specs.Reclaims.Rule.{freed};
ghost use Rattle.threads_reclaims.specs.Reclaims.Promises.{IsReclaimed};

use crate::bequests::{Begins, Returns};
use crate::law::one_reclaims_maps;
use crate::rule::OneOfMaps;
use map_tables::{Hashes, Node};
use seize_blocks::{Home, Seat};
use seize_reclaims::acts;
use seize_views::Fixed;
use threads_rule::OfMaps;

/// Reclaims everything that waits: nobody else has the memory meanwhile. A slot that somebody has forgotten leaves, each batch is flushed, and then every slot is
/// free. Values that are reclaimed are dropped. What was chosen is what was chosen as the memory was opened. It answers the memory, which begins another
/// lifetime, in which nothing waits, and the seat, which knows the map that it knew, and its own one.
pub fn reclaim_all<K: Eq + Drop, V: Drop, S: Hashes<K>>(
    home: Home<Node<K, V>, OfMaps<S>>,
    seat: Seat<Node<K, V>, OfMaps<S>>,
    fixed: &Fixed,
) -> (Home<Node<K, V>, OfMaps<S>>, Seat<Node<K, V>, OfMaps<S>>)
    requires fixed { home.blocks.words.fixed ≡ fixed.now }
    requires own { seat.base ≡ home.blocks.words.id.views_name }
    requires rests { seat.view.slot ≡ Rests }
    ensures fixed { result.0.blocks.words.fixed ≡ fixed.now }
    ensures same { (result.0.blocks.words.words ≡ home.blocks.words.words) × IsLike result.0.blocks.words.id home.blocks.words.id }
    ensures own { (result.1.base ≡ result.0.blocks.words.id.views_name) × (result.1.away ≡ None) }
    ensures knows { result.1.view ≡ freed seat.view }
    ensures empty { IsReclaimed K.eq S.hash fixed.now result.0.blocks.words.start }
{
    one_reclaims_maps::<K, V, S>();
    let (home, seat) = home.inherits::<OneOfMaps<S>, Begins<K, V, S>>(seat, fixed);
    let seat = acts(&home.blocks, seat, fixed.batch_size, fixed.roots);
    home.inherits::<OfMaps<S>, Returns<K, V, S>>(seat, fixed)
}

//! Everything that waits in a memory is reclaimed.
ghost use Rattle.std.specs.Prelude.{◌≡◌, ◌<◌, ◌^◌};
ghost use Rattle.seize.specs.declared.rows.reclaim_all.Reclaiming.TheVariants.{Over};
ghost use Rattle.seize.specs.declared.rows.reclaim_all.ReclaimAll.{ReclaimAll};
ghost use Rattle.seize.specs.declared.rows.register.Registering.TheVariants.{Begin};
ghost use Rattle.seize.specs.ReclaimAll.{reclaiming_all};
ghost use Rattle.seize_seats.specs.Seats.Owned.{IsLike};
ghost use Rattle.seize_reclaims.specs.Renews.Emptied.{IsEmptied};
ghost use Rattle.seize_reclaims.specs.Empties.Emptying.{IsUnderWay, IsSeeking};

use crate::one::One;
use crate::sole::Sole;
use crate::{OfOne, one_acts_alone};
use core::mem::replace_with;
use seize::rows::{Defers, ReclaimAll};
use seize_blocks::{Blocks, Home, Seat};
use seize_views::{Fixed, OfRows};

/// Reclaims all that waits, with as many roots, by a seat that has the memory to itself. It answers the seat.
pub fn acts<T: Defers + Drop, R: One<T>>(
    blocks: &Blocks<T, R>,
    seat: Seat<T, R>,
    batch_size: u64,
    roots: u64,
) -> Seat<T, R>
    requires own { seat.base ≡ blocks.now.words.id.views_name }
    requires sized { blocks.now.words.fixed.batch_size ≡ batch_size }
    requires begins { IsSeeking (reclaiming_all batch_size roots) 0 Begin (R.acts seat.view) (R.all seat.view) }
    ensures own { (result.base ≡ blocks.now.words.id.views_name) × (R.beside result.view ≡ R.beside seat.view) }
    ensures sized { batch_size < 2 ^ 64 }
    ensures over { (c : ReclaimAll) × (c.stands ≡ Over) × IsUnderWay c (R.acts result.view) }
{
    let mut row = ReclaimAll::reclaim_all(batch_size, roots);
    let mut sole = Sole {
        blocks,
        seat,
        near: 0,
    };
    sole.reclaims(&mut row);
    let Sole {
        blocks: _,
        seat,
        near: _,
    } = sole;
    seat
}

/// The same of the whole memory, which goes under a rule of its own for that, and back.
fn emptied<T: Defers + Drop>(home: Home<T, OfRows>, fixed: &Fixed) -> (Home<T, OfRows>, ())
    requires { home.blocks.words.fixed ≡ fixed.now }
    ensures fixed { result.0.blocks.words.fixed ≡ fixed.now }
    ensures same { (result.0.blocks.words.words ≡ home.blocks.words.words) × IsLike result.0.blocks.words.id home.blocks.words.id }
    ensures empty { IsEmptied T.defers fixed.now result.0.blocks.words.start }
{
    one_acts_alone::<T>();
    let (home, seat) = home.alone::<OfOne>(fixed);
    let seat = acts(&home.blocks, seat, fixed.batch_size, 0);
    (home.used::<OfRows>(seat, fixed), ())
}

/// Reclaims everything that waits: nobody else has the memory meanwhile. A slot that somebody has forgotten leaves, each batch is flushed, and then every slot is free.
/// Values that are reclaimed are dropped. What stands at roots stays there. What is chosen is what was chosen as the memory was opened. The same memory begins
/// another lifetime: until it is lent again nothing waits in it.
pub fn reclaim_all<T: Defers + Drop>(home: &mut Home<T, OfRows>, fixed: &Fixed)
    requires { home.old.blocks.words.fixed ≡ fixed.now }
    ensures fixed { home.new.blocks.words.fixed ≡ fixed.now }
    ensures same { (home.new.blocks.words.words ≡ home.old.blocks.words.words) × IsLike home.new.blocks.words.id home.old.blocks.words.id }
    ensures empty { IsEmptied T.defers fixed.now home.new.blocks.words.start }
{
    replace_with(home, fixed, emptied::<T>)
}

//! A call that reclaims values runs to its end, and each of them is ended.
ghost use Rattle.std.specs.Prelude.{◌≡◌, ◌++◌, ℕ, List};
ghost use Rattle.seize.specs.Given.SeizeWordsMem.{Mem};
ghost use Rattle.seize.specs.World.{Request};
ghost use Rattle.seize_model.specs.Alone.Alone.{History, IsMidway, IsEnded, row_of};

use crate::calls::WholeCall;
use seize::Plain;
use seize::reclaim::{Reclaimed, Reclaimer};

/// Lets a call run to its end, and ends each value that it reclaims, in order, before the next one is reclaimed.
pub fn finish<T: Reclaimed>(mut call: WholeCall, memory: &mut Plain<T>, reclaimer: T::Reclaimer)
    requires { (batch_size : ℕ) × (roots : ℕ) × (m : Mem T) × (h : History) × (request : Request) × (given : List T) × IsMidway T.defers batch_size roots m h request (row_of call) memory.old given }
    ensures { (batch_size roots : ℕ) (m : Mem T) (h : History) (request : Request) (given : List T) → IsMidway T.defers batch_size roots m h request (row_of call) memory.old given → (rest : List T) × IsEnded T.defers batch_size roots m h request (given ++ rest) memory.new }
{
    while let Some(value) = call.next(memory) {
        reclaimer.reclaim(value);
    }
}

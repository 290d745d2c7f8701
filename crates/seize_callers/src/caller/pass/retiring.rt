//! How a pass retires a block: it takes a slot for that, and gives it up again.
ghost use Rattle.std.specs.Prelude.{◌≡◌, ◌<◌, ◌^◌, true, Some, IfOk, IfErr};
ghost use Rattle.seize_callers.specs.Kept.{is_home};
ghost use Rattle.seize_callers.specs.Owning.{borne_by};
ghost use Rattle.seize_views.specs.declared.view.Began.TheVariants.{Retirement};
ghost use Rattle.seize_views.specs.declared.view.SlotView.TheVariants.{Rests, Outside, Owes};

use crate::caller::Caller;
use crate::caller::pass::PassSeat;
use crate::errands::{Frees, Registers, RetiresIdle};
use seize::rows::Defers;
use seize_blocks::{Blocks, Seat};
use seize_views::OfRows;
use seize_words::Fault;

/// Takes the first slot that can be taken, by a seat that rests.
fn occupies<T: Defers>(
    blocks: &Blocks<T, OfRows>,
    batch_size: u64,
    seat: &mut Seat<T, OfRows>,
) -> Result<u64, Fault>
    requires own { seat.old.base ≡ blocks.now.words.id.views_name }
    requires home { is_home seat.old.away ≡ true }
    requires sized { blocks.now.words.fixed.batch_size ≡ batch_size }
    requires rests { seat.old.view.knows ≡ Rests }
    ensures taken { IfOk result (λ slot. seat.new.view.knows ≡ Outside slot) }
    ensures refused { IfErr result (λ fault. seat.new.view.knows ≡ Rests) }
    ensures base { seat.new.base ≡ seat.old.base }
    ensures home { is_home seat.new.away ≡ true }
{
    blocks.errand(seat, Registers { batch_size })
}

/// Retires a block by the seat of a slot of which no section is open.
fn retires_at<T: Defers + Drop>(
    blocks: &Blocks<T, OfRows>,
    batch_size: u64,
    seat: &mut Seat<T, OfRows>,
    slot: u64,
    block: u64,
)
    requires own { seat.old.base ≡ blocks.now.words.id.views_name }
    requires home { is_home seat.old.away ≡ true }
    requires sized { blocks.now.words.fixed.batch_size ≡ batch_size }
    requires owes { seat.old.view.knows ≡ Owes slot block }
    requires fits { block < 2 ^ 53 }
    ensures outside { seat.new.view.knows ≡ Outside slot }
    ensures began { seat.new.view.began ≡ Retirement }
    ensures base { seat.new.base ≡ seat.old.base }
    ensures home { is_home seat.new.away ≡ true }
{
    blocks.errand(
        seat,
        RetiresIdle {
            slot,
            block,
            batch_size,
        },
    );
}

/// Gives the slot of a seat up.
fn gives_up<T: Defers>(
    blocks: &Blocks<T, OfRows>,
    batch_size: u64,
    seat: &mut Seat<T, OfRows>,
    slot: u64,
)
    requires own { seat.old.base ≡ blocks.now.words.id.views_name }
    requires home { is_home seat.old.away ≡ true }
    requires sized { blocks.now.words.fixed.batch_size ≡ batch_size }
    requires outside { seat.old.view.knows ≡ Outside slot }
    ensures rests { seat.new.view.knows ≡ Rests }
    ensures began { seat.new.view.began ≡ seat.old.view.began }
    ensures base { seat.new.base ≡ seat.old.base }
    ensures home { is_home seat.new.away ≡ true }
{
    blocks.errand(seat, Frees { slot, batch_size });
}

impl<T: Defers + Drop> PassSeat<T> {
    /// Retires a block that a caller of the same memory has unlinked, who has no slot: to the batch of the first slot that can be taken, which is given up then.
    /// Where none can be taken the caller has the block still. A value that is reclaimed is dropped.
    pub fn retires<'b>(&mut self, bearer: &mut Caller<'b, T>, block: u64) -> Result<(), Fault>
        requires own { bearer.old.blocks.now.words.id.views_name ≡ self.old.seat.base }
        requires bears { borne_by bearer.old.seat.view.knows ≡ Some block }
        requires fits { block < 2 ^ 53 }
        ensures same { self.new.seat.base ≡ self.old.seat.base }
        ensures began { IfOk result (λ _. self.new.seat.view.began ≡ Retirement) }
        ensures rests { IfOk result (λ _. bearer.new.seat.view.knows ≡ Rests) }
        ensures refused { IfErr result (λ fault. bearer.new ≡ bearer.old) }
        ensures blocks { bearer.new.blocks ≡ bearer.old.blocks }
    {
        let blocks = bearer.blocks;
        let batch_size = bearer.batch_size;
        let slot = occupies(blocks, batch_size, &mut self.seat)?;
        bearer.hands_on(block, slot, &mut self.seat);
        retires_at(blocks, batch_size, &mut self.seat, slot, block);
        gives_up(blocks, batch_size, &mut self.seat, slot);
        Ok(())
    }
}

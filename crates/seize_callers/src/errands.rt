//! What a seat is sent for: each row, from its beginning to its end. A value that is reclaimed is dropped.
ghost use Rattle.std.specs.Prelude.{◌≡◌, ◌<◌, ◌^◌, IfOk, IfErr};
ghost use Rattle.seize_callers.specs.Done.{IsDone, IsLookingWithin};
ghost use Rattle.seize_views.specs.declared.view.Began.TheVariants.{Retirement, Section, Trial};
ghost use Rattle.seize_views.specs.declared.view.Has.TheVariants.{Nothing, Cut};
ghost use Rattle.seize_views.specs.declared.view.SlotView.TheVariants.{Rests, Outside, Owes, Inside};

use crate::within::Within;
use seize::rows::Defers;
use seize_blocks::{Blocks, Errand, Seat};
use seize_views::Content;
use seize_words::Fault;

/// Takes the first slot that can be taken.
#[derive(Drop)]
pub struct Registers {
    /// The size of batches, as it was chosen as the memory was opened.
    pub batch_size: u64,
}

impl<T: Defers, C: Content<T>> Errand<T, C> for Registers {
    type Answer = Result<u64, Fault>;

    ghost asks = { λ s fixed v. (fixed.batch_size ≡ s.batch_size) × ((C.notes v).knows ≡ Rests) };

    ghost did = { λ s fixed v answer w. IsDone C.notes C.beside v w
        (λ n. IfOk answer (λ slot. (n.knows ≡ Outside slot) × (slot < 65536)) × IfErr answer (λ fault. n.knows ≡ Rests)) };

    fn run(self, blocks: &Blocks<T, C>, seat: &mut Seat<T, C>) -> Result<u64, Fault> {
        let mut within = Within::new(blocks, self.batch_size, seat);
        within.register()
    }
}

/// Opens a section of this slot.
#[derive(Drop)]
pub struct Enters {
    /// The slot.
    pub slot: u64,
    /// The size of batches, as it was chosen as the memory was opened.
    pub batch_size: u64,
}

impl<T: Defers, C: Content<T>> Errand<T, C> for Enters {
    type Answer = ();

    ghost asks = { λ s fixed v. (fixed.batch_size ≡ s.batch_size) × ((C.notes v).knows ≡ Outside s.slot) };

    ghost did = { λ s fixed v answer w. IsDone C.notes C.beside v w (λ n. (n.knows ≡ Inside s.slot Nothing) × (n.began ≡ Section)) };

    fn run(self, blocks: &Blocks<T, C>, seat: &mut Seat<T, C>) {
        let mut within = Within::new(blocks, self.batch_size, seat);
        within.enter(self.slot);
    }
}

/// Gives this slot up.
#[derive(Drop)]
pub struct Frees {
    /// The slot.
    pub slot: u64,
    /// The size of batches, as it was chosen as the memory was opened.
    pub batch_size: u64,
}

impl<T: Defers, C: Content<T>> Errand<T, C> for Frees {
    type Answer = ();

    ghost asks = { λ s fixed v. (fixed.batch_size ≡ s.batch_size) × ((C.notes v).knows ≡ Outside s.slot) };

    ghost did = { λ s fixed v answer w. IsDone C.notes C.beside v w
        (λ n. (n.knows ≡ Rests) × (n.began ≡ (C.notes v).began) × (n.did ≡ (C.notes v).did)) };

    fn run(self, blocks: &Blocks<T, C>, seat: &mut Seat<T, C>) {
        let mut within = Within::new(blocks, self.batch_size, seat);
        within.unregister(self.slot);
    }
}

/// Ends the section of this slot.
#[derive(Drop)]
pub struct Leaves {
    /// The slot.
    pub slot: u64,
    /// The size of batches, as it was chosen as the memory was opened.
    pub batch_size: u64,
}

impl<T: Defers + Drop, C: Content<T>> Errand<T, C> for Leaves {
    type Answer = ();

    ghost asks = { λ s fixed v. (fixed.batch_size ≡ s.batch_size) × IsLookingWithin s.slot (C.notes v).knows × ((C.notes v).guards ≡ 0) };

    ghost did = { λ s fixed v answer w. IsDone C.notes C.beside v w (λ n. (n.knows ≡ Outside s.slot)) };

    fn run(self, blocks: &Blocks<T, C>, seat: &mut Seat<T, C>) {
        let mut within = Within::new(blocks, self.batch_size, seat);
        within.leave(self.slot);
    }
}

/// Ends the section of this slot and begins the next one.
#[derive(Drop)]
pub struct Refreshes {
    /// The slot.
    pub slot: u64,
    /// The size of batches, as it was chosen as the memory was opened.
    pub batch_size: u64,
}

impl<T: Defers + Drop, C: Content<T>> Errand<T, C> for Refreshes {
    type Answer = ();

    ghost asks = { λ s fixed v. (fixed.batch_size ≡ s.batch_size) × IsLookingWithin s.slot (C.notes v).knows × ((C.notes v).guards ≡ 0) };

    ghost did = { λ s fixed v answer w. IsDone C.notes C.beside v w (λ n. (n.knows ≡ Inside s.slot Nothing) × (n.began ≡ Section)) };

    fn run(self, blocks: &Blocks<T, C>, seat: &mut Seat<T, C>) {
        let mut within = Within::new(blocks, self.batch_size, seat);
        within.refresh(self.slot);
    }
}

/// Tries the batch of this slot, whose section is open.
#[derive(Drop)]
pub struct Flushes {
    /// The slot.
    pub slot: u64,
    /// The size of batches, as it was chosen as the memory was opened.
    pub batch_size: u64,
}

impl<T: Defers + Drop, C: Content<T>> Errand<T, C> for Flushes {
    type Answer = ();

    ghost asks = { λ s fixed v. (fixed.batch_size ≡ s.batch_size) × IsLookingWithin s.slot (C.notes v).knows };

    ghost did = { λ s fixed v answer w. IsDone C.notes C.beside v w (λ n. (n.knows ≡ Inside s.slot Nothing) × (n.began ≡ Trial)) };

    fn run(self, blocks: &Blocks<T, C>, seat: &mut Seat<T, C>) {
        let mut within = Within::new(blocks, self.batch_size, seat);
        within.flush(self.slot);
    }
}

/// Tries the batch of this slot, of which no section is open.
#[derive(Drop)]
pub struct FlushesIdle {
    /// The slot.
    pub slot: u64,
    /// The size of batches, as it was chosen as the memory was opened.
    pub batch_size: u64,
}

impl<T: Defers + Drop, C: Content<T>> Errand<T, C> for FlushesIdle {
    type Answer = ();

    ghost asks = { λ s fixed v. (fixed.batch_size ≡ s.batch_size) × ((C.notes v).knows ≡ Outside s.slot) };

    ghost did = { λ s fixed v answer w. IsDone C.notes C.beside v w (λ n. (n.knows ≡ Outside s.slot) × (n.began ≡ Trial)) };

    fn run(self, blocks: &Blocks<T, C>, seat: &mut Seat<T, C>) {
        let mut within = Within::new(blocks, self.batch_size, seat);
        within.flush_idle(self.slot);
    }
}

/// Retires this block, which was unlinked within the section of this slot.
#[derive(Drop)]
pub struct Retires {
    /// The slot.
    pub slot: u64,
    /// The block.
    pub block: u64,
    /// The size of batches, as it was chosen as the memory was opened.
    pub batch_size: u64,
}

impl<T: Defers + Drop, C: Content<T>> Errand<T, C> for Retires {
    type Answer = ();

    ghost asks = { λ s fixed v. (fixed.batch_size ≡ s.batch_size) × ((C.notes v).knows ≡ Inside s.slot (Cut s.block)) × (s.block < 2 ^ 53) };

    ghost did = { λ s fixed v answer w. IsDone C.notes C.beside v w
        (λ n. (n.knows ≡ Inside s.slot Nothing) × (n.began ≡ Retirement) × (n.did ≡ (C.notes v).did)) };

    fn run(self, blocks: &Blocks<T, C>, seat: &mut Seat<T, C>) {
        let mut within = Within::new(blocks, self.batch_size, seat);
        within.retire(self.slot, self.block);
    }
}

/// Retires this block, which was unlinked, while no section of this slot is open.
#[derive(Drop)]
pub struct RetiresIdle {
    /// The slot.
    pub slot: u64,
    /// The block.
    pub block: u64,
    /// The size of batches, as it was chosen as the memory was opened.
    pub batch_size: u64,
}

impl<T: Defers + Drop, C: Content<T>> Errand<T, C> for RetiresIdle {
    type Answer = ();

    ghost asks = { λ s fixed v. (fixed.batch_size ≡ s.batch_size) × ((C.notes v).knows ≡ Owes s.slot s.block) × (s.block < 2 ^ 53) };

    ghost did = { λ s fixed v answer w. IsDone C.notes C.beside v w (λ n. (n.knows ≡ Outside s.slot) × (n.began ≡ Retirement) × (n.did ≡ (C.notes v).did)) };

    fn run(self, blocks: &Blocks<T, C>, seat: &mut Seat<T, C>) {
        let mut within = Within::new(blocks, self.batch_size, seat);
        within.retire_idle(self.slot, self.block);
    }
}

//! One of those who share the memory.
ghost use Rattle.std.specs.Prelude.{◌≡◌, ◌≢◌, ◌<◌, ◌^◌, true, IfOk, IfErr, IfSome, IfNone, unwrap_or};
ghost use Rattle.seize_words.specs.OneMemory.Word.{block_in};
ghost use Rattle.seize.specs.World.{HasListWord};
ghost use Rattle.seize_callers.specs.Kept.{is_home};
ghost use Rattle.seize_views.specs.Views.Promises.{IsLooking};
ghost use Rattle.seize_views.specs.declared.view.Began.TheVariants.{Section};
ghost use Rattle.seize_views.specs.declared.view.SlotView.TheVariants.{Rests, Outside, Inside};
ghost use Rattle.seize_views.specs.declared.view.Has.{Has};
ghost use Rattle.seize_views.specs.declared.view.Has.TheVariants.{Nothing};

mod alone;
mod pass;
mod roots;
mod settling;
mod watch;

use crate::errands::{Enters, Frees, Registers};
pub use alone::marked;
pub use pass::PassSeat;
use seize::rows::Defers;
use seize_blocks::{Blocks, Errand, Seat};
use seize_views::turns::Forgetting;
use seize_views::{Content, OfRows};
use seize_words::{Fault, Link};
pub use watch::watcher;

/// One of those who share a memory of any content: a seat of it, with the memory. It may be let go where it holds no slot.
pub struct Caller<'a, T: Defers, C: Content<T> = OfRows> {
    blocks: &'a Blocks<T, C>,
    batch_size: u64,
    /// Its seat.
    pub seat: Seat<T, C>,
    near: u64,
    ghost own: { seat.base ≡ blocks.now.words.id.views_name },
    ghost sized: { blocks.now.words.fixed.batch_size ≡ batch_size },
    ghost home: { is_home seat.away ≡ true },
}

impl<'a, T: Defers, C: Content<T>> Caller<'a, T, C> {
    /// Makes one more of them, who holds no slot. The size of batches is the one that was chosen as the memory was opened.
    pub fn new(blocks: &'a Blocks<T, C>, batch_size: u64) -> Self
        requires { blocks.now.words.fixed.batch_size ≡ batch_size }
        ensures rests { (C.notes result.seat.view).knows ≡ Rests }
        ensures guards { (C.notes result.seat.view).guards ≡ 0 }
        ensures blocks { result.blocks.now ≡ blocks.now }
        ensures view { result.seat.view ≡ C.newcomer blocks.now.words.fixed }
    {
        C::goes_on();
        let seat = blocks.seat();
        Caller {
            blocks,
            batch_size,
            seat,
            near: 0,
        }
    }

    /// Returns the memory.
    pub fn blocks(&self) -> &'a Blocks<T, C>
        ensures { result.now ≡ self.now.blocks.now }
    {
        self.blocks
    }

    /// Returns the size of batches.
    pub fn batch_size(&self) -> u64
        ensures { result ≡ self.now.blocks.now.words.fixed.batch_size }
    {
        self.batch_size
    }

    /// Sends its seat on an errand.
    fn sends<E: Errand<T, C>>(&mut self, errand: E) -> E::Answer
        requires asks { E.asks errand self.old.blocks.now.words.fixed self.old.seat.view }
        requires ends { (answer : E.Answer) (w : C.View) → E.did errand self.old.blocks.now.words.fixed self.old.seat.view answer w → C.rests w }
        ensures did { E.did errand self.old.blocks.now.words.fixed self.old.seat.view result self.new.seat.view }
        ensures blocks { self.new.blocks ≡ self.old.blocks }
    {
        self.blocks.errand(&mut self.seat, errand)
    }

    /// Takes the first slot that can be taken.
    pub fn register(&mut self) -> Result<u64, Fault>
        requires rests { (C.notes self.old.seat.view).knows ≡ Rests }
        ensures taken { IfOk result (λ slot. (C.notes self.new.seat.view).knows ≡ Outside slot) }
        ensures few { IfOk result (λ slot. slot < 65536) }
        ensures refused { IfErr result (λ fault. (C.notes self.new.seat.view).knows ≡ Rests) }
        ensures blocks { self.new.blocks ≡ self.old.blocks }
        ensures beside { C.beside self.new.seat.view ≡ C.beside self.old.seat.view }
        ensures guards { (C.notes self.new.seat.view).guards ≡ (C.notes self.old.seat.view).guards }
    {
        C::goes_on();
        let slot = self.sends(Registers {
            batch_size: self.batch_size,
        })?;
        self.near = self.blocks.beginning(slot);
        Ok(slot)
    }

    /// Opens a section of its slot.
    pub fn enter(&mut self, slot: u64)
        requires outside { (C.notes self.old.seat.view).knows ≡ Outside slot }
        ensures inside { (C.notes self.new.seat.view).knows ≡ Inside slot Nothing }
        ensures began { (C.notes self.new.seat.view).began ≡ Section }
        ensures blocks { self.new.blocks ≡ self.old.blocks }
        ensures beside { C.beside self.new.seat.view ≡ C.beside self.old.seat.view }
        ensures guards { (C.notes self.new.seat.view).guards ≡ (C.notes self.old.seat.view).guards }
    {
        C::goes_on();
        self.sends(Enters {
            slot,
            batch_size: self.batch_size,
        });
    }

    /// Gives its slot up.
    pub fn unregister(&mut self, slot: u64)
        requires outside { (C.notes self.old.seat.view).knows ≡ Outside slot }
        ensures rests { (C.notes self.new.seat.view).knows ≡ Rests }
        ensures blocks { self.new.blocks ≡ self.old.blocks }
        ensures beside { C.beside self.new.seat.view ≡ C.beside self.old.seat.view }
        ensures guards { (C.notes self.new.seat.view).guards ≡ (C.notes self.old.seat.view).guards }
    {
        C::goes_on();
        self.sends(Frees {
            slot,
            batch_size: self.batch_size,
        });
    }

    /// Lets go of what it has seen.
    pub fn forgets(&mut self, _slot: u64)
        requires inside { (has : Has T) × IsLooking has × ((C.notes self.old.seat.view).knows ≡ Inside _slot has) }
        ensures inside { (C.notes self.new.seat.view).knows ≡ Inside _slot Nothing }
        ensures blocks { self.new.blocks ≡ self.old.blocks }
        ensures beside { C.beside self.new.seat.view ≡ C.beside self.old.seat.view }
        ensures guards { (C.notes self.new.seat.view).guards ≡ (C.notes self.old.seat.view).guards }
    {
        C::goes_on();
        self.blocks.part::<Forgetting<T, C>>(&mut self.seat);
    }
}

impl<'a, T: Defers, C: Content<T>> Caller<'a, T, C> {
    /// Lets a slot be as it is whose section is watched still.
    pub fn stays(self, _slot: u64)
        requires watched { (C.notes self.seat.view).guards ≢ 0 }
    {
        let Caller {
            blocks: _,
            batch_size: _,
            seat: _,
            near: _,
        } = self;
    }
}

impl<'a, T: Defers, C: Content<T>> Drop for Caller<'a, T, C> {
    fn drop(self)
        requires rests { (C.notes self.seat.view).knows ≡ Rests }
    {
        let Caller {
            blocks: _,
            batch_size: _,
            seat: _,
            near: _,
        } = self;
    }
}

/// How many words a block of this value has, if they can be counted.
pub(crate) fn words_for<T: Defers>(value: &T) -> Option<u64>
    ensures words { IfSome result (λ words. HasListWord T.defers (T.defers value.now) words) }
{
    match value.deferred() {
        Some(field) => field.checked_add(1),
        None => Some(0),
    }
}

/// Returns the block that a word of a root names.
pub fn named(word: u64) -> Option<u64>
    ensures some { IfSome result (λ block. (block ≡ block_in word) × (block < 2 ^ 53) × (block ≢ 0)) }
    ensures none { IfNone result (block_in word ≡ 0) }
    ensures either { unwrap_or result 0 ≡ block_in word }
{
    let block = Link::block_of(word);
    if block == 0 { None } else { Some(block) }
}

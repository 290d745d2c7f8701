//! A seat that takes steps under another one, which is lent for them, and takes none meanwhile.
ghost use Rattle.std.specs.Prelude.{◌≡◌, ◌<◌, ◌^◌, ℕ, true, Some, IfSome, IfNone};
ghost use Rattle.seize_words.specs.OneMemory.Word.{block_in};
ghost use Rattle.seize_seats.specs.Seats.Lendings.{IsValueOf};
ghost use Rattle.seize_callers.specs.Found.{found_at};
ghost use Rattle.seize_callers.specs.Kept.{is_home};
ghost use Rattle.seize_views.specs.Views.Notes.{NotedHolds};
ghost use Rattle.seize_views.specs.Views.Watched.{open_at};
ghost use Rattle.seize_views.specs.declared.view.Deed.TheVariants.{Looked, Marked};
ghost use Rattle.seize_views.specs.declared.view.SlotView.TheVariants.{Rests, Under};

mod retiring;

use crate::caller::{Caller, named};
use seize::rows::Defers;
use seize_blocks::{Blocks, ErrandWith, Seat};
use seize_views::OfRows;
use seize_views::turns::{Leaning, Returning};
use seize_words::At;

/// A seat that takes steps under a caller whose section is open, and is lent for that: any number of passes may do so at a time. Between two calls it rests.
pub struct PassSeat<T: Defers> {
    seat: Seat<T, OfRows>,
    ghost rests: { seat.view.knows ≡ Rests },
    ghost home: { is_home seat.away ≡ true },
}

impl<T: Defers> PassSeat<T> {
    /// Makes one more of this memory.
    pub fn new(blocks: &Blocks<T, OfRows>) -> Self
        ensures { result.seat.base ≡ blocks.now.words.id.views_name }
    {
        let seat = blocks.seat();
        PassSeat { seat }
    }
}

impl<T: Defers> Drop for PassSeat<T> {
    fn drop(self) {
        let PassSeat { seat: _ } = self;
    }
}

/// The value of the block to which a word links that a seat has found while it leans on the guard's, if it links to one.
fn lent<'g, T: Defers>(
    blocks: &'g Blocks<T, OfRows>,
    seat: &Seat<T, OfRows>,
    guard: &'g Seat<T, OfRows>,
    word: u64,
) -> Option<&'g T>
    requires own { (seat.now.base ≡ blocks.now.words.id.views_name) × (guard.now.base ≡ blocks.now.words.id.views_name) }
    requires under { (t : ℕ) × (seat.now.view.knows ≡ Under guard.now.id t (block_in word)) }
    ensures lent { IfSome result (λ value. IsValueOf (NotedHolds T.defers blocks.now.words.fixed) guard.now.id guard.now.view (block_in word) value.now) }
    ensures none { IfNone result (block_in word ≡ 0) }
{
    let block = named(word)?;
    Some(blocks.value_by(seat, guard, guard, block))
}

/// Which word is at a root, where a seat looks that leans on another one, or sets these bits of the word.
fn finds<T: Defers>(
    blocks: &Blocks<T, OfRows>,
    seat: &mut Seat<T, OfRows>,
    root: u64,
    bits: Option<u64>,
) -> u64
    requires own { seat.old.base ≡ blocks.now.words.id.views_name }
    requires under { (n : ℕ) × (t : ℕ) × (b : ℕ) × (seat.old.view.knows ≡ Under n t b) }
    requires there { root < blocks.now.words.fixed.roots }
    requires small { IfSome bits (λ bits. bits < 2 ^ 11) }
    ensures found { (n t b : ℕ) → seat.old.view.knows ≡ Under n t b → seat.new.view.knows ≡ Under n t (block_in result) }
    ensures did { seat.new.view.did ≡ found_at root bits result }
    ensures same { (seat.new.base ≡ seat.old.base) × (seat.new.id ≡ seat.old.id) × (seat.new.away ≡ seat.old.away) }
{
    match bits {
        None => blocks.load(seat, At::Root(root)),
        Some(bits) => blocks.or(seat, At::Root(root), bits),
    }
}

/// Looks which word is at a root, within the section that the guard's seat has open, or sets these bits of it.
struct Protects<'g, T: Defers> {
    blocks: &'g Blocks<T, OfRows>,
    guard: &'g Seat<T, OfRows>,
    root: u64,
    bits: Option<u64>,
}

impl<'g, T: Defers> ErrandWith<T, OfRows> for Protects<'g, T> {
    type Answer = (u64, Option<&'g T>);

    ghost asks = { λ s name fixed lent u v. (s.blocks.now.words.id.views_name ≡ name) × (s.blocks.now.words.fixed ≡ fixed) × (s.guard.now.base ≡ name)
        × (s.guard.now.id ≡ lent) × ((t : ℕ) × (open_at s.guard.now.view.knows ≡ Some t)) × (s.root < fixed.roots) × (v.knows ≡ Rests)
        × IfSome s.bits (λ bits. bits < 2 ^ 11) };

    ghost did = { λ s fixed _ answer w. (w.knows ≡ Rests) × (w.did ≡ found_at s.root s.bits answer.0)
        × IfSome answer.1 (λ value. IsValueOf (NotedHolds T.defers fixed) s.guard.now.id s.guard.now.view (block_in answer.0) value.now)
        × IfNone answer.1 (block_in answer.0 ≡ 0) };

    fn run(self, blocks: &Blocks<T, OfRows>, seat: &mut Seat<T, OfRows>) -> (u64, Option<&'g T>) {
        let Self {
            blocks: lends,
            guard,
            root,
            bits,
        } = self;
        blocks.learn::<Leaning>(seat, guard);
        let word = finds(blocks, seat, root, bits);
        let value = lent(lends, seat, guard, word);
        blocks.turn::<Returning>(seat);
        (word, value)
    }
}

impl<'a, T: Defers> Caller<'a, T> {
    /// A pass looks which word is at a root, within its section, which is open, or sets these bits of it.
    fn finds_by<'g>(
        &'g self,
        _slot: u64,
        root: u64,
        bits: Option<u64>,
        pass: &mut PassSeat<T>,
    ) -> (u64, Option<&'g T>)
        requires own { pass.old.seat.base ≡ self.now.blocks.now.words.id.views_name }
        requires inside { open_at self.now.seat.view.knows ≡ Some _slot }
        requires there { root < self.now.blocks.now.words.fixed.roots }
        requires small { IfSome bits (λ bits. bits < 2 ^ 11) }
        ensures same { pass.new.seat.base ≡ pass.old.seat.base }
        ensures did { pass.new.seat.view.did ≡ found_at root bits result.0 }
        ensures lent { IfSome result.1 (λ value. IsValueOf (NotedHolds T.defers self.now.blocks.now.words.fixed) self.now.seat.id self.now.seat.view
            (block_in result.0) value.now) }
        ensures none { IfNone result.1 (block_in result.0 ≡ 0) }
    {
        let guard = &self.seat;
        self.blocks.errand_with(
            &mut pass.seat,
            guard,
            Protects {
                blocks: self.blocks,
                guard,
                root,
                bits,
            },
        )
    }

    /// Returns a pass looks which word is at a root, within its section, which is open: the value of the block to which that links is lent for as long as the
    /// caller is borrowed, whatever the pass does then.
    pub fn protect_by<'g>(
        &'g self,
        _slot: u64,
        root: u64,
        pass: &mut PassSeat<T>,
    ) -> (u64, Option<&'g T>)
        requires own { pass.old.seat.base ≡ self.now.blocks.now.words.id.views_name }
        requires inside { open_at self.now.seat.view.knows ≡ Some _slot }
        requires there { root < self.now.blocks.now.words.fixed.roots }
        ensures same { pass.new.seat.base ≡ pass.old.seat.base }
        ensures looked { pass.new.seat.view.did ≡ Looked root result.0 }
        ensures lent { IfSome result.1 (λ value. IsValueOf (NotedHolds T.defers self.now.blocks.now.words.fixed) self.now.seat.id self.now.seat.view
            (block_in result.0) value.now) }
        ensures none { IfNone result.1 (block_in result.0 ≡ 0) }
    {
        self.finds_by(_slot, root, None, pass)
    }

    /// Returns the same, and it sets these bits of the tag of the word. It answers the word that was there before.
    pub fn mark_by<'g>(
        &'g self,
        _slot: u64,
        root: u64,
        bits: u64,
        pass: &mut PassSeat<T>,
    ) -> (u64, Option<&'g T>)
        requires own { pass.old.seat.base ≡ self.now.blocks.now.words.id.views_name }
        requires inside { open_at self.now.seat.view.knows ≡ Some _slot }
        requires there { root < self.now.blocks.now.words.fixed.roots }
        requires small { bits < 2 ^ 11 }
        ensures same { pass.new.seat.base ≡ pass.old.seat.base }
        ensures marked { pass.new.seat.view.did ≡ Marked root bits result.0 }
        ensures lent { IfSome result.1 (λ value. IsValueOf (NotedHolds T.defers self.now.blocks.now.words.fixed) self.now.seat.id self.now.seat.view
            (block_in result.0) value.now) }
        ensures none { IfNone result.1 (block_in result.0 ≡ 0) }
    {
        self.finds_by(_slot, root, Some(bits), pass)
    }
}

//! A seat takes a block out of a root within its section, and puts it behind the one that it has seen there.
ghost use Rattle.std.specs.Prelude.{◌≡◌, ◌≢◌, ◌<◌, ◌^◌, ℕ, Option, None, IfOk, IfErr, IfSome};
ghost use Rattle.seize_words.specs.OneMemory.Word.{block_in};
ghost use Rattle.seize.specs.declared.rows.defer.Deferring.TheVariants.{Reads, Links, Over};
ghost use Rattle.seize_guards.specs.Behind.{IsCome, beside, putting, value_made};
ghost use Rattle.seize_views.specs.Views.Deferring.{LinksSo};
ghost use Rattle.seize_views.specs.Views.Notes.{SameNotes};
ghost use Rattle.seize_views.specs.Views.Told.{parted_in};
ghost use Rattle.seize_views.specs.declared.view.Began.TheVariants.{Deferral};
ghost use Rattle.seize_views.specs.declared.view.Deed.TheVariants.{Wrote};
ghost use Rattle.seize_views.specs.declared.view.Deferral.TheVariants.{Parts};
ghost use Rattle.seize_views.specs.declared.view.SlotView.TheVariants.{Inside, Defers};
ghost use Rattle.seize_views.specs.declared.view.Has.TheVariants.{Seen, Cut};

use seize::rows::Defers;
use seize::states::NEXT;
use seize_blocks::{Blocks, Errand, Seat};
use seize_callers::named;
use seize_views::OfRows;
use seize_views::turns::{Cutting, Deferring, DeferringEnds, TakingBegins};
use seize_words::{At, Link};
use std::sync::Wait;

/// What came of taking a block out of a root.
#[derive(Clone, Copy)]
pub(crate) enum Came {
    /// None was there.
    Nobody,
    /// It waits behind the one that was seen.
    Waits,
    /// It was unlinked, and is to be retired.
    Unlinks(u64),
}

/// Takes out what a root names, where it puts a word that links to the block that the seat has made, or to none; answers the word that was there.
fn takes_out<T: Defers>(
    blocks: &Blocks<T, OfRows>,
    seat: &mut Seat<T, OfRows>,
    _slot: u64,
    _seen: u64,
    root: u64,
    word: u64,
) -> u64
    requires own { seat.old.base ≡ blocks.now.words.id.views_name }
    requires away { seat.old.away ≢ None }
    requires seen { (made : Option (ℕ × T)) × (seat.old.view.knows ≡ Inside _slot (beside made _seen)) × LinksSo made word }
    requires root { root < blocks.now.words.fixed.roots }
    ensures parted { (y : T) × (x : T) × (seat.new.view.knows ≡ parted_in _slot _seen y x result) }
    ensures did { (made : Option (ℕ × T)) → seat.old.view.knows ≡ Inside _slot (beside made _seen)
        → seat.new.view.did ≡ Wrote root word (value_made made) result }
    ensures guards { seat.new.view.guards ≡ seat.old.view.guards }
    ensures same { (seat.new.base ≡ seat.old.base) × (seat.new.id ≡ seat.old.id) × (seat.new.away ≡ seat.old.away) }
{
    blocks.part::<TakingBegins>(seat);
    blocks.swap(seat, At::Root(root), word)
}

/// Where the list of further values begins of the block that was seen, if it keeps one, and the one that was taken out keeps none.
fn kept_by<T: Defers>(
    blocks: &Blocks<T, OfRows>,
    seat: &Seat<T, OfRows>,
    _slot: u64,
    seen: u64,
    block: u64,
) -> Option<u64>
    requires own { seat.now.base ≡ blocks.now.words.id.views_name }
    requires parts { (y : T) × (x : T) × (seat.now.view.knows ≡ Defers _slot (Parts seen y block x)) }
    ensures keeps { IfSome result (λ field. (y x : T) → seat.now.view.knows ≡ Defers _slot (Parts seen y block x)
        → (T.defers y ≡ Some field) × (T.defers x ≡ None)) }
{
    let field = blocks.value(seat, seen).deferred();
    match blocks.value(seat, block).deferred() {
        Some(_) => None,
        None => field,
    }
}

/// Unlinks what was taken out, which is then to be retired.
fn unlinks<T: Defers>(
    blocks: &Blocks<T, OfRows>,
    seat: &mut Seat<T, OfRows>,
    _slot: u64,
    _seen: u64,
    _block: u64,
)
    requires own { seat.old.base ≡ blocks.now.words.id.views_name }
    requires away { seat.old.away ≢ None }
    requires parts { (y : T) × (x : T) × (seat.old.view.knows ≡ Defers _slot (Parts _seen y _block x)) }
    ensures cut { seat.new.view.knows ≡ Inside _slot (Cut _block) }
    ensures did { seat.new.view.did ≡ seat.old.view.did }
    ensures guards { seat.new.view.guards ≡ seat.old.view.guards }
    ensures same { (seat.new.base ≡ seat.old.base) × (seat.new.id ≡ seat.old.id) × (seat.new.away ≡ seat.old.away) }
{
    blocks.part::<Cutting>(seat);
}

/// Begins the row that puts what was taken out behind the block that was seen, whose list begins at this word of its own; answers what is the first on it.
fn begins<T: Defers>(
    blocks: &Blocks<T, OfRows>,
    seat: &mut Seat<T, OfRows>,
    _slot: u64,
    seen: u64,
    _block: u64,
    field: u64,
) -> u64
    requires own { seat.old.base ≡ blocks.now.words.id.views_name }
    requires away { seat.old.away ≢ None }
    requires parts { (y : T) × (x : T) × (seat.old.view.knows ≡ Defers _slot (Parts seen y _block x)) × (T.defers y ≡ Some field) × (T.defers x ≡ None) }
    ensures puts { seat.new.view.knows ≡ putting _slot seen field _block (Links result) }
    ensures began { seat.new.view.began ≡ Deferral }
    ensures did { seat.new.view.did ≡ seat.old.view.did }
    ensures guards { seat.new.view.guards ≡ seat.old.view.guards }
    ensures same { (seat.new.base ≡ seat.old.base) × (seat.new.id ≡ seat.old.id) × (seat.new.away ≡ seat.old.away) }
{
    blocks.part::<Deferring>(seat);
    blocks.load(seat, At::Word(seen, field))
}

/// Links the block to the first one of the list, and puts it in front of that, if it is the first one still; else it answers which one is.
fn pushes<T: Defers>(
    blocks: &Blocks<T, OfRows>,
    seat: &mut Seat<T, OfRows>,
    _slot: u64,
    seen: u64,
    block: u64,
    field: u64,
    head: u64,
) -> Result<(), u64>
    requires own { seat.old.base ≡ blocks.now.words.id.views_name }
    requires puts { seat.old.view.knows ≡ putting _slot seen field block (Links head) }
    requires fits { block < 2 ^ 53 }
    ensures over { IfOk result (λ _. seat.new.view.knows ≡ putting _slot seen field block Over) }
    ensures again { IfErr result (λ found. seat.new.view.knows ≡ putting _slot seen field block (Links found)) }
    ensures notes { SameNotes seat.old.view seat.new.view }
    ensures same { (seat.new.base ≡ seat.old.base) × (seat.new.id ≡ seat.old.id) × (seat.new.away ≡ seat.old.away) }
{
    blocks.store(seat, At::Entry(block, NEXT), head);
    match blocks.exchange(seat, At::Word(seen, field), head, Link::to(block)) {
        Ok(_) => Ok(()),
        Err(found) => Err(found),
    }
}

/// Puts the block in front of the list, however often others are faster.
fn puts<T: Defers, W: Wait>(
    rt: &W,
    blocks: &Blocks<T, OfRows>,
    seat: &mut Seat<T, OfRows>,
    _slot: u64,
    seen: u64,
    block: u64,
    field: u64,
    head: u64,
)
    requires own { seat.old.base ≡ blocks.now.words.id.views_name }
    requires puts { seat.old.view.knows ≡ putting _slot seen field block (Links head) }
    requires fits { block < 2 ^ 53 }
    ensures over { seat.new.view.knows ≡ putting _slot seen field block Over }
    ensures notes { SameNotes seat.old.view seat.new.view }
    ensures same { (seat.new.base ≡ seat.old.base) × (seat.new.id ≡ seat.old.id) × (seat.new.away ≡ seat.old.away) }
{
    let mut head = head;
    for _ in rt.forever() {
        match pushes(blocks, seat, _slot, seen, block, field, head) {
            Ok(()) => return,
            Err(found) => head = found,
        }
    }
    unreachable!()
}

/// The row ends: the seat has seen the first block still.
fn ends<T: Defers>(
    blocks: &Blocks<T, OfRows>,
    seat: &mut Seat<T, OfRows>,
    _slot: u64,
    _seen: u64,
    _block: u64,
    _field: u64,
)
    requires own { seat.old.base ≡ blocks.now.words.id.views_name }
    requires away { seat.old.away ≢ None }
    requires over { seat.old.view.knows ≡ putting _slot _seen _field _block Over }
    ensures seen { seat.new.view.knows ≡ Inside _slot (Seen _seen) }
    ensures notes { SameNotes seat.old.view seat.new.view }
    ensures same { (seat.new.base ≡ seat.old.base) × (seat.new.id ≡ seat.old.id) × (seat.new.away ≡ seat.old.away) }
{
    blocks.part::<DeferringEnds>(seat);
}

/// Puts what was taken out behind the block that was seen, where that keeps a list, and it keeps none; else it unlinks it.
fn puts_behind<T: Defers, W: Wait>(
    rt: &W,
    blocks: &Blocks<T, OfRows>,
    seat: &mut Seat<T, OfRows>,
    slot: u64,
    seen: u64,
    block: u64,
) -> Came
    requires own { seat.old.base ≡ blocks.now.words.id.views_name }
    requires away { seat.old.away ≢ None }
    requires parts { (y : T) × (x : T) × (seat.old.view.knows ≡ Defers slot (Parts seen y block x)) }
    requires fits { (block < 2 ^ 53) × (block ≢ 0) }
    ensures came { IsCome slot seen block seat.new.view result }
    ensures did { seat.new.view.did ≡ seat.old.view.did }
    ensures guards { seat.new.view.guards ≡ seat.old.view.guards }
    ensures same { (seat.new.base ≡ seat.old.base) × (seat.new.id ≡ seat.old.id) × (seat.new.away ≡ seat.old.away) }
{
    match kept_by(blocks, seat, slot, seen, block) {
        Some(field) => {
            let head = begins(blocks, seat, slot, seen, block, field);
            puts(rt, blocks, seat, slot, seen, block, field, head);
            ends(blocks, seat, slot, seen, block, field);
            Came::Waits
        }
        None => {
            unlinks(blocks, seat, slot, seen, block);
            Came::Unlinks(block)
        }
    }
}

/// Takes out what a root names, where it puts this word, and puts it behind the block that the seat has seen, or unlinks it.
pub(crate) struct Takes<'w, W: Wait> {
    pub(crate) rt: &'w W,
    pub(crate) slot: u64,
    pub(crate) seen: u64,
    pub(crate) root: u64,
    pub(crate) word: u64,
}

impl<'w, T: Defers, W: Wait> Errand<T, OfRows> for Takes<'w, W> {
    type Answer = (u64, Came);

    ghost asks = { λ s fixed v. ((made : Option (ℕ × T)) × (v.knows ≡ Inside s.slot (beside made s.seen)) × LinksSo made s.word) × (s.root < fixed.roots) };

    ghost did = { λ s _ v answer w. IsCome s.slot s.seen (block_in answer.0) w answer.1
        × ((made : Option (ℕ × T)) → v.knows ≡ Inside s.slot (beside made s.seen) → w.did ≡ Wrote s.root s.word (value_made made) answer.0)
        × (w.guards ≡ v.guards) };

    fn run(self, blocks: &Blocks<T, OfRows>, seat: &mut Seat<T, OfRows>) -> (u64, Came) {
        let Self {
            rt,
            slot,
            seen,
            root,
            word,
        } = self;
        let old = takes_out(blocks, seat, slot, seen, root, word);
        match named(old) {
            None => (old, Came::Nobody),
            Some(block) => {
                let came = puts_behind(rt, blocks, seat, slot, seen, block);
                (old, came)
            }
        }
    }
}

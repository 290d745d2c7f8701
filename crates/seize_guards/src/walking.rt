//! A seat that goes down a chain within its section.
ghost use Rattle.std.specs.Prelude.{◌≡◌, ◌≢◌, ℕ, Option, Some, None, IfOk, IfErr};
ghost use Rattle.seize_words.specs.OneMemory.Word.{block_in};
ghost use Rattle.seize_seats.specs.Seats.Lendings.{IsValueOf};
ghost use Rattle.seize_views.specs.Views.Notes.{NotedHolds};
ghost use Rattle.seize_views.specs.Views.Chains.{IsChainRoot};
ghost use Rattle.seize_views.specs.Views.Promises.{IsLooking};
ghost use Rattle.seize_views.specs.declared.view.Deed.TheVariants.{Looked, Wrote};
ghost use Rattle.seize_views.specs.declared.view.SlotView.TheVariants.{Inside};
ghost use Rattle.seize_views.specs.declared.view.Has.{Has};
ghost use Rattle.seize_views.specs.declared.view.Has.TheVariants.{Nothing, Cut, Walks};

use seize::rows::Defers;
use seize_blocks::{Blocks, Seat};
use seize_views::turns::{Going, Stopping, Walking};
use seize_views::{LINK, OfRows};
use seize_words::At;

/// Turns to chains: the seat has come to no block of one. What it has seen it doesn't know any more.
pub(crate) fn walks<T: Defers>(blocks: &Blocks<T, OfRows>, seat: &mut Seat<T, OfRows>, _slot: u64)
    requires own { seat.old.base ≡ blocks.now.words.id.views_name }
    requires inside { (has : Has T) × IsLooking has × (seat.old.view.knows ≡ Inside _slot has) }
    ensures walks { seat.new.view.knows ≡ Inside _slot (Walks 0 None) }
    ensures guards { seat.new.view.guards ≡ seat.old.view.guards }
    ensures same { (seat.new.base ≡ seat.old.base) × (seat.new.id ≡ seat.old.id) × (seat.new.away ≡ seat.old.away) }
{
    blocks.part::<Walking>(seat);
}

/// Sees which word is at the root of a chain, and comes to the block that it names: its section holds that from now on, and all that stands below.
pub(crate) fn sees_first<T: Defers>(
    blocks: &Blocks<T, OfRows>,
    seat: &mut Seat<T, OfRows>,
    _slot: u64,
    root: u64,
) -> u64
    requires own { seat.old.base ≡ blocks.now.words.id.views_name }
    requires walks { (b : ℕ) × (next : Option ℕ) × (seat.old.view.knows ≡ Inside _slot (Walks b next)) }
    requires root { IsChainRoot blocks.now.words.fixed root }
    ensures walks { seat.new.view.knows ≡ Inside _slot (Walks (block_in result) None) }
    ensures looked { seat.new.view.did ≡ Looked root result }
    ensures guards { seat.new.view.guards ≡ seat.old.view.guards }
    ensures same { (seat.new.base ≡ seat.old.base) × (seat.new.id ≡ seat.old.id) × (seat.new.away ≡ seat.old.away) }
{
    blocks.load(seat, At::Root(root))
}

/// Sees the link of the block to which it has come: the word that names the next one.
pub(crate) fn sees_link<T: Defers>(
    blocks: &Blocks<T, OfRows>,
    seat: &mut Seat<T, OfRows>,
    _slot: u64,
    block: u64,
) -> u64
    requires own { seat.old.base ≡ blocks.now.words.id.views_name }
    requires walks { (next : Option ℕ) × (seat.old.view.knows ≡ Inside _slot (Walks block next)) }
    requires some { block ≢ 0 }
    ensures walks { seat.new.view.knows ≡ Inside _slot (Walks block (Some (block_in result))) }
    ensures did { seat.new.view.did ≡ seat.old.view.did }
    ensures guards { seat.new.view.guards ≡ seat.old.view.guards }
    ensures same { (seat.new.base ≡ seat.old.base) × (seat.new.id ≡ seat.old.id) × (seat.new.away ≡ seat.old.away) }
{
    blocks.load(seat, At::Word(block, LINK))
}

/// Goes on to the block that the link names.
pub(crate) fn goes_down<T: Defers>(
    blocks: &Blocks<T, OfRows>,
    seat: &mut Seat<T, OfRows>,
    _slot: u64,
    _block: u64,
    _next: u64,
)
    requires own { seat.old.base ≡ blocks.now.words.id.views_name }
    requires walks { seat.old.view.knows ≡ Inside _slot (Walks _block (Some _next)) }
    ensures walks { seat.new.view.knows ≡ Inside _slot (Walks _next None) }
    ensures did { seat.new.view.did ≡ seat.old.view.did }
    ensures guards { seat.new.view.guards ≡ seat.old.view.guards }
    ensures same { (seat.new.base ≡ seat.old.base) × (seat.new.id ≡ seat.old.id) × (seat.new.away ≡ seat.old.away) }
{
    blocks.part::<Going>(seat);
}

/// Returns the value of the block to which it has come, for as long as the seat takes no step: whoever retires the block meanwhile, its section holds it.
pub(crate) fn met<'s, T: Defers>(
    blocks: &'s Blocks<T, OfRows>,
    seat: &'s Seat<T, OfRows>,
    _slot: u64,
    block: u64,
) -> &'s T
    requires own { seat.now.base ≡ blocks.now.words.id.views_name }
    requires walks { (next : Option ℕ) × (seat.now.view.knows ≡ Inside _slot (Walks block next)) }
    requires some { block ≢ 0 }
    ensures { IsValueOf (NotedHolds T.defers blocks.now.words.fixed) seat.now.id seat.now.view block result.now }
{
    blocks.value(seat, block)
}

/// Copies the link of the block to which it has come to the root of a chain, where a word is that names that block, which is then to be retired: what stood
/// below it stands at the root. Else it answers which word is there, and has come to the block that this names.
pub(crate) fn copies_link<T: Defers>(
    blocks: &Blocks<T, OfRows>,
    seat: &mut Seat<T, OfRows>,
    _slot: u64,
    root: u64,
    old: u64,
    link: u64,
) -> Result<(), u64>
    requires own { seat.old.base ≡ blocks.now.words.id.views_name }
    requires walks { seat.old.view.knows ≡ Inside _slot (Walks (block_in old) (Some (block_in link))) }
    requires some { block_in old ≢ 0 }
    requires root { IsChainRoot blocks.now.words.fixed root }
    ensures cut { IfOk result (λ _. seat.new.view.knows ≡ Inside _slot (Cut (block_in old))) }
    ensures copied { IfOk result (λ _. seat.new.view.did ≡ Wrote root link None old) }
    ensures other { IfErr result (λ now. seat.new.view.knows ≡ Inside _slot (Walks (block_in now) None)) }
    ensures looked { IfErr result (λ now. seat.new.view.did ≡ Looked root now) }
    ensures guards { seat.new.view.guards ≡ seat.old.view.guards }
    ensures same { (seat.new.base ≡ seat.old.base) × (seat.new.id ≡ seat.old.id) × (seat.new.away ≡ seat.old.away) }
{
    match blocks.exchange(seat, At::Root(root), old, link) {
        Ok(_) => Ok(()),
        Err(now) => Err(now),
    }
}

/// Turns from chains: it knows of no block.
pub(crate) fn stops<T: Defers>(blocks: &Blocks<T, OfRows>, seat: &mut Seat<T, OfRows>, _slot: u64)
    requires own { seat.old.base ≡ blocks.now.words.id.views_name }
    requires walks { (b : ℕ) × (next : Option ℕ) × (seat.old.view.knows ≡ Inside _slot (Walks b next)) }
    ensures inside { seat.new.view.knows ≡ Inside _slot Nothing }
    ensures did { seat.new.view.did ≡ seat.old.view.did }
    ensures guards { seat.new.view.guards ≡ seat.old.view.guards }
    ensures same { (seat.new.base ≡ seat.old.base) × (seat.new.id ≡ seat.old.id) × (seat.new.away ≡ seat.old.away) }
{
    blocks.part::<Stopping>(seat);
}

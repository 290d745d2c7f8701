//! A seat without a slot, and a block that it makes for a chain.
ghost use Rattle.std.specs.Prelude.{◌≡◌, ◌≢◌, ◌<◌, ◌^◌, Some, None, IfOk, IfErr, IfSome};
ghost use Rattle.seize_words.specs.OneMemory.Word.{link_to, block_in};
ghost use Rattle.seize.specs.World.{HasListWord};
ghost use Rattle.seize_guards.specs.Joining.{joined_by};
ghost use Rattle.seize_views.specs.Views.Chains.{IsChainRoot};
ghost use Rattle.seize_views.specs.declared.view.TheConstants.{LINK};
ghost use Rattle.seize_views.specs.declared.view.Deed.TheVariants.{Looked, Wrote};
ghost use Rattle.seize_views.specs.declared.view.SlotView.TheVariants.{Joins, Rests};

use seize::rows::Defers;
use seize_blocks::{Blocks, Seat};
use seize_callers::marked;
use seize_views::turns::Joining;
use seize_views::{LINK, OfRows};
use seize_words::At;

/// How many words a block of this value has that has a link, if they can be counted.
fn words_with_link<T: Defers>(value: &T) -> Option<u64>
    ensures list { IfSome result (λ words. HasListWord T.defers (T.defers value.now) words) }
    ensures link { IfSome result (λ words. LINK < words) }
{
    match value.deferred() {
        Some(field) => field.checked_add(1),
        None => Some(1),
    }
}

/// Turns to chains: the seat is to make a block for one.
fn turns_to_chains<T: Defers>(blocks: &Blocks<T, OfRows>, seat: &mut Seat<T, OfRows>)
    requires own { seat.old.base ≡ blocks.now.words.id.views_name }
    requires rests { seat.old.view.knows ≡ Rests }
    ensures joins { seat.new.view.knows ≡ Joins None }
    ensures same { (seat.new.base ≡ seat.old.base) × (seat.new.id ≡ seat.old.id) × (seat.new.away ≡ seat.old.away) }
{
    blocks.part::<Joining>(seat);
}

/// Makes its block then, with so many words; a number is looked for from `near` on, which says then where to look next.
fn makes<T: Defers>(
    blocks: &Blocks<T, OfRows>,
    seat: &mut Seat<T, OfRows>,
    near: &mut u64,
    value: T,
    words: u64,
) -> Result<u64, T>
    requires own { seat.old.base ≡ blocks.now.words.id.views_name }
    requires joins { seat.old.view.knows ≡ Joins None }
    requires list { HasListWord T.defers (T.defers value) words }
    requires long { LINK < words }
    requires link { T.defers value ≢ Some LINK }
    ensures made { IfOk result (λ block. (seat.new.view.knows ≡ Joins (Some (block, value, 0))) × (block < 2 ^ 53)) }
    ensures refused { IfErr result (λ back. seat.new.view.knows ≡ Rests) }
    ensures back { IfErr result (λ back. back ≡ value) }
    ensures same { (seat.new.base ≡ seat.old.base) × (seat.new.id ≡ seat.old.id) × (seat.new.away ≡ seat.old.away) }
{
    blocks.make(seat, near, value, words)
}

/// Makes its block, which has a link, at which no list of further values begins; it names none. Without words for it, or memory, the value comes back.
pub(crate) fn joins<T: Defers>(
    blocks: &Blocks<T, OfRows>,
    seat: &mut Seat<T, OfRows>,
    near: &mut u64,
    value: T,
) -> Result<u64, T>
    requires own { seat.old.base ≡ blocks.now.words.id.views_name }
    requires rests { seat.old.view.knows ≡ Rests }
    requires link { T.defers value ≢ Some LINK }
    ensures made { IfOk result (λ block. (seat.new.view.knows ≡ Joins (Some (block, value, 0))) × (block < 2 ^ 53)) }
    ensures refused { IfErr result (λ back. seat.new.view.knows ≡ Rests) }
    ensures back { IfErr result (λ back. back ≡ value) }
    ensures same { (seat.new.base ≡ seat.old.base) × (seat.new.id ≡ seat.old.id) × (seat.new.away ≡ seat.old.away) }
{
    match words_with_link(&value) {
        Some(words) => {
            turns_to_chains(blocks, seat);
            makes(blocks, seat, near, value, words)
        }
        None => Err(value),
    }
}

/// Returns the value of its block, for as long as the seat takes no step.
pub(crate) fn joined<'s, T: Defers>(
    blocks: &'s Blocks<T, OfRows>,
    seat: &'s Seat<T, OfRows>,
    block: u64,
    _below: u64,
) -> &'s T
    requires own { seat.now.base ≡ blocks.now.words.id.views_name }
    requires joins { joined_by seat.now.view.knows ≡ Some (block, _below) }
    ensures same { (value : T) → seat.now.view.knows ≡ Joins (Some (block, value, _below)) → result.now ≡ value }
{
    blocks.value(seat, block)
}

/// Writes the link of its block: it names the block that this word names, which stands below it then.
pub(crate) fn names_below<T: Defers>(
    blocks: &Blocks<T, OfRows>,
    seat: &mut Seat<T, OfRows>,
    block: u64,
    _below: u64,
    word: u64,
)
    requires own { seat.old.base ≡ blocks.now.words.id.views_name }
    requires joins { joined_by seat.old.view.knows ≡ Some (block, _below) }
    ensures joins { (value : T) → seat.old.view.knows ≡ Joins (Some (block, value, _below))
        → seat.new.view.knows ≡ Joins (Some (block, value, block_in word)) }
    ensures still { joined_by seat.new.view.knows ≡ Some (block, block_in word) }
    ensures same { (seat.new.base ≡ seat.old.base) × (seat.new.id ≡ seat.old.id) × (seat.new.away ≡ seat.old.away) }
{
    blocks.store(seat, At::Word(block, LINK), word);
}

/// Takes its block away, and answers its value.
pub(crate) fn takes_apart<T: Defers>(
    blocks: &Blocks<T, OfRows>,
    seat: &mut Seat<T, OfRows>,
    block: u64,
    _below: u64,
) -> T
    requires own { seat.old.base ≡ blocks.now.words.id.views_name }
    requires joins { joined_by seat.old.view.knows ≡ Some (block, _below) }
    ensures rests { seat.new.view.knows ≡ Rests }
    ensures back { (value : T) → seat.old.view.knows ≡ Joins (Some (block, value, _below)) → result ≡ value }
    ensures same { (seat.new.base ≡ seat.old.base) × (seat.new.id ≡ seat.old.id) × (seat.new.away ≡ seat.old.away) }
{
    blocks.take(seat, block)
}

/// Puts its block at the root of a chain where this word is, whose block its link names: that stands below it then. Else it answers which word is there.
pub(crate) fn stacks<T: Defers>(
    blocks: &Blocks<T, OfRows>,
    seat: &mut Seat<T, OfRows>,
    root: u64,
    old: u64,
    block: u64,
) -> Result<(), u64>
    requires own { seat.old.base ≡ blocks.now.words.id.views_name }
    requires joins { joined_by seat.old.view.knows ≡ Some (block, block_in old) }
    requires root { IsChainRoot blocks.now.words.fixed root }
    requires fits { block < 2 ^ 53 }
    ensures rests { IfOk result (λ _. seat.new.view.knows ≡ Rests) }
    ensures put { IfOk result (λ _. (value : T) → seat.old.view.knows ≡ Joins (Some (block, value, block_in old))
        → seat.new.view.did ≡ Wrote root (link_to block) (Some value) old) }
    ensures other { IfErr result (λ now. now ≢ old) }
    ensures looked { IfErr result (λ now. seat.new.view.did ≡ Looked root now) }
    ensures kept { IfErr result (λ now. seat.new.view.knows ≡ seat.old.view.knows) }
    ensures same { (seat.new.base ≡ seat.old.base) × (seat.new.id ≡ seat.old.id) × (seat.new.away ≡ seat.old.away) }
{
    let word = marked(block, 0);
    match blocks.exchange(seat, At::Root(root), old, word) {
        Ok(_) => Ok(()),
        Err(now) => Err(now),
    }
}

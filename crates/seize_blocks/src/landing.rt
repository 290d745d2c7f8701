//! From where an operation on a word of a block's own is made, by what was seen of them.
ghost use denote.RawPtr.{InBlock};
ghost use Rattle.seize_seats.specs.Plots.Somewhere.{AreBeside};
ghost use Rattle.seize_blocks.specs.Landing.{Lands};

use crate::part::{Landing, words_in};
use seize_atoms::Strip;
use seize_seats::Beside;

/// From where an operation on a word of a block's own is made: from where its own words lie, if there is such a word. In any case it is an address in a block.
#[inline(always)]
pub(crate) fn lands<T>(beside: &Beside, own: u64, strip: &Strip<T>) -> Landing
    requires { InBlock strip.now.words }
    ensures { Lands beside.now.at own result }
{
    if own < beside.count {
        let at = beside.at;
        return Landing { at, place: own };
    }
    let at = beside.at;
    let words = words_in(strip);
    let instead = words.at;
    lands_past(at, beside.count, own, instead)
}

/// The same, where the word is none of those that were seen: then there is none, whatever the state is in which the seat has its view.
#[cold]
#[inline(never)]
fn lands_past(at: *mut u64, count: u64, own: u64, instead: *mut u64) -> Landing
    requires { AreBeside at count × InBlock instead }
    ensures { Lands at own result }
{
    if count > 0 && own < 1152921504606846976 {
        return Landing { at, place: own };
    }
    Landing {
        at: instead,
        place: 0,
    }
}

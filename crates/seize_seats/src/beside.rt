//! The words of a block's own are laid, and given back.
ghost use Rattle.std.specs.Prelude.{◌≡◌, IfSome, replicate};
ghost use Rattle.seize_seats.specs.Plots.Somewhere.{AreBeside};

use crate::filling::fill;
use crate::piece::{Laid, Piece, join_words, release_words, reserve_words};
use crate::row::Row;
use std::alloc::Global;
use std::ptr::null_mut;

/// Lays so many words, each 0, where there is memory for them: at null where they are none.
pub fn lay_words(alloc: &Global, count: u64) -> Option<Laid>
    ensures lies { IfSome result (λ l. (l.piece.at ≡ l.at) × (l.piece.count ≡ count)) }
    ensures beside { IfSome result (λ l. AreBeside l.at count) }
    ensures zeros { IfSome result (λ l. l.piece.words ≡ replicate count 0) }
{
    if count == 0 {
        return Some(Laid {
            at: null_mut(),
            piece: Piece::none(),
        });
    }
    if count >= 1152921504606846976 {
        return None;
    }
    let many = count as usize;
    match reserve_words::<Global>(alloc, many, many * 8) {
        Ok((words, right)) => {
            let mut slots = words.into_slots(many);
            fill(&mut slots, many);
            Some(join_words(Row::of(slots), right))
        }
        Err(_) => None,
    }
}

/// Gives the words of a piece back, if it has any.
pub fn give_words(alloc: &Global, at: *mut u64, count: u64, piece: Piece)
    requires { (piece.at ≡ at) × (piece.count ≡ count) }
{
    if count == 0 {
        piece.end();
    } else {
        let (words, right) = piece.parted(alloc, at);
        release_words::<Global>(alloc, words, right, count as usize * 8);
    }
}

//! Operations on one word, each made where the word lies.
ghost use Rattle.std.specs.Prelude.{◌≡◌, IsSome};
ghost use Rattle.seize_words.specs.OneMemory.Mem.{Mem, Can, word_at};
ghost use Rattle.seize_words.specs.OneMemory.Op.{Op, Out, Load, Store, Swap, Add, Or, Exchange, Found, Stored, Exchanged};
ghost use Rattle.seize_words.specs.declared.at.At.{At};
ghost use Rattle.seize_seats.specs.Seats.State.{Allows};
ghost use Rattle.seize_atoms.specs.Visiting.{HoldsHere};
ghost use Rattle.seize_atoms.specs.Placed.{IsItsPlace};

use seize_atoms::{Rule, Seat, StripWords};
use seize_words::At;

/// An operation on one word.
pub(crate) trait Access<T, R: Rule<T>>: Sized {
    /// What it answers.
    type Answer;

    /// Which operation it is, on the word of a name.
    ghost op: { Self → At → Op T };

    /// What it answers, as an answer of any operation.
    ghost out: { Self.Answer → Out T };

    /// It is made where the word is there.
    ghost there: { (self : Self) (at : At) (m : Mem T) → Can m (op self at) → IsSome (word_at m at) };

    /// Makes it on the word of a name, which lies so many words on from this address.
    fn made(
        self,
        words: &StripWords<T, R>,
        seat: &mut Seat<T, R>,
        at: &At,
        address: *mut u64,
        place: u64,
    ) -> Self::Answer
        requires { (seat.old.base ≡ words.now.id.views_name)
            × IsItsPlace (HoldsHere R.rests R.leans (R.holds words.now.fixed)) seat.old.id ((seat.old.view, seat.old.visit), seat.old.away)
            words.now.words words.now.id at.now address place
            × Allows (R.holds words.now.fixed) R.keeps seat.old.id seat.old.view (op self at.now) (R.then seat.old.view (op self at.now)) }
        ensures { (seat.new.base ≡ seat.old.base) × (seat.new.id ≡ seat.old.id) × (seat.new.away ≡ seat.old.away)
            × R.then seat.old.view (op self at.now) (out result) seat.new.view };
}

/// Reads it.
#[derive(Drop)]
pub(crate) struct Loads;

impl<T, R: Rule<T>> Access<T, R> for Loads {
    type Answer = u64;

    ghost op = { λ s at. Load at };

    ghost out = { λ word. Found word };

    ghost there = { λ s at m can. can };

    #[inline(always)]
    fn made(
        self,
        words: &StripWords<T, R>,
        seat: &mut Seat<T, R>,
        at: &At,
        address: *mut u64,
        place: u64,
    ) -> u64 {
        words.load(seat, at, address, place)
    }
}

/// Writes this word.
#[derive(Drop)]
pub(crate) struct Stores(pub(crate) u64);

impl<T, R: Rule<T>> Access<T, R> for Stores {
    type Answer = ();

    ghost op = { λ s at. Store at s.0 };

    ghost out = { λ none. Stored };

    ghost there = { λ s at m can. can };

    #[inline(always)]
    fn made(
        self,
        words: &StripWords<T, R>,
        seat: &mut Seat<T, R>,
        at: &At,
        address: *mut u64,
        place: u64,
    ) {
        words.store(seat, at, address, place, self.0);
    }
}

/// Writes this word, and answers the one before.
#[derive(Drop)]
pub(crate) struct Swaps(pub(crate) u64);

impl<T, R: Rule<T>> Access<T, R> for Swaps {
    type Answer = u64;

    ghost op = { λ s at. Swap at s.0 };

    ghost out = { λ word. Found word };

    ghost there = { λ s at m can. can };

    #[inline(always)]
    fn made(
        self,
        words: &StripWords<T, R>,
        seat: &mut Seat<T, R>,
        at: &At,
        address: *mut u64,
        place: u64,
    ) -> u64 {
        words.swap(seat, at, address, place, self.0)
    }
}

/// Adds this to it, round at 2^64, and answers the one before.
#[derive(Drop)]
pub(crate) struct Adds(pub(crate) u64);

impl<T, R: Rule<T>> Access<T, R> for Adds {
    type Answer = u64;

    ghost op = { λ s at. Add at s.0 };

    ghost out = { λ word. Found word };

    ghost there = { λ s at m can. can };

    #[inline(always)]
    fn made(
        self,
        words: &StripWords<T, R>,
        seat: &mut Seat<T, R>,
        at: &At,
        address: *mut u64,
        place: u64,
    ) -> u64 {
        words.add(seat, at, address, place, self.0)
    }
}

/// Sets these bits of it, and answers the one before.
#[derive(Drop)]
pub(crate) struct Sets(pub(crate) u64);

impl<T, R: Rule<T>> Access<T, R> for Sets {
    type Answer = u64;

    ghost op = { λ s at. Or at s.0 };

    ghost out = { λ word. Found word };

    ghost there = { λ s at m can. can };

    #[inline(always)]
    fn made(
        self,
        words: &StripWords<T, R>,
        seat: &mut Seat<T, R>,
        at: &At,
        address: *mut u64,
        place: u64,
    ) -> u64 {
        words.or(seat, at, address, place, self.0)
    }
}

/// Writes the new word where the old one, the whole word, is found, and answers the word found: `Ok` where it was written.
#[derive(Drop)]
pub(crate) struct Exchanges {
    pub(crate) old: u64,
    pub(crate) new: u64,
}

impl<T, R: Rule<T>> Access<T, R> for Exchanges {
    type Answer = Result<u64, u64>;

    ghost op = { λ s at. Exchange at s.old s.new };

    ghost out = { λ found. Exchanged found };

    ghost there = { λ s at m can. can };

    #[inline(always)]
    fn made(
        self,
        words: &StripWords<T, R>,
        seat: &mut Seat<T, R>,
        at: &At,
        address: *mut u64,
        place: u64,
    ) -> Result<u64, u64> {
        words.exchange(seat, at, address, place, self.old, self.new)
    }
}

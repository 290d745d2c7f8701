//! Buckets of slots come to have their words: those of the first are there from the start, and those of each other one lie behind a door of its own.
ghost use Rattle.std.specs.Prelude.{◌≡◌, ◌⊎◌, ◌+◌, ◌-◌, ◌*◌, ◌<◌, ◌≤◌, Ok, Err, [], ◌∷◌, true, false, replicate};
ghost use denote.RawPtr.{InBlock, Testable, null_ptr};
ghost use Rattle.core.specs.Result.{MatchResult};
ghost use Rattle.seize_words.specs.OneMemory.Op.{Room, Roomed};
ghost use Rattle.seize_words.specs.OneMemory.Place.{capacity};
ghost use Rattle.seize_words.specs.declared.at.At.TheVariants.{Slot};
ghost use Rattle.seize_words.specs.declared.fault.Fault.TheVariants.{Memory};
ghost use Rattle.seize_seats.specs.Seats.State.{Allows};
ghost use Rattle.seize_seats.specs.Seats.Steps.{roomed};
ghost use Rattle.seize_seats.specs.Seats.Buckets.{bucket_at};
ghost use Rattle.seize_seats.specs.Seats.Owned.{core_of};
ghost use Rattle.seize_atoms.specs.Placed.{HasWord};

use crate::rule::Rule;
use crate::seat::Seat;
use crate::strip::Strip;
use crate::words::StripWords;
use seize_seats::{Address, Piece, Pieces};
use std::marker::{Brand, PhantomData};
use std::ptr::null_mut;
use std::sync::atomic::Ordering::SeqCst;
use std::sync::atomic::raw;

impl<T, R: Rule<T>> StripWords<T, R> {
    /// Asks for the words of the first bucket of slots, which are there from now on, or for those of one that has no door.
    pub fn room(&self, seat: &mut Seat<T, R>, bucket: u64)
        requires { (seat.old.base ≡ self.now.id.views_name) × ((bucket ≡ 0) ⊎ (32 < bucket))
            × Allows (R.holds self.now.fixed) R.keeps seat.old.id seat.old.view (Room bucket) (R.then seat.old.view (Room bucket)) }
        ensures { (seat.new.base ≡ seat.old.base) × (seat.new.id ≡ seat.old.id) × (seat.new.away ≡ seat.old.away)
            × R.then seat.old.view (Room bucket) (Roomed (roomed bucket)) seat.new.view }
    {}

    /// Asks for the words of a bucket behind a door: they are there where an address is found. Where none is the bucket is refused if this is the last attempt, and
    /// nothing has happened if it isn't.
    pub fn ask_room(
        &self,
        seat: &mut Seat<T, R>,
        doors: *mut *mut u64,
        door: u64,
        _last: bool,
    ) -> Address
        requires { (seat.old.base ≡ self.now.id.views_name) × (doors ≡ self.now.id.doors) × (32 ≤ door) × (door < 64)
            × Allows (R.holds self.now.fixed) R.keeps seat.old.id seat.old.view (Room (door - 31)) (R.then seat.old.view (Room (door - 31))) }
        ensures { (seat.new.base ≡ seat.old.base) × (seat.new.id ≡ seat.old.id) × (seat.new.away ≡ seat.old.away) × Testable result.at
            × (InBlock result.at → R.then seat.old.view (Room (door - 31)) (Roomed (Ok tt)) seat.new.view)
            × (result.at ≡ null_ptr → _last ≡ true → R.then seat.old.view (Room (door - 31)) (Roomed (Err Memory)) seat.new.view)
            × (result.at ≡ null_ptr → _last ≡ false → seat.new.view ≡ seat.old.view) }
    {
        let at = unsafe { raw::ptr::load::<u64, Brand>(doors.add(door as usize), SeqCst) };
        Address { at }
    }

    /// Puts the words of a bucket, each 0, behind its door if that is null. Whoever finds it set has them back.
    pub fn offer_room(
        &self,
        seat: &mut Seat<T, R>,
        doors: *mut *mut u64,
        door: u64,
        at: *mut u64,
        piece: Piece,
    ) -> (Result<*mut u64, *mut u64>, Pieces)
        requires { (seat.old.base ≡ self.now.id.views_name) × (doors ≡ self.now.id.doors) × (32 ≤ door) × (door < 64)
            × InBlock at × (piece.at ≡ at) × (piece.count ≡ capacity (door - 31) * 16) × (piece.words ≡ replicate piece.count 0)
            × Allows (R.holds self.now.fixed) R.keeps seat.old.id seat.old.view (Room (door - 31)) (R.then seat.old.view (Room (door - 31))) }
        ensures { (seat.new.base ≡ seat.old.base) × (seat.new.id ≡ seat.old.id) × (seat.new.away ≡ seat.old.away)
            × R.then seat.old.view (Room (door - 31)) (Roomed (Ok tt)) seat.new.view
            × MatchResult result.0 (λ _. result.1.spots ≡ []) (λ _. result.1.spots ≡ (at, piece.count) ∷ []) }
    {
        let Piece { marker: _ } = piece;
        let found = unsafe {
            raw::ptr::compare_exchange::<u64, Brand>(
                doors.add(door as usize),
                null_mut(),
                at,
                SeqCst,
                SeqCst,
            )
        };
        (
            found,
            Pieces {
                marker: PhantomData,
            },
        )
    }

    /// Returns the strip by which these words are had, with the bucket behind a door, and where its words lie: a bucket of a slot of which the seat's view
    /// shows a word.
    pub fn find_room(
        &self,
        seat: &Seat<T, R>,
        _slot: u64,
        _field: u64,
        doors: *mut *mut u64,
        door: u64,
    ) -> (Strip<T>, Address)
        requires { (seat.now.base ≡ self.now.id.views_name) × (doors ≡ self.now.id.doors) × (32 ≤ door) × (door < 64)
            × (capacity (door - 31) ≤ _slot + 32) × HasWord (R.holds self.now.fixed) seat.now.id seat.now.view (Slot _slot _field) }
        ensures { (core_of result.0.id ≡ core_of self.now.id) × (result.0.words ≡ self.now.words) × InBlock result.0.words × InBlock result.1.at
            × (0 < result.0.id.bucket) × (result.0.id.slots ≡ bucket_at (door - 31) result.1.at) }
    {
        let at = unsafe { raw::ptr::load::<u64, Brand>(doors.add(door as usize), SeqCst) };
        (
            Strip {
                words: self.words,
                marker: PhantomData,
            },
            Address { at },
        )
    }
}

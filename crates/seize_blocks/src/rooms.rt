//! Buckets of slots: how a bucket comes to have its words, and where the words of a slot behind the first bucket lie.
ghost use Rattle.std.specs.Prelude.{◌≡◌, ◌+◌, ◌<◌, ◌≤◌, ◌^◌, Ok};
ghost use denote.RawPtr.{InBlock};
ghost use Rattle.seize_words.specs.OneMemory.Op.{Room, Roomed};
ghost use Rattle.seize_words.specs.declared.at.At.TheVariants.{Slot};
ghost use Rattle.seize_seats.specs.Seats.State.{Allows};
ghost use Rattle.seize_seats.specs.Seats.Owned.{core_of};
ghost use Rattle.seize_atoms.specs.Visiting.{HoldsHere};
ghost use Rattle.seize_atoms.specs.Placed.{IsItsPlace, HasWord};

use crate::blocks::Blocks;
use crate::part::Reached;
use seize_atoms::{Rule, Seat};
use seize_seats::{Laid, give_words, lay_words};
use seize_words::Fault;
use seize_words::slots::{bucket_capacity, place_of};
use std::ptr::NonNull;

impl<T, R: Rule<T>> Blocks<T, R> {
    /// Makes the words of a bucket of slots where they are not there yet. Where there is no memory for them the answer is `Memory`, and so it is for a bucket behind
    /// the 32 that follow the first one; that one always has them.
    pub fn room(&self, seat: &mut Seat<T, R>, bucket: u64) -> Result<(), Fault>
        requires own { seat.old.base ≡ self.now.words.id.views_name }
        requires may { Allows (R.holds self.now.words.fixed) R.keeps seat.old.id seat.old.view (Room bucket) (R.then seat.old.view (Room bucket)) }
        ensures same { (seat.new.base ≡ seat.old.base) × (seat.new.id ≡ seat.old.id) }
        ensures errand { seat.new.away ≡ seat.old.away }
        ensures goes { R.then seat.old.view (Room bucket) (Roomed result) seat.new.view }
        ensures first { bucket ≡ 0 → result ≡ Ok tt }
    {
        if bucket == 0 {
            self.words.room(seat, bucket);
            return Ok(());
        }
        if bucket > 32 {
            self.words.room(seat, bucket);
            return Err(Fault::Memory);
        }
        let found = self.words.ask_room(seat, self.doors.at, bucket + 31, false);
        match NonNull::new(found.at) {
            Some(_) => Ok(()),
            None => self.lay_room(seat, bucket),
        }
    }

    /// Lays the words of a bucket behind its door, if there is memory for them. Whoever finds the door set has made room, too.
    fn lay_room(&self, seat: &mut Seat<T, R>, bucket: u64) -> Result<(), Fault>
        requires own { seat.old.base ≡ self.now.words.id.views_name }
        requires behind { (0 < bucket) × (bucket ≤ 32) }
        requires may { Allows (R.holds self.now.words.fixed) R.keeps seat.old.id seat.old.view (Room bucket) (R.then seat.old.view (Room bucket)) }
        ensures same { (seat.new.base ≡ seat.old.base) × (seat.new.id ≡ seat.old.id) }
        ensures errand { seat.new.away ≡ seat.old.away }
        ensures goes { R.then seat.old.view (Room bucket) (Roomed result) seat.new.view }
    {
        let count = bucket_capacity(bucket) * 16;
        match lay_words(&self.alloc, count) {
            Some(laid) => {
                let Laid { at, piece } = laid;
                let (found, left) = self
                    .words
                    .offer_room(seat, self.doors.at, bucket + 31, at, piece);
                match found {
                    Ok(_) => left.over(),
                    Err(_) => {
                        let (back, others) = left.next();
                        give_words(&self.alloc, at, count, back);
                        others.over();
                    }
                }
                Ok(())
            }
            None => {
                let found = self.words.ask_room(seat, self.doors.at, bucket + 31, true);
                match NonNull::new(found.at) {
                    Some(_) => Ok(()),
                    None => Err(Fault::Memory),
                }
            }
        }
    }

    /// The place of a word of a slot behind the first bucket, of which the seat's view shows that it is there.
    pub(crate) fn slot_place(&self, seat: &Seat<T, R>, slot: u64, field: u64) -> Reached<T>
        requires own { seat.now.base ≡ self.now.words.id.views_name }
        requires there { HasWord (R.holds self.now.words.fixed) seat.now.id seat.now.view (Slot slot field) }
        requires far { (32 ≤ slot) × (slot + 32 < 2 ^ 38) × (field < 2) }
        ensures lies { (core_of result.strip.id ≡ core_of self.now.words.id) × InBlock result.strip.words
            × IsItsPlace (HoldsHere R.rests R.leans (R.holds self.now.words.fixed)) seat.now.id ((seat.now.view, seat.now.visit), seat.now.away)
            result.strip.words result.strip.id (Slot slot field) result.address result.place }
    {
        let (bucket, index) = place_of(slot);
        let (strip, found) = self
            .words
            .find_room(seat, slot, field, self.doors.at, bucket + 31);
        let address = found.at;
        Reached {
            strip,
            address,
            place: index * 16 + field,
        }
    }
}

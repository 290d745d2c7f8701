//! The memory with the right to give back what it is made of.
ghost use Rattle.std.specs.Prelude.{◌≡◌, ◌<◌, ◌≤◌, ◌^◌, List, [], ◌∷◌, None, IfOk};
ghost use Rattle.core.specs.Mem.Slots.{lease_ptr, lease_len};
ghost use Rattle.seize_seats.specs.Seats.Errands.{RenewsTo, RenewsFrom, RenewsInto};
ghost use Rattle.seize_seats.specs.Seats.Start.{WasIdle, WasKnown};
ghost use Rattle.seize_seats.specs.Seats.State.{Starts};
ghost use Rattle.seize_seats.specs.Seats.Lines.{whole};
ghost use Rattle.seize_seats.specs.Seats.Owned.{IsLike};

use crate::blocks::{Blocks, MOST};
use seize_atoms::{Bequest, Rule, Seat, StripWords};
use seize_seats::{
    Doors, Ground, Kept, ValuePlaces, clear, clear_rooms, drain, give_back, lay, lay_doors,
    lay_empty,
};
use std::alloc::{AllocError, Global};

/// How many doors there are: one for each further strip of numbers, and one for each further bucket of slots.
const DOORS: usize = 64;

/// The exponent of the least power of two that is no less than a count.
fn digits_of(count: u64) -> u64
    ensures { result ≤ 32 }
{
    for digits in 0..32 {
        if count <= 1 << digits {
            return digits;
        }
    }
    32
}

/// The power of two of an exponent.
fn power(digits: u64) -> u64
    requires { digits ≤ 32 }
    ensures { (result ≡ 2 ^ digits) × (0 < result) × (result ≤ 2 ^ 32) }
{
    1 << digits
}

/// A memory with the right to give its words and places back. It stays with the thread that made it, and lends the memory to others.
pub struct Home<T: Drop, R: Rule<T>> {
    pub blocks: Blocks<T, R>,
    ground: Ground<u64>,
    places: Ground<Option<Kept<T>>>,
    doorway: Ground<*mut u64>,
    ghost lies: { (lease_ptr ground.lease ≡ blocks.words.words) × (lease_ptr places.lease ≡ blocks.values.at) × (lease_ptr doorway.lease ≡ blocks.doors.at) },
    ghost size: { (lease_len ground.lease ≡ whole blocks.words.id.roots blocks.words.id.size) × (lease_len places.lease ≡ blocks.words.id.size)
        × (lease_len doorway.lease ≡ 64) },
}

impl<T: Drop, R: Rule<T>> Home<T, R> {
    /// Makes a memory of so many roots, with no seat yet, and numbers for so many blocks at first, up to the next power of two. The slots have no words yet.
    pub fn open(alloc: Global, roots: u64, count: u64, fixed: &R::Fixed) -> Result<Self, AllocError>
        requires few { (roots ≤ 65536) × (count ≤ 2 ^ 32) }
        requires starts { Starts (R.holds fixed.now) roots }
        ensures { IfOk result (λ home. home.blocks.words.fixed ≡ fixed.now) }
    {
        let digits = digits_of(count);
        let count = power(digits);
        let skip = (roots + roots + 32) * 16;
        let long = (skip + count * 5) as usize;
        let (row, ground) = lay(alloc, long)?;
        let (nulls, doorway) = match lay_doors(alloc, DOORS) {
            Ok(laid) => laid,
            Err(refused) => {
                give_back(ground, row.into_slots(long));
                return Err(refused);
            }
        };
        match lay_empty::<Kept<T>>(alloc, count as usize) {
            Ok((empty, places)) => {
                let (words, values, doors) = StripWords::open(
                    row, empty, nulls, roots, count, MOST, fixed,
                );
                let blocks = Blocks {
                    alloc,
                    words,
                    roots,
                    count,
                    last: count - 1,
                    digits,
                    skip,
                    values,
                    doors,
                };
                Ok(Home {
                    blocks,
                    ground,
                    places,
                    doorway,
                })
            }
            Err(refused) => {
                give_back(ground, row.into_slots(long));
                give_back(doorway, nulls.into_slots(DOORS));
                Err(refused)
            }
        }
    }

    /// Ends all seats: what was lent is back. The memory is under another rule from then on, with one seat, which has just come.
    pub fn alone<S: Rule<T>>(self, fixed: &S::Fixed) -> (Home<T, S>, Seat<T, S>)
        requires ends { RenewsTo R.rests (R.holds self.blocks.words.fixed) (S.holds fixed.now) (S.newcomer fixed.now ∷ []) }
        ensures fixed { result.0.blocks.words.fixed ≡ fixed.now }
        ensures comes { (result.1.base ≡ result.0.blocks.words.id.views_name) × (result.1.view ≡ S.newcomer fixed.now) × (result.1.away ≡ None) }
        ensures start { WasIdle R.rests (R.holds self.blocks.words.fixed) result.0.blocks.words.start }
        ensures same { (result.0.blocks.words.words ≡ self.blocks.words.words) × IsLike result.0.blocks.words.id self.blocks.words.id }
    {
        let Home {
            blocks,
            ground,
            places,
            doorway,
        } = self;
        let (blocks, seat) = blocks.alone::<S>(fixed);
        (
            Home {
                blocks,
                ground,
                places,
                doorway,
            },
            seat,
        )
    }

    /// Ends all seats, where it is known what this seat knows: what was lent is back. The memory is under another rule from then on, with no seat.
    pub fn used<S: Rule<T>>(self, seat: Seat<T, R>, fixed: &S::Fixed) -> Home<T, S>
        requires own { seat.base ≡ self.blocks.words.id.views_name }
        requires ends { RenewsFrom R.rests (R.holds self.blocks.words.fixed) (S.holds fixed.now) seat.id seat.view }
        ensures fixed { result.blocks.words.fixed ≡ fixed.now }
        ensures start { WasKnown R.rests (R.holds self.blocks.words.fixed) seat.id seat.view result.blocks.words.start }
        ensures same { (result.blocks.words.words ≡ self.blocks.words.words) × IsLike result.blocks.words.id self.blocks.words.id }
    {
        let Home {
            blocks,
            ground,
            places,
            doorway,
        } = self;
        Home {
            blocks: blocks.used::<S>(seat, fixed),
            ground,
            places,
            doorway,
        }
    }

    /// Ends all seats, where it is known what this seat knows: what was lent is back. The memory is under another rule from then on, with the same seats: this one
    /// comes again, and nobody has the others.
    pub fn inherits<S: Rule<T>, B: Bequest<S::Fixed, R::View, S::View>>(
        self,
        seat: Seat<T, R>,
        fixed: &S::Fixed,
    ) -> (Home<T, S>, Seat<T, S>)
        requires own { seat.base ≡ self.blocks.words.id.views_name }
        requires rests { S.rests (B.heir fixed.now seat.view) × ((v : R.View) → R.rests v → S.rests (B.left fixed.now v)) }
        requires ends { RenewsInto R.rests (R.holds self.blocks.words.fixed) (S.holds fixed.now) seat.id seat.view (B.left fixed.now)
            (B.heir fixed.now seat.view) }
        ensures fixed { result.0.blocks.words.fixed ≡ fixed.now }
        ensures comes { (result.1.base ≡ result.0.blocks.words.id.views_name) × (result.1.id ≡ seat.id) × (result.1.view ≡ B.heir fixed.now seat.view)
            × (result.1.away ≡ None) }
        ensures start { WasKnown R.rests (R.holds self.blocks.words.fixed) seat.id seat.view result.0.blocks.words.start }
        ensures same { (result.0.blocks.words.words ≡ self.blocks.words.words) × IsLike result.0.blocks.words.id self.blocks.words.id }
    {
        let Home {
            blocks,
            ground,
            places,
            doorway,
        } = self;
        let (blocks, heir) = blocks.inherits::<S, B>(seat, fixed);
        (
            Home {
                blocks,
                ground,
                places,
                doorway,
            },
            heir,
        )
    }
}

impl<T: Drop, R: Rule<T>> Drop for Home<T, R> {
    fn drop(self) {
        let Home {
            blocks,
            ground,
            places,
            doorway,
        } = self;
        let Blocks {
            alloc,
            words,
            roots,
            count,
            last: _,
            digits: _,
            skip: _,
            values,
            doors,
        } = blocks;
        let ValuePlaces { at } = values;
        let Doors { at: nulls } = doors;
        let (row, kept, shut, strips, pieces, rooms) = words.close(at, nulls);
        let mut open = shut.into_slots(DOORS);
        clear(&alloc, strips, &mut open, count);
        clear_rooms(&alloc, rooms, &mut open);
        give_back(doorway, open);
        give_back(
            ground,
            row.into_slots(((roots + roots + 32) * 16 + count * 5) as usize),
        );
        let mut slots = kept.into_slots(count as usize);
        drain(&alloc, &mut slots, count as usize, pieces);
        give_back(places, slots);
    }
}

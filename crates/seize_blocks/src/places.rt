//! Where the words and the values of a memory lie.
ghost use Rattle.std.specs.Prelude.{◌≡◌, ℕ, ◌+◌, ◌-◌, ◌*◌, ◌≤◌, ◌<◌, ◌^◌, Some};
ghost use denote.RawPtr.{Ptr, InBlock};
ghost use Rattle.seize_seats.specs.Seats.Lines.{long};
ghost use Rattle.seize_seats.specs.Seats.Owned.{core_of};
ghost use Rattle.seize_seats.specs.Seats.State.{Allows};
ghost use Rattle.seize_seats.specs.Seats.Lendings.{VisibleTo, VisibleToThree};
ghost use Rattle.seize_atoms.specs.Visiting.{HoldsHere};
ghost use Rattle.seize_words.specs.declared.at.At.TheVariants.{Slot, Word};
ghost use Rattle.seize_seats.specs.Plots.Pieces.{lies};
ghost use Rattle.seize_atoms.specs.Placed.{IsItsPlace, IsItsIndex, IsBehind, HasWord};
ghost use Rattle.seize_blocks.specs.Parts.{IsItsNumber};

use crate::access::Access;
use crate::blocks::{Blocks, MOST};
use crate::landing::lands;
use crate::part::{Reached, Spot, places_in, words_in};
use seize_atoms::{Rule, Seat};
use seize_seats::{Beside, Kept, skip_of};
use seize_words::At;

/// The index of a block among all numbers of a memory. As no block is seen that has more digits than these have, it is not asked for more.
#[inline(always)]
fn index_of(block: u64) -> u64
    ensures { IsItsNumber block result }
{
    block.wrapping_sub(1) % MOST
}

impl<T, R: Rule<T>> Blocks<T, R> {
    /// Makes an operation on the word of a name.
    #[inline(always)]
    pub(crate) fn access<A: Access<T, R>>(
        &self,
        seat: &mut Seat<T, R>,
        at: At,
        access: A,
    ) -> A::Answer
        requires own { seat.old.base ≡ self.now.words.id.views_name }
        requires may { Allows (R.holds self.now.words.fixed) R.keeps seat.old.id seat.old.view (A.op access at) (R.then seat.old.view (A.op access at)) }
        ensures same { (seat.new.base ≡ seat.old.base) × (seat.new.id ≡ seat.old.id) }
        ensures errand { seat.new.away ≡ seat.old.away }
        ensures goes { R.then seat.old.view (A.op access at) (A.out result) seat.new.view }
    {
        match at {
            At::Slot(slot, field) if slot >= 32 => self.access_far(seat, slot, field, access),
            _ => self.access_there(seat, at, access),
        }
    }

    /// The same, on a word of a slot behind the first bucket. It is a call of its own, so that an operation on any other word has nothing to save before it.
    #[cold]
    #[inline(never)]
    fn access_far<A: Access<T, R>>(
        &self,
        seat: &mut Seat<T, R>,
        slot: u64,
        field: u64,
        access: A,
    ) -> A::Answer
        requires own { seat.old.base ≡ self.now.words.id.views_name }
        requires may { Allows (R.holds self.now.words.fixed) R.keeps seat.old.id seat.old.view (A.op access (Slot slot field))
            (R.then seat.old.view (A.op access (Slot slot field))) }
        ensures same { (seat.new.base ≡ seat.old.base) × (seat.new.id ≡ seat.old.id) }
        ensures errand { seat.new.away ≡ seat.old.away }
        ensures goes { R.then seat.old.view (A.op access (Slot slot field)) (A.out result) seat.new.view }
    {
        self.access_there(seat, At::Slot(slot, field), access)
    }

    /// The same, on any word, where it is called.
    #[inline(always)]
    fn access_there<A: Access<T, R>>(&self, seat: &mut Seat<T, R>, at: At, access: A) -> A::Answer
        requires own { seat.old.base ≡ self.now.words.id.views_name }
        requires may { Allows (R.holds self.now.words.fixed) R.keeps seat.old.id seat.old.view (A.op access at) (R.then seat.old.view (A.op access at)) }
        ensures same { (seat.new.base ≡ seat.old.base) × (seat.new.id ≡ seat.old.id) }
        ensures errand { seat.new.away ≡ seat.old.away }
        ensures goes { R.then seat.old.view (A.op access at) (A.out result) seat.new.view }
    {
        let reached = self.place_of(seat, at);
        let address = reached.address;
        access.made(
            self.words.by(&reached.strip),
            seat,
            &at,
            address,
            reached.place,
        )
    }

    /// From where an operation on the word of a name is made: by which strip, from which address, and how many words on. Whatever the state is, if the seat
    /// has this view then there is such a word, whose place is known then.
    #[inline(always)]
    pub(crate) fn place_of(&self, seat: &mut Seat<T, R>, at: At) -> Reached<T>
        requires own { seat.old.base ≡ self.now.words.id.views_name }
        requires there { HasWord (R.holds self.now.words.fixed) seat.old.id seat.old.view at }
        ensures same { (seat.new.base ≡ seat.old.base) × (seat.new.id ≡ seat.old.id) × (seat.new.view ≡ seat.old.view) }
        ensures errand { seat.new.away ≡ seat.old.away }
        ensures lies { (core_of result.strip.id ≡ core_of self.now.words.id) × InBlock result.strip.words
            × IsItsPlace (HoldsHere R.rests R.leans (R.holds self.now.words.fixed)) seat.new.id ((seat.new.view, seat.new.visit), seat.new.away)
            result.strip.words result.strip.id at result.address result.place }
    {
        match at {
            At::Root(root) if root < self.roots => self.first_place(root * 16),
            At::Used(root) if root < self.roots => self.first_place((self.roots + root) * 16),
            At::Slot(slot, field) if slot < 32 && field < 2 => {
                self.first_place((self.roots + self.roots + slot) * 16 + field)
            }
            At::Slot(slot, field) if 32 <= slot && slot < 274877906912 && field < 2 => {
                self.slot_place(seat, slot, field)
            }
            At::Entry(block, word) if word < 4 => {
                let spot = self.spot_of(seat, seat, seat, block);
                let words = words_in(&spot.strip);
                let address = words.at;
                Reached {
                    address,
                    place: spot.first + word,
                    strip: spot.strip,
                }
            }
            At::Word(block, own) => self.own_place(seat, block, own),
            _ => self.first_place(0),
        }
    }

    /// The place of a word of the first strip.
    #[inline(always)]
    fn first_place(&self, place: u64) -> Reached<T>
        ensures { (result.strip.id ≡ self.now.words.id) × (result.strip.words ≡ self.now.words.words) × InBlock result.strip.words
            × (result.address ≡ result.strip.words) × (result.place ≡ place) }
    {
        let strip = self.words.strip();
        let words = words_in(&strip);
        let address = words.at;
        Reached {
            strip,
            address,
            place,
        }
    }

    /// The place of a word of a block's own. The seat visits the block.
    fn own_place(&self, seat: &mut Seat<T, R>, block: u64, own: u64) -> Reached<T>
        requires own { seat.old.base ≡ self.now.words.id.views_name }
        requires there { HasWord (R.holds self.now.words.fixed) seat.old.id seat.old.view (Word block own) }
        ensures same { (seat.new.base ≡ seat.old.base) × (seat.new.id ≡ seat.old.id) × (seat.new.view ≡ seat.old.view) }
        ensures errand { seat.new.away ≡ seat.old.away }
        ensures lies { (core_of result.strip.id ≡ core_of self.now.words.id) × InBlock result.strip.words
            × IsItsPlace (HoldsHere R.rests R.leans (R.holds self.now.words.fixed)) seat.new.id ((seat.new.view, seat.new.visit), seat.new.away)
            result.strip.words result.strip.id (Word block own) result.address result.place }
    {
        self.words.visit(seat, block);
        let spot = self.spot_of(seat, seat, seat, block);
        let beside = self.beside(seat, &spot, block);
        let landing = lands(&beside, own, &spot.strip);
        let address = landing.at;
        Reached {
            strip: spot.strip,
            address,
            place: landing.place,
        }
    }

    /// Where the own words of a block that the seat visits lie, and how many they are.
    pub(crate) fn beside(&self, seat: &Seat<T, R>, spot: &Spot<T>, block: u64) -> Beside
        requires own { seat.now.base ≡ self.now.words.id.views_name }
        requires shown { VisibleTo (R.holds self.now.words.fixed) seat.now.id seat.now.view block }
        requires visits { (s : Ptr × ℕ) × (seat.now.visit.spot ≡ Some (block, s)) }
        requires strip { (core_of spot.now.strip.id ≡ core_of self.now.words.id) × InBlock spot.now.strip.words
            × (spot.now.values ≡ spot.now.strip.id.values) × IsItsIndex spot.now.strip.id block spot.now.index }
        ensures { seat.now.visit.spot ≡ Some (block, (result.at, result.count)) }
    {
        let values = spot.values;
        match self
            .words
            .value(&spot.strip, seat, seat, block, spot.index, values)
        {
            Some(kept) => {
                let at = kept.at;
                Beside {
                    at,
                    count: kept.count,
                }
            }
            None => unreachable!(),
        }
    }

    /// Where the words of a number of the first strip lie: the first of them.
    #[inline(always)]
    fn first_of(&self, index: u64) -> u64
        requires { index ≤ 2 ^ 32 }
        ensures { result ≡ index * 5 + long self.now.words.id.roots }
    {
        index * 5 + self.skip
    }

    /// Behind which door the strip of a number is, how many numbers come before those of the strip, and the number's index among these: those whose highest
    /// binary digit is the number's are one strip, and the digits that follow are the index.
    #[inline(always)]
    pub(crate) fn door_of(&self, index: u64) -> (u64, u64, u64)
        requires { (self.now.words.id.least ≤ index) × (index < 2 ^ 32) }
        ensures door { IsBehind self.now.words.id.least index result.0 result.1 }
        ensures index { result.2 ≡ index - result.1 }
        ensures half { result.1 + result.1 ≤ 2 ^ 32 }
    {
        let top = 63 - index.leading_zeros();
        let first = 1 << top;
        (top as u64 - self.digits, first, index ^ first)
    }

    /// Where a block of the first strip is.
    #[inline(always)]
    pub(crate) fn near_spot(&self, index: u64) -> Spot<T>
        requires { index ≤ 2 ^ 32 }
        ensures strip { (result.strip.id ≡ self.now.words.id) × (core_of result.strip.id ≡ core_of self.now.words.id) × InBlock result.strip.words
            × (result.values ≡ result.strip.id.values) }
        ensures index { result.index ≡ index }
        ensures words { result.first ≡ result.index * 5 + long result.strip.id.roots }
    {
        Spot {
            strip: self.words.strip(),
            values: self.values.at,
            index,
            first: self.first_of(index),
        }
    }

    /// Where a block is: in which strip, its index there, and where the first of its words lies. The views of three seats show the block.
    #[inline(always)]
    pub(crate) fn spot_of(
        &self,
        pass: &Seat<T, R>,
        guard: &Seat<T, R>,
        owner: &Seat<T, R>,
        block: u64,
    ) -> Spot<T>
        requires own { (pass.now.base ≡ self.now.words.id.views_name) × (guard.now.base ≡ self.now.words.id.views_name)
            × (owner.now.base ≡ self.now.words.id.views_name) }
        requires shown { VisibleToThree (R.holds self.now.words.fixed) pass.now.id pass.now.view guard.now.id guard.now.view owner.now.id owner.now.view block }
        ensures strip { (core_of result.strip.id ≡ core_of self.now.words.id) × InBlock result.strip.words × (result.values ≡ result.strip.id.values) }
        ensures index { IsItsIndex result.strip.id block result.index × (result.index < 2 ^ 32) }
        ensures words { (result.first ≡ result.index * 5 + result.strip.id.skip) × (result.first + 4 < 2 ^ 60) }
    {
        let index = index_of(block);
        if index <= self.last {
            return self.near_spot(index);
        }
        self.far_spot_of(pass, guard, owner, block, index)
    }

    /// The same, of a block whose number lies behind a door.
    #[inline(always)]
    fn far_spot_of(
        &self,
        pass: &Seat<T, R>,
        guard: &Seat<T, R>,
        owner: &Seat<T, R>,
        block: u64,
        number: u64,
    ) -> Spot<T>
        requires far { (self.now.words.id.least ≤ number) × IsItsNumber block number }
        requires own { (pass.now.base ≡ self.now.words.id.views_name) × (guard.now.base ≡ self.now.words.id.views_name)
            × (owner.now.base ≡ self.now.words.id.views_name) }
        requires shown { VisibleToThree (R.holds self.now.words.fixed) pass.now.id pass.now.view guard.now.id guard.now.view owner.now.id owner.now.view block }
        ensures strip { (core_of result.strip.id ≡ core_of self.now.words.id) × InBlock result.strip.words × (result.values ≡ result.strip.id.values) }
        ensures index { IsItsIndex result.strip.id block result.index × (result.index < 2 ^ 32) }
        ensures words { (result.first ≡ result.index * 5 + result.strip.id.skip) × (result.first + 4 < 2 ^ 60) }
    {
        let (door, first, index) = self.door_of(number);
        let strip = self
            .words
            .find(pass, guard, owner, block, self.doors.at, door);
        let place = places_in(&strip);
        let values = place.at;
        let skip = skip_of::<Kept<T>>(first as usize) as u64;
        Spot {
            strip,
            values,
            index,
            first: index * 5 + skip,
        }
    }
}

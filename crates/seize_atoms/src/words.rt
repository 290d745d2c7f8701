//! The words, and what one step of a seat does to them: one atomic operation on a word, or none. And the doors behind which further strips lie.
ghost use Rattle.std.specs.Prelude.{◌≡◌, ℕ, ◌+◌, ◌-◌, ◌*◌, ◌^◌, ◌<◌, ◌≤◌, Some, None, true, Ok, Err, IfErr};
ghost use Rattle.std.specs.Prelude.{length, map, replicate, take, slice_index, slice_index_or};
ghost use denote.RawPtr.{InBlock, Testable, null_ptr};
ghost use Rattle.core.specs.Mem.Slots.Ownership.{Filled};
ghost use Rattle.seize_words.specs.OneMemory.Op.{Load, Store, Swap, Add, Or, Exchange, Make, Take, Rewrite, Found, Stored, Exchanged, Made, Taken};
ghost use Rattle.seize_seats.specs.Seats.State.{Allows, Owns, Turns, Learns, Comes, Meets, Starts};
ghost use Rattle.seize_seats.specs.Seats.Lines.{whole};
ghost use Rattle.seize_seats.specs.Seats.Doors.{before, block_bytes, words_from, IsFurther, AreBehind};
ghost use Rattle.seize_seats.specs.Seats.Lendings.{VisibleTo, VisibleToThree, IsValueOf};
ghost use Rattle.seize_words.specs.OneMemory.Mem.{Mem};
ghost use Rattle.seize_seats.specs.Seats.Start.{memory_coded, bare};
ghost use Rattle.seize_seats.specs.Seats.Owned.{BaseId, base_id_coded, core_of, stride, IsFirst, words_own, words_share};
ghost use Rattle.seize_seats.specs.Seats.Visits.{Spot};
ghost use Rattle.seize_seats.specs.Seats.Errands.{MayGo, MayLean, MayMeet, MayLeanBoth, TurnsUnlent};
ghost use Rattle.seize_seats.specs.Plots.Pieces.{kept_words, lies, spot_of, AreBucketsBehind};
ghost use Rattle.seize_seats.specs.declared.kept.Kept.{Kept};
ghost use Rattle.seize_seats.specs.contracts.kept.Kept.{the_row as KeptOf};
ghost use Rattle.seize_atoms.specs.Visiting.{seat_coded, HoldsHere, HoldsSince};
ghost use Rattle.seize_atoms.specs.Placed.{IsItsPlace, IsItsSign, IsItsIndex};
ghost use Rattle.seize_seats.specs.Seats.Plots.{HasFirst};

use crate::claim::Claim;
use crate::rule::{Lesson, Meeting, Rule, Turn};
use crate::seat::Seat;
use crate::strip::Strip;
use seize_seats::{Doors, Kept, OwnedStrips, Piece, Pieces, Row, StripRight, ValuePlaces};
use seize_words::At;
use std::alloc::Global;
use std::marker::{Brand, Model, PhantomData};
use std::ptr::null_mut;
use std::sync::atomic::Ordering::SeqCst;
use std::sync::atomic::raw;

/// Words, and places for values, by one strip of the numbers of a memory. `start` is what the memory was as its present lifetime began.
pub struct StripWords<T, R: Rule<T>> {
    pub words: *mut u64,
    pub(crate) marker: PhantomData<(T, R)>,
    pub ghost id: { BaseId } by { base_id_coded },
    pub ghost fixed: { R.Fixed } by { R.Fixed.code },
    pub ghost start: { Mem T } by { memory_coded T.code },
}

impl<T, R: Rule<T>> Model for StripWords<T, R> {
    ghost also_owns = { λ s. words_own (KeptOf T.row) kept_words (seat_coded R.View.row.coded) (HoldsSince R.rests R.leans s.start (R.holds s.fixed) R.keeps) s.words s.id };

    ghost also_shares = { λ s _ κ. words_share (KeptOf T.row) kept_words (seat_coded R.View.row.coded) (HoldsSince R.rests R.leans s.start (R.holds s.fixed) R.keeps) s.words s.id κ };
}

impl<T, R: Rule<T>> StripWords<T, R> {
    /// Puts the words, each 0, of so many roots under the rule, with places for so many values, each of them empty. There are `most` numbers at most.
    pub fn open(
        row: Row<u64>,
        values: Row<Option<Kept<T>>>,
        doors: Row<*mut u64>,
        _roots: u64,
        _count: u64,
        _most: u64,
        fixed: &R::Fixed,
    ) -> (Self, ValuePlaces<T>, Doors)
        requires { ((k : ℕ) → slice_index row.items k ≡ 0) × (length row.items ≡ whole _roots _count) × Starts (R.holds fixed.now) _roots
            × ((k : ℕ) → slice_index_or values.items k None ≡ None) × (length values.items ≡ _count)
            × ((k : ℕ) → slice_index_or doors.items k null_ptr ≡ null_ptr) × (length doors.items ≡ 64)
            × (_count ≤ _most) × Filled row.filled 0 (length row.items) × Filled values.filled 0 (length values.items)
            × Filled doors.filled 0 (length doors.items) }
        ensures { (result.0.words ≡ row.at) × (result.0.id.roots ≡ _roots) × (result.0.id.count ≡ _most) × (result.0.id.values ≡ values.at)
            × (result.0.id.size ≡ _count) × (result.0.id.least ≡ _count) × (result.0.id.doors ≡ doors.at) × IsFirst row.at result.0.id
            × (result.0.fixed ≡ fixed.now) × (result.1.at ≡ values.at) × (result.2.at ≡ doors.at) × (result.0.start ≡ bare _roots) }
    {
        let Row { at } = row;
        let Row { at: places } = values;
        let Row { at: shut } = doors;
        (
            StripWords {
                words: at,
                marker: PhantomData,
            },
            ValuePlaces { at: places },
            Doors { at: shut },
        )
    }

    /// Returns the words, the values and the doors come back from under the rule, all further strips, the own words of blocks, and the words of further buckets
    /// of slots.
    pub fn close(
        self,
        values: *mut Option<Kept<T>>,
        doors: *mut *mut u64,
    ) -> (
        Row<u64>,
        Row<Option<Kept<T>>>,
        Row<*mut u64>,
        OwnedStrips<T>,
        Pieces,
        Pieces,
    )
        requires { (values ≡ self.id.values) × (doors ≡ self.id.doors) × IsFirst self.words self.id }
        ensures { (result.0.at ≡ self.words) × (length result.0.items ≡ whole self.id.roots self.id.size) × (result.1.at ≡ values)
            × (length result.1.items ≡ self.id.size) × (result.2.at ≡ doors) × (length result.2.items ≡ 64)
            × Filled result.0.filled 0 (length result.0.items) × Filled result.1.filled 0 (length result.1.items)
            × Filled result.2.filled 0 (length result.2.items) × AreBehind (IsFurther (KeptOf T.row) self.id.least) 0 result.3.strips (take 32 result.2.items)
            × (result.4.spots ≡ map spot_of result.1.items) × AreBucketsBehind 32 result.5.spots result.2.items }
    {
        let StripWords { words, marker: _ } = self;
        (
            Row { at: words },
            Row { at: values },
            Row { at: doors },
            OwnedStrips {
                marker: PhantomData,
            },
            Pieces {
                marker: PhantomData,
            },
            Pieces {
                marker: PhantomData,
            },
        )
    }

    /// Makes a seat more.
    pub fn seat(&self) -> Seat<T, R>
        requires { Comes (R.holds self.now.fixed) R.keeps (R.newcomer self.now.fixed) }
        ensures { (result.base ≡ self.now.id.views_name) × (result.view ≡ R.newcomer self.now.fixed) × (result.away ≡ None) }
    {
        Seat {
            marker: PhantomData,
        }
    }

    /// Takes a step without an operation.
    pub fn turn<M: Turn<R::Fixed, R::View>>(&self, seat: &mut Seat<T, R>)
        requires { (seat.old.base ≡ self.now.id.views_name)
            × Turns (R.holds self.now.fixed) R.keeps seat.old.id seat.old.view (M.to self.now.fixed seat.old.view)
            × MayGo R.rests seat.old.away seat.old.view (M.to self.now.fixed seat.old.view)
            × MayLean R.leans seat.old.away seat.old.view (M.to self.now.fixed seat.old.view) }
        ensures { (seat.new.base ≡ seat.old.base) × (seat.new.id ≡ seat.old.id) × (seat.new.away ≡ seat.old.away) × M.to self.now.fixed seat.old.view seat.new.view }
    {}

    /// Takes a step without an operation, of a seat on which nobody leans.
    pub fn part<M: Turn<R::Fixed, R::View>>(&self, seat: &mut Seat<T, R>)
        requires { (seat.old.base ≡ self.now.id.views_name)
            × TurnsUnlent (R.holds self.now.fixed) R.keeps R.leans seat.old.id seat.old.view (M.to self.now.fixed seat.old.view)
            × MayGo R.rests seat.old.away seat.old.view (M.to self.now.fixed seat.old.view)
            × MayLean R.leans seat.old.away seat.old.view (M.to self.now.fixed seat.old.view) }
        ensures { (seat.new.base ≡ seat.old.base) × (seat.new.id ≡ seat.old.id) × (seat.new.away ≡ seat.old.away) × M.to self.now.fixed seat.old.view seat.new.view }
    {}

    /// Lets a seat come to know something else, by what another one knows.
    pub fn learn<M: Lesson<R::Fixed, R::View>>(&self, seat: &mut Seat<T, R>, other: &Seat<T, R>)
        requires { (seat.old.base ≡ self.now.id.views_name) × (other.now.base ≡ self.now.id.views_name)
            × Learns (R.holds self.now.fixed) R.keeps seat.old.id seat.old.view other.now.id other.now.view
            (M.to self.now.fixed seat.old.view other.now.id other.now.view)
            × MayGo R.rests seat.old.away seat.old.view (M.to self.now.fixed seat.old.view other.now.id other.now.view)
            × MayLean R.leans seat.old.away seat.old.view (M.to self.now.fixed seat.old.view other.now.id other.now.view) }
        ensures { (seat.new.base ≡ seat.old.base) × (seat.new.id ≡ seat.old.id) × (seat.new.away ≡ seat.old.away)
            × M.to self.now.fixed seat.old.view other.now.id other.now.view seat.new.view }
    {}

    /// Lets two seats come to know something else, by what both knew.
    pub fn meet<M: Meeting<R::Fixed, R::View>>(&self, one: &mut Seat<T, R>, other: &mut Seat<T, R>)
        requires { (one.old.base ≡ self.now.id.views_name) × (other.old.base ≡ self.now.id.views_name)
            × Meets (R.holds self.now.fixed) one.old.id one.old.view other.old.id other.old.view (M.to self.now.fixed one.old.view other.old.view)
            × MayMeet R.rests one.old.away one.old.view other.old.away other.old.view (M.to self.now.fixed one.old.view other.old.view)
            × MayLeanBoth R.leans one.old.away one.old.view other.old.away other.old.view (M.to self.now.fixed one.old.view other.old.view) }
        ensures { (one.new.base ≡ one.old.base) × (one.new.id ≡ one.old.id) × (other.new.base ≡ other.old.base) × (other.new.id ≡ other.old.id)
            × (one.new.away ≡ one.old.away) × (other.new.away ≡ other.old.away)
            × M.to self.now.fixed one.old.view other.old.view one.new.view other.new.view }
    {}

    /// Returns the strip by which these words are had.
    pub fn strip(&self) -> Strip<T>
        ensures { (result.words ≡ self.now.words) × (result.id ≡ self.now.id) × InBlock result.words }
    {
        Strip {
            words: self.words,
            marker: PhantomData,
        }
    }

    /// Returns the strip behind a door, or no address where the door is null.
    pub fn look(&self, doors: *mut *mut u64, index: u64) -> Strip<T>
        requires { (doors ≡ self.now.id.doors) × (index < 32) }
        ensures { (core_of result.id ≡ core_of self.now.id) × (result.id.skip ≡ before (KeptOf T.row) result.id.size)
            × (result.id.values ≡ result.words)
            × (result.id.first ≡ self.now.id.least * 2 ^ index) × (result.id.size ≡ result.id.first)
            × (result.id.place ≡ index + 1) × Testable result.words
            × (InBlock result.words → ((result.id.skip + result.id.size * 5) * 8 < 2 ^ 63) × (result.id.size * stride (KeptOf T.row) < 2 ^ 63)) }
    {
        let words = unsafe { raw::ptr::load::<u64, Brand>(doors.add(index as usize), SeqCst) };
        Strip {
            words,
            marker: PhantomData,
        }
    }

    /// Puts a further strip behind a door that is null. Whoever finds it set has the strip back, which lies there.
    pub fn offer(
        &self,
        last: &Strip<T>,
        doors: *mut *mut u64,
        index: u64,
        places: Row<Option<Kept<T>>>,
        words: Row<u64>,
        deed: StripRight<Kept<T>, Global>,
    ) -> (Result<*mut u64, *mut u64>, ValuePlaces<T>, OwnedStrips<T>)
        requires { (core_of last.now.id ≡ core_of self.now.id) × InBlock last.now.words × (last.now.id.place ≡ index)
            × (last.now.id.first + last.now.id.size ≡ deed.count) × (deed.count ≡ self.now.id.least * 2 ^ index)
            × (deed.count + deed.count ≤ self.now.id.count) × (doors ≡ self.now.id.doors) × (index < 32)
            × (deed.at ≡ places.at) × InBlock places.at × (words.at ≡ words_from (KeptOf T.row) deed.count places.at)
            × (length places.items ≡ deed.count) × (length words.items ≡ deed.count * 5)
            × Filled places.filled 0 (length places.items) × Filled words.filled 0 (length words.items)
            × ((k : ℕ) → slice_index_or places.items k None ≡ None) × ((k : ℕ) → slice_index words.items k ≡ 0)
            × (block_bytes (KeptOf T.row) deed.count < 2 ^ 63) }
        ensures { IfErr result.0 (λ _. HasFirst (KeptOf T.row) result.1.at deed.count result.2.strips × (result.2.fresh ≡ true)) }
    {
        let StripRight { marker: _ } = deed;
        let Row { at } = places;
        let Row { at: _ } = words;
        let found = unsafe {
            raw::ptr::compare_exchange::<u64, Brand>(
                doors.add(index as usize),
                null_mut(),
                at as *mut u64,
                SeqCst,
                SeqCst,
            )
        };
        (
            found,
            ValuePlaces { at },
            OwnedStrips {
                marker: PhantomData,
            },
        )
    }

    /// Returns the strip behind a door, that of a block which the views of three seats show together. These are the words of the first strip.
    pub fn find(
        &self,
        pass: &Seat<T, R>,
        guard: &Seat<T, R>,
        owner: &Seat<T, R>,
        _block: u64,
        doors: *mut *mut u64,
        index: u64,
    ) -> Strip<T>
        requires { (pass.now.base ≡ self.now.id.views_name) × (guard.now.base ≡ self.now.id.views_name) × (owner.now.base ≡ self.now.id.views_name)
            × (doors ≡ self.now.id.doors) × (index < 32) × (self.now.id.place ≡ 0) × (self.now.id.size ≡ self.now.id.least)
            × (0 < _block → self.now.id.least * 2 ^ index ≤ _block - 1)
            × VisibleToThree (R.holds self.now.fixed) pass.now.id pass.now.view guard.now.id guard.now.view owner.now.id owner.now.view _block }
        ensures { (core_of result.id ≡ core_of self.now.id) × (result.id.skip ≡ before (KeptOf T.row) result.id.size)
            × (result.id.values ≡ result.words)
            × (result.id.first ≡ self.now.id.least * 2 ^ index) × (result.id.size ≡ result.id.first) × InBlock result.words
            × ((result.id.skip + result.id.size * 5) * 8 < 2 ^ 63) × (result.id.size * stride (KeptOf T.row) < 2 ^ 63) }
    {
        let words = unsafe { raw::ptr::load::<u64, Brand>(doors.add(index as usize), SeqCst) };
        Strip {
            words,
            marker: PhantomData,
        }
    }

    /// Returns the words of a strip of the same memory, for as long as both are borrowed. A strip is laid out as they are: both are one address.
    pub fn by<'g>(&'g self, strip: &'g Strip<T>) -> &'g StripWords<T, R>
        requires { (core_of strip.now.id ≡ core_of self.now.id) × InBlock strip.now.words }
        ensures { (result.now.words ≡ strip.now.words) × (result.now.id ≡ strip.now.id) × (result.now.fixed ≡ self.now.fixed)
            × (strip.now.id.views_name ≡ self.now.id.views_name) × (strip.now.id.hands_name ≡ self.now.id.hands_name) }
    {
        unsafe { &*(strip as *const Strip<T> as *const StripWords<T, R>) }
    }

    /// Tries to claim a number, whose sign lies at this place: it was free where 0 is found.
    pub fn claim(&self, _index: u64, place: u64) -> (u64, Claim)
        requires { IsItsSign self.now.id _index place }
        ensures { (result.1.base ≡ self.now.id.hands_name) × (result.1.index ≡ _index) × (result.1.found ≡ result.0) }
    {
        let found = unsafe { raw::swap::<Brand>(self.words.add(place as usize), 1, SeqCst) };
        (found, Claim { found })
    }

    /// Makes a block of a value with words of its own, each 0, under a number that was claimed: the index-th of these.
    pub fn put(
        &self,
        seat: &mut Seat<T, R>,
        claim: Claim,
        index: u64,
        values: *mut Option<Kept<T>>,
        kept: Kept<T>,
        piece: Piece,
    )
        requires { (seat.old.base ≡ self.now.id.views_name) × (claim.base ≡ self.now.id.hands_name) × (claim.found ≡ 0) × (claim.index ≡ self.now.id.first + index)
            × (index < self.now.id.size) × (self.now.id.first + index + 1 < 2 ^ 53) × (values ≡ self.now.id.values)
            × (piece.at ≡ kept.at) × (piece.count ≡ kept.count) × (piece.words ≡ replicate kept.count 0)
            × Allows (R.holds self.now.fixed) R.keeps seat.old.id seat.old.view (Make kept.value kept.count) (R.then seat.old.view (Make kept.value kept.count)) }
        ensures { (seat.new.base ≡ seat.old.base) × (seat.new.id ≡ seat.old.id) × (seat.new.away ≡ seat.old.away)
            × R.then seat.old.view (Make kept.value kept.count) (Made (Ok (self.now.id.first + index + 1))) seat.new.view }
    {
        let Claim { found: _ } = claim;
        let Piece { marker: _ } = piece;
        unsafe { values.add(index as usize).write(Some(kept)) }
    }

    /// Takes a block away, and answers its value, with its own words. The index is that of its number, if there is such a block, and the others of its words lie
    /// at these places.
    pub fn take(
        &self,
        seat: &mut Seat<T, R>,
        block: u64,
        index: u64,
        values: *mut Option<Kept<T>>,
        first: u64,
        second: u64,
        third: u64,
        fourth: u64,
        sign: u64,
    ) -> (Option<Kept<T>>, Piece)
        requires { (seat.old.base ≡ self.now.id.views_name) × IsItsIndex self.now.id block index
            × (values ≡ self.now.id.values)
            × (first ≡ index * 5 + self.now.id.skip) × (second ≡ first + 1) × (third ≡ first + 2) × (fourth ≡ first + 3) × (sign ≡ first + 4)
            × (sign < 2 ^ 60)
            × Allows (R.holds self.now.fixed) R.keeps seat.old.id seat.old.view (Take block) (R.then seat.old.view (Take block)) }
        ensures { (seat.new.base ≡ seat.old.base) × (seat.new.id ≡ seat.old.id) × (seat.new.away ≡ seat.old.away) × ((x : Kept T) × (result.0 ≡ Some x)
            × (result.1.at ≡ x.at) × (result.1.count ≡ x.count) × R.then seat.old.view (Take block) (Taken x.value) seat.new.view) }
    {
        unsafe {
            let words = self.words;
            let place = values.add(index as usize);
            let value = place.read();
            place.write(None);
            words.add(first as usize).write(0);
            words.add(second as usize).write(0);
            words.add(third as usize).write(0);
            words.add(fourth as usize).write(0);
            raw::store::<Brand>(words.add(sign as usize), 0, SeqCst);
            (
                value,
                Piece {
                    marker: PhantomData,
                },
            )
        }
    }

    /// Replaces the value of a block that the seat has to itself, and answers the one before. The index is that of its number, if there is such a block. The seat
    /// knows that the own words of the block lie where they are said to lie.
    pub fn rewrite(
        &self,
        seat: &mut Seat<T, R>,
        block: u64,
        index: u64,
        values: *mut Option<Kept<T>>,
        kept: Kept<T>,
    ) -> Option<Kept<T>>
        requires { (seat.old.base ≡ self.now.id.views_name) × IsItsIndex self.now.id block index
            × (values ≡ self.now.id.values)
            × ((x : Kept T) → IsValueOf (HoldsHere R.rests R.leans (R.holds self.now.fixed)) seat.old.id ((seat.old.view, seat.old.visit), seat.old.away) block x → lies x ≡ lies kept)
            × Owns (R.holds self.now.fixed) R.keeps seat.old.id seat.old.view block
            × Allows (R.holds self.now.fixed) R.keeps seat.old.id seat.old.view (Rewrite block kept.value) (R.then seat.old.view (Rewrite block kept.value)) }
        ensures { (seat.new.base ≡ seat.old.base) × (seat.new.id ≡ seat.old.id) × (seat.new.away ≡ seat.old.away)
            × ((x : Kept T) × (result ≡ Some x) × R.then seat.old.view (Rewrite block kept.value) (Taken x.value) seat.new.view) }
    {
        unsafe {
            let before = values.add(index as usize).read();
            values.add(index as usize).write(Some(kept));
            before
        }
    }

    /// Begins a visit of a seat to a block that its view shows: it knows where its own words lie, and how many they are, until its next step.
    pub fn visit(&self, seat: &mut Seat<T, R>, _block: u64)
        requires { (seat.old.base ≡ self.now.id.views_name) × VisibleTo (R.holds self.now.fixed) seat.old.id seat.old.view _block }
        ensures { (seat.new.base ≡ seat.old.base) × (seat.new.id ≡ seat.old.id) × (seat.new.away ≡ seat.old.away)
            × (seat.new.view ≡ seat.old.view) × ((spot : Spot) × (seat.new.visit.spot ≡ Some (_block, spot))) }
    {}

    /// Refuses a block: its value stays with its maker.
    pub fn refuse(&self, seat: &mut Seat<T, R>, value: &T, words: u64)
        requires { (seat.old.base ≡ self.now.id.views_name)
            × Allows (R.holds self.now.fixed) R.keeps seat.old.id seat.old.view (Make value.now words) (R.then seat.old.view (Make value.now words)) }
        ensures { (seat.new.base ≡ seat.old.base) × (seat.new.id ≡ seat.old.id) × (seat.new.away ≡ seat.old.away)
            × R.then seat.old.view (Make value.now words) (Made (Err value.now)) seat.new.view }
    {}

    /// Reads the word of a name, which lies so many words on from this address.
    pub fn load(&self, seat: &mut Seat<T, R>, at: &At, address: *mut u64, place: u64) -> u64
        requires { (seat.old.base ≡ self.now.id.views_name)
            × IsItsPlace (HoldsHere R.rests R.leans (R.holds self.now.fixed)) seat.old.id ((seat.old.view, seat.old.visit), seat.old.away)
            self.now.words self.now.id at.now address place
            × Allows (R.holds self.now.fixed) R.keeps seat.old.id seat.old.view (Load at.now) (R.then seat.old.view (Load at.now)) }
        ensures { (seat.new.base ≡ seat.old.base) × (seat.new.id ≡ seat.old.id) × (seat.new.away ≡ seat.old.away)
            × R.then seat.old.view (Load at.now) (Found result) seat.new.view }
    {
        unsafe { raw::load::<Brand>(address.add(place as usize), SeqCst) }
    }

    /// Writes the word of a name.
    pub fn store(&self, seat: &mut Seat<T, R>, at: &At, address: *mut u64, place: u64, word: u64)
        requires { (seat.old.base ≡ self.now.id.views_name)
            × IsItsPlace (HoldsHere R.rests R.leans (R.holds self.now.fixed)) seat.old.id ((seat.old.view, seat.old.visit), seat.old.away)
            self.now.words self.now.id at.now address place
            × Allows (R.holds self.now.fixed) R.keeps seat.old.id seat.old.view (Store at.now word) (R.then seat.old.view (Store at.now word)) }
        ensures { (seat.new.base ≡ seat.old.base) × (seat.new.id ≡ seat.old.id) × (seat.new.away ≡ seat.old.away)
            × R.then seat.old.view (Store at.now word) Stored seat.new.view }
    {
        unsafe { raw::store::<Brand>(address.add(place as usize), word, SeqCst) }
    }

    /// Writes the word of a name, and answers the one before.
    pub fn swap(
        &self,
        seat: &mut Seat<T, R>,
        at: &At,
        address: *mut u64,
        place: u64,
        word: u64,
    ) -> u64
        requires { (seat.old.base ≡ self.now.id.views_name)
            × IsItsPlace (HoldsHere R.rests R.leans (R.holds self.now.fixed)) seat.old.id ((seat.old.view, seat.old.visit), seat.old.away)
            self.now.words self.now.id at.now address place
            × Allows (R.holds self.now.fixed) R.keeps seat.old.id seat.old.view (Swap at.now word) (R.then seat.old.view (Swap at.now word)) }
        ensures { (seat.new.base ≡ seat.old.base) × (seat.new.id ≡ seat.old.id) × (seat.new.away ≡ seat.old.away)
            × R.then seat.old.view (Swap at.now word) (Found result) seat.new.view }
    {
        unsafe { raw::swap::<Brand>(address.add(place as usize), word, SeqCst) }
    }

    /// Adds to the word of a name, round at 2^64, and answers the one before.
    pub fn add(&self, seat: &mut Seat<T, R>, at: &At, address: *mut u64, place: u64, by: u64) -> u64
        requires { (seat.old.base ≡ self.now.id.views_name)
            × IsItsPlace (HoldsHere R.rests R.leans (R.holds self.now.fixed)) seat.old.id ((seat.old.view, seat.old.visit), seat.old.away)
            self.now.words self.now.id at.now address place
            × Allows (R.holds self.now.fixed) R.keeps seat.old.id seat.old.view (Add at.now by) (R.then seat.old.view (Add at.now by)) }
        ensures { (seat.new.base ≡ seat.old.base) × (seat.new.id ≡ seat.old.id) × (seat.new.away ≡ seat.old.away)
            × R.then seat.old.view (Add at.now by) (Found result) seat.new.view }
    {
        unsafe { raw::fetch_add::<Brand>(address.add(place as usize), by, SeqCst) }
    }

    /// Sets bits of the word of a name, and answers the one before.
    pub fn or(
        &self,
        seat: &mut Seat<T, R>,
        at: &At,
        address: *mut u64,
        place: u64,
        bits: u64,
    ) -> u64
        requires { (seat.old.base ≡ self.now.id.views_name)
            × IsItsPlace (HoldsHere R.rests R.leans (R.holds self.now.fixed)) seat.old.id ((seat.old.view, seat.old.visit), seat.old.away)
            self.now.words self.now.id at.now address place
            × Allows (R.holds self.now.fixed) R.keeps seat.old.id seat.old.view (Or at.now bits) (R.then seat.old.view (Or at.now bits)) }
        ensures { (seat.new.base ≡ seat.old.base) × (seat.new.id ≡ seat.old.id) × (seat.new.away ≡ seat.old.away)
            × R.then seat.old.view (Or at.now bits) (Found result) seat.new.view }
    {
        unsafe { raw::fetch_or::<Brand>(address.add(place as usize), bits, SeqCst) }
    }

    /// Writes a new word where the old one, the whole word, is found, and answers the word found: `Ok` where it was written.
    pub fn exchange(
        &self,
        seat: &mut Seat<T, R>,
        at: &At,
        address: *mut u64,
        place: u64,
        old: u64,
        new: u64,
    ) -> Result<u64, u64>
        requires { (seat.old.base ≡ self.now.id.views_name)
            × IsItsPlace (HoldsHere R.rests R.leans (R.holds self.now.fixed)) seat.old.id ((seat.old.view, seat.old.visit), seat.old.away)
            self.now.words self.now.id at.now address place
            × Allows (R.holds self.now.fixed) R.keeps seat.old.id seat.old.view (Exchange at.now old new) (R.then seat.old.view (Exchange at.now old new)) }
        ensures { (seat.new.base ≡ seat.old.base) × (seat.new.id ≡ seat.old.id) × (seat.new.away ≡ seat.old.away)
            × R.then seat.old.view (Exchange at.now old new) (Exchanged result) seat.new.view }
    {
        unsafe {
            raw::compare_exchange::<Brand>(address.add(place as usize), old, new, SeqCst, SeqCst)
        }
    }
}

unsafe impl<T: Send + Sync, R: Rule<T>> Send for StripWords<T, R> {}

unsafe impl<T: Send + Sync, R: Rule<T>> Sync for StripWords<T, R> {}

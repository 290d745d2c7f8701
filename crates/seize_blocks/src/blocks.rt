//! The memory as a whole, as those use it who share it.
ghost use Rattle.std.specs.Prelude.{◌≡◌, None, ◌+◌, ◌*◌, ◌≤◌, ◌<◌, ◌^◌};
ghost use Rattle.seize_words.specs.OneMemory.Op.{Load, Store, Swap, Add, Or, Exchange, Make, Take, Rewrite, Found, Stored, Exchanged, Made, Taken};
ghost use Rattle.seize_seats.specs.Seats.State.{Allows, Owns, Turns, Learns, KeptByTwo, AreThere, Comes, Meets};
ghost use Rattle.seize_seats.specs.Seats.Errands.{MayGo, MayLean, MayMeet, MayLeanBoth, TurnsUnlent, RenewsIdle};
ghost use Rattle.seize_seats.specs.Seats.Start.{WasIdle};
ghost use Rattle.seize_seats.specs.Seats.Owned.{IsFirst};
ghost use Rattle.seize_seats.specs.Seats.Lendings.{VisibleTo, VisibleToBoth, IsValueOf, IsValueOfBoth, IsValueBy};

use crate::access::{Adds, Exchanges, Loads, Sets, Stores, Swaps};
use crate::errand::{Charged, Errand, ErrandWith, ErrandWithTwo, Sent, Single};
use seize_atoms::{Lesson, Meeting, Rule, Seat, StripWords, Turn};
use seize_seats::{Doors, Kept, Laid, Piece, ValuePlaces, give_words, lay_words};
use seize_words::At;
use std::alloc::Global;
use std::ptr::null_mut;

/// The most numbers that a memory has.
pub(crate) const MOST: u64 = 4294967296;

/// A memory that threads share under a rule. It has words of roots and slots, and numbers for blocks: a power of two of them in the first strip,
/// and as many again with each further one, which is laid where it is needed. Words of a block's own lie in memory beside it.
pub struct Blocks<T, R: Rule<T>> {
    pub(crate) alloc: Global,
    pub words: StripWords<T, R>,
    pub(crate) roots: u64,
    pub(crate) count: u64,
    pub(crate) last: u64,
    pub(crate) digits: u64,
    pub(crate) skip: u64,
    pub(crate) values: ValuePlaces<T>,
    pub(crate) doors: Doors,
    ghost counted: { (words.id.roots ≡ roots) × (words.id.count ≡ 2 ^ 32) × (words.id.least ≡ count) },
    ghost lies: { (words.id.values ≡ values.at) × (words.id.doors ≡ doors.at) },
    ghost strip: { IsFirst words.words words.id × (words.id.size ≡ count) },
    ghost few: { (roots ≤ 65536) × (0 < count) × (count ≤ 2 ^ 32) },
    ghost ends: { last + 1 ≡ count },
    ghost even: { count ≡ 2 ^ digits },
    ghost skips: { skip ≡ (roots + roots + 32) * 16 },
}

impl<T, R: Rule<T>> Blocks<T, R> {
    /// Makes a seat more.
    pub fn seat(&self) -> Seat<T, R>
        requires { Comes (R.holds self.now.words.fixed) R.keeps (R.newcomer self.now.words.fixed) }
        ensures { (result.base ≡ self.now.words.id.views_name) × (result.view ≡ R.newcomer self.now.words.fixed) × (result.away ≡ None) }
    {
        self.words.seat()
    }

    /// Takes a step without an operation.
    pub fn turn<M: Turn<R::Fixed, R::View>>(&self, seat: &mut Seat<T, R>)
        requires own { seat.old.base ≡ self.now.words.id.views_name }
        requires may { Turns (R.holds self.now.words.fixed) R.keeps seat.old.id seat.old.view (M.to self.now.words.fixed seat.old.view) }
        requires errand { MayGo R.rests seat.old.away seat.old.view (M.to self.now.words.fixed seat.old.view) }
        requires leans { MayLean R.leans seat.old.away seat.old.view (M.to self.now.words.fixed seat.old.view) }
        ensures same { (seat.new.base ≡ seat.old.base) × (seat.new.id ≡ seat.old.id) }
        ensures errand { seat.new.away ≡ seat.old.away }
        ensures goes { M.to self.now.words.fixed seat.old.view seat.new.view }
    {
        self.words.turn::<M>(seat)
    }

    /// Takes a step without an operation, of a seat on which nobody leans.
    pub fn part<M: Turn<R::Fixed, R::View>>(&self, seat: &mut Seat<T, R>)
        requires own { seat.old.base ≡ self.now.words.id.views_name }
        requires may { TurnsUnlent (R.holds self.now.words.fixed) R.keeps R.leans seat.old.id seat.old.view (M.to self.now.words.fixed seat.old.view) }
        requires errand { MayGo R.rests seat.old.away seat.old.view (M.to self.now.words.fixed seat.old.view) }
        requires leans { MayLean R.leans seat.old.away seat.old.view (M.to self.now.words.fixed seat.old.view) }
        ensures same { (seat.new.base ≡ seat.old.base) × (seat.new.id ≡ seat.old.id) }
        ensures errand { seat.new.away ≡ seat.old.away }
        ensures goes { M.to self.now.words.fixed seat.old.view seat.new.view }
    {
        self.words.part::<M>(seat)
    }

    /// Lets a seat come to know something else, by what another one knows.
    pub fn learn<M: Lesson<R::Fixed, R::View>>(&self, seat: &mut Seat<T, R>, other: &Seat<T, R>)
        requires own { (seat.old.base ≡ self.now.words.id.views_name) × (other.now.base ≡ self.now.words.id.views_name) }
        requires may { Learns (R.holds self.now.words.fixed) R.keeps seat.old.id seat.old.view other.now.id other.now.view
            (M.to self.now.words.fixed seat.old.view other.now.id other.now.view) }
        requires errand { MayGo R.rests seat.old.away seat.old.view (M.to self.now.words.fixed seat.old.view other.now.id other.now.view) }
        requires leans { MayLean R.leans seat.old.away seat.old.view (M.to self.now.words.fixed seat.old.view other.now.id other.now.view) }
        ensures same { (seat.new.base ≡ seat.old.base) × (seat.new.id ≡ seat.old.id) }
        ensures errand { seat.new.away ≡ seat.old.away }
        ensures goes { M.to self.now.words.fixed seat.old.view other.now.id other.now.view seat.new.view }
    {
        self.words.learn::<M>(seat, other)
    }

    /// Sends a seat on an errand: a course of steps, in the midst of which nobody has the memory to himself. It ends where the seat rests.
    pub fn errand<E: Errand<T, R>>(&self, seat: &mut Seat<T, R>, errand: E) -> E::Answer
        requires own { seat.old.base ≡ self.now.words.id.views_name }
        requires home { seat.old.away ≡ None }
        requires asks { E.asks errand self.now.words.fixed seat.old.view }
        requires ends { (answer : E.Answer) (w : R.View) → E.did errand self.now.words.fixed seat.old.view answer w → R.rests w }
        ensures same { (seat.new.base ≡ seat.old.base) × (seat.new.id ≡ seat.old.id) }
        ensures home { seat.new.away ≡ None }
        ensures did { E.did errand self.now.words.fixed seat.old.view result seat.new.view }
    {
        self.words.errand(
            seat,
            Sent {
                blocks: self,
                errand,
            },
        )
    }

    /// Sends a seat on an errand for which another one is lent: as long as that runs the other one takes no step, and what is lent by it stays. It ends where
    /// the seat rests.
    pub fn errand_with<E: ErrandWith<T, R>>(
        &self,
        seat: &mut Seat<T, R>,
        lent: &Seat<T, R>,
        errand: E,
    ) -> E::Answer
        requires own { (seat.old.base ≡ self.now.words.id.views_name) × (lent.now.base ≡ self.now.words.id.views_name) }
        requires home { seat.old.away ≡ None }
        requires asks { E.asks errand seat.old.base self.now.words.fixed lent.now.id lent.now.view seat.old.view }
        requires ends { (answer : E.Answer) (w : R.View) → E.did errand self.now.words.fixed seat.old.view answer w → R.rests w }
        ensures same { (seat.new.base ≡ seat.old.base) × (seat.new.id ≡ seat.old.id) }
        ensures home { seat.new.away ≡ None }
        ensures did { E.did errand self.now.words.fixed seat.old.view result seat.new.view }
    {
        self.errand_with_two(seat, lent, lent, Single { errand })
    }

    /// Sends a seat on an errand for which two others are lent, or one twice: as long as that runs they take no step, and what is lent by them stays. It ends
    /// where the seat rests.
    pub fn errand_with_two<E: ErrandWithTwo<T, R>>(
        &self,
        seat: &mut Seat<T, R>,
        one: &Seat<T, R>,
        other: &Seat<T, R>,
        errand: E,
    ) -> E::Answer
        requires own { (seat.old.base ≡ self.now.words.id.views_name) × (one.now.base ≡ self.now.words.id.views_name)
            × (other.now.base ≡ self.now.words.id.views_name) }
        requires home { seat.old.away ≡ None }
        requires asks { E.asks errand seat.old.base self.now.words.fixed one.now.id one.now.view other.now.id other.now.view seat.old.view }
        requires ends { (answer : E.Answer) (w : R.View) → E.did errand self.now.words.fixed seat.old.view answer w → R.rests w }
        ensures same { (seat.new.base ≡ seat.old.base) × (seat.new.id ≡ seat.old.id) }
        ensures home { seat.new.away ≡ None }
        ensures did { E.did errand self.now.words.fixed seat.old.view result seat.new.view }
    {
        self.words.errand_with_two(
            seat,
            one,
            other,
            Charged {
                blocks: self,
                errand,
            },
        )
    }

    /// Lets two seats come to know something else, by what both knew.
    pub fn meet<M: Meeting<R::Fixed, R::View>>(&self, one: &mut Seat<T, R>, other: &mut Seat<T, R>)
        requires own { (one.old.base ≡ self.now.words.id.views_name) × (other.old.base ≡ self.now.words.id.views_name) }
        requires may { Meets (R.holds self.now.words.fixed) one.old.id one.old.view other.old.id other.old.view
            (M.to self.now.words.fixed one.old.view other.old.view) }
        requires errand { MayMeet R.rests one.old.away one.old.view other.old.away other.old.view (M.to self.now.words.fixed one.old.view other.old.view) }
        requires leans { MayLeanBoth R.leans one.old.away one.old.view other.old.away other.old.view (M.to self.now.words.fixed one.old.view other.old.view) }
        ensures same { (one.new.base ≡ one.old.base) × (one.new.id ≡ one.old.id) × (other.new.base ≡ other.old.base) × (other.new.id ≡ other.old.id) }
        ensures errand { (one.new.away ≡ one.old.away) × (other.new.away ≡ other.old.away) }
        ensures goes { M.to self.now.words.fixed one.old.view other.old.view one.new.view other.new.view }
    {
        self.words.meet::<M>(one, other)
    }

    /// Ends all seats: what was lent is back. Words and blocks stay as they are.
    pub fn renew(&mut self)
        requires ends { RenewsIdle R.rests (R.holds self.old.words.fixed) }
        ensures same { (self.new.words.words ≡ self.old.words.words) × (self.new.words.fixed ≡ self.old.words.fixed) }
        ensures names { (self.new.words.id.roots ≡ self.old.words.id.roots) × (self.new.words.id.count ≡ self.old.words.id.count)
            × (self.new.words.id.values ≡ self.old.words.id.values) × (self.new.words.id.doors ≡ self.old.words.id.doors)
            × (self.new.words.id.size ≡ self.old.words.id.size) }
        ensures start { WasIdle R.rests (R.holds self.old.words.fixed) self.new.words.start }
    {
        self.words.renew()
    }

    /// Returns the word of a name.
    #[inline(always)]
    pub fn load(&self, seat: &mut Seat<T, R>, at: At) -> u64
        requires own { seat.old.base ≡ self.now.words.id.views_name }
        requires may { Allows (R.holds self.now.words.fixed) R.keeps seat.old.id seat.old.view (Load at) (R.then seat.old.view (Load at)) }
        ensures same { (seat.new.base ≡ seat.old.base) × (seat.new.id ≡ seat.old.id) }
        ensures errand { seat.new.away ≡ seat.old.away }
        ensures goes { R.then seat.old.view (Load at) (Found result) seat.new.view }
    {
        self.access(seat, at, Loads)
    }

    /// Writes the word of a name.
    #[inline(always)]
    pub fn store(&self, seat: &mut Seat<T, R>, at: At, word: u64)
        requires own { seat.old.base ≡ self.now.words.id.views_name }
        requires may { Allows (R.holds self.now.words.fixed) R.keeps seat.old.id seat.old.view (Store at word) (R.then seat.old.view (Store at word)) }
        ensures same { (seat.new.base ≡ seat.old.base) × (seat.new.id ≡ seat.old.id) }
        ensures errand { seat.new.away ≡ seat.old.away }
        ensures goes { R.then seat.old.view (Store at word) Stored seat.new.view }
    {
        self.access(seat, at, Stores(word))
    }

    /// Writes the word of a name, and answers the one before.
    #[inline(always)]
    pub fn swap(&self, seat: &mut Seat<T, R>, at: At, word: u64) -> u64
        requires own { seat.old.base ≡ self.now.words.id.views_name }
        requires may { Allows (R.holds self.now.words.fixed) R.keeps seat.old.id seat.old.view (Swap at word) (R.then seat.old.view (Swap at word)) }
        ensures same { (seat.new.base ≡ seat.old.base) × (seat.new.id ≡ seat.old.id) }
        ensures errand { seat.new.away ≡ seat.old.away }
        ensures goes { R.then seat.old.view (Swap at word) (Found result) seat.new.view }
    {
        self.access(seat, at, Swaps(word))
    }

    /// Adds to the word of a name, round at 2^64, and answers the one before.
    #[inline(always)]
    pub fn add(&self, seat: &mut Seat<T, R>, at: At, by: u64) -> u64
        requires own { seat.old.base ≡ self.now.words.id.views_name }
        requires may { Allows (R.holds self.now.words.fixed) R.keeps seat.old.id seat.old.view (Add at by) (R.then seat.old.view (Add at by)) }
        ensures same { (seat.new.base ≡ seat.old.base) × (seat.new.id ≡ seat.old.id) }
        ensures errand { seat.new.away ≡ seat.old.away }
        ensures goes { R.then seat.old.view (Add at by) (Found result) seat.new.view }
    {
        self.access(seat, at, Adds(by))
    }

    /// Sets bits of the word of a name, and answers the one before.
    #[inline(always)]
    pub fn or(&self, seat: &mut Seat<T, R>, at: At, bits: u64) -> u64
        requires own { seat.old.base ≡ self.now.words.id.views_name }
        requires may { Allows (R.holds self.now.words.fixed) R.keeps seat.old.id seat.old.view (Or at bits) (R.then seat.old.view (Or at bits)) }
        ensures same { (seat.new.base ≡ seat.old.base) × (seat.new.id ≡ seat.old.id) }
        ensures errand { seat.new.away ≡ seat.old.away }
        ensures goes { R.then seat.old.view (Or at bits) (Found result) seat.new.view }
    {
        self.access(seat, at, Sets(bits))
    }

    /// Writes a new word where the old one, the whole word, is found, and answers the word found: `Ok` where it was written.
    #[inline(always)]
    pub fn exchange(&self, seat: &mut Seat<T, R>, at: At, old: u64, new: u64) -> Result<u64, u64>
        requires own { seat.old.base ≡ self.now.words.id.views_name }
        requires may { Allows (R.holds self.now.words.fixed) R.keeps seat.old.id seat.old.view (Exchange at old new) (R.then seat.old.view (Exchange at old new)) }
        ensures same { (seat.new.base ≡ seat.old.base) × (seat.new.id ≡ seat.old.id) }
        ensures errand { seat.new.away ≡ seat.old.away }
        ensures goes { R.then seat.old.view (Exchange at old new) (Exchanged result) seat.new.view }
    {
        self.access(seat, at, Exchanges { old, new })
    }

    /// Returns where somebody who has this slot begins to look for numbers, so that those of different slots are apart.
    pub fn beginning(&self, slot: u64) -> u64 {
        (self.count / 32).wrapping_mul(slot)
    }

    /// Makes a block of a value and so many words of its own, each 0, and answers its number. Where there is no memory for the words, or no number is free and no
    /// further strip can be laid, the value comes back. A number is looked for from `near` on, which is then where to look for the next one: with one of their
    /// own, those who make blocks don't meet.
    #[inline(always)]
    pub fn make(
        &self,
        seat: &mut Seat<T, R>,
        near: &mut u64,
        value: T,
        words: u64,
    ) -> Result<u64, T>
        requires own { seat.old.base ≡ self.now.words.id.views_name }
        requires may { Allows (R.holds self.now.words.fixed) R.keeps seat.old.id seat.old.view (Make value words) (R.then seat.old.view (Make value words)) }
        ensures same { (seat.new.base ≡ seat.old.base) × (seat.new.id ≡ seat.old.id) }
        ensures errand { seat.new.away ≡ seat.old.away }
        ensures goes { R.then seat.old.view (Make value words) (Made result) seat.new.view }
    {
        if words != 0 {
            return self.makes(seat, near, value, words);
        }
        match self.close(*near) {
            Some((part, index, claim)) => {
                let block = part.first + index + 1;
                *near = block;
                let kept = Kept {
                    value,
                    at: null_mut(),
                    count: 0,
                };
                self.words
                    .by(&part.strip)
                    .put(seat, claim, index, part.values, kept, Piece::none());
                Ok(block)
            }
            None => self.makes(seat, near, value, words),
        }
    }

    /// The same, wherever a number is free. It is a call of its own: where one is near at hand, there is little to it.
    #[inline(never)]
    fn makes(&self, seat: &mut Seat<T, R>, near: &mut u64, value: T, words: u64) -> Result<u64, T>
        requires own { seat.old.base ≡ self.now.words.id.views_name }
        requires may { Allows (R.holds self.now.words.fixed) R.keeps seat.old.id seat.old.view (Make value words) (R.then seat.old.view (Make value words)) }
        ensures same { (seat.new.base ≡ seat.old.base) × (seat.new.id ≡ seat.old.id) }
        ensures errand { seat.new.away ≡ seat.old.away }
        ensures goes { R.then seat.old.view (Make value words) (Made result) seat.new.view }
    {
        let Some(laid) = lay_words(&self.alloc, words) else {
            self.words.refuse(seat, &value, words);
            return Err(value);
        };
        let Laid { at, piece } = laid;
        match self.number(*near) {
            Some((part, index, claim)) => {
                *near = part.first + index + 1;
                let kept = Kept {
                    value,
                    at,
                    count: words,
                };
                self.words
                    .by(&part.strip)
                    .put(seat, claim, index, part.values, kept, piece);
                Ok(part.first + index + 1)
            }
            None => {
                give_words(&self.alloc, at, words, piece);
                self.words.refuse(seat, &value, words);
                Err(value)
            }
        }
    }

    /// Takes a block away, gives its own words back, and answers its value. Its number is free from then on.
    #[inline(always)]
    pub fn take(&self, seat: &mut Seat<T, R>, block: u64) -> T
        requires own { seat.old.base ≡ self.now.words.id.views_name }
        requires may { Allows (R.holds self.now.words.fixed) R.keeps seat.old.id seat.old.view (Take block) (R.then seat.old.view (Take block)) }
        ensures same { (seat.new.base ≡ seat.old.base) × (seat.new.id ≡ seat.old.id) }
        ensures errand { seat.new.away ≡ seat.old.away }
        ensures goes { R.then seat.old.view (Take block) (Taken result) seat.new.view }
    {
        let spot = self.spot_of(seat, seat, seat, block);
        let first = spot.first;
        let (kept, piece) = self.words.by(&spot.strip).take(
            seat,
            block,
            spot.index,
            spot.values,
            first,
            first + 1,
            first + 2,
            first + 3,
            first + 4,
        );
        match kept {
            Some(Kept { value, at, count }) => {
                give_words(&self.alloc, at, count, piece);
                value
            }
            None => unreachable!(),
        }
    }

    /// Replaces the value of a block that the seat has to itself, and answers the one before.
    pub fn rewrite(&self, seat: &mut Seat<T, R>, block: u64, value: T) -> T
        requires own { seat.old.base ≡ self.now.words.id.views_name }
        requires alone { Owns (R.holds self.now.words.fixed) R.keeps seat.old.id seat.old.view block }
        requires may { Allows (R.holds self.now.words.fixed) R.keeps seat.old.id seat.old.view (Rewrite block value) (R.then seat.old.view (Rewrite block value)) }
        ensures same { (seat.new.base ≡ seat.old.base) × (seat.new.id ≡ seat.old.id) }
        ensures errand { seat.new.away ≡ seat.old.away }
        ensures goes { R.then seat.old.view (Rewrite block value) (Taken result) seat.new.view }
    {
        self.words.visit(seat, block);
        let spot = self.spot_of(seat, seat, seat, block);
        let beside = self.beside(seat, &spot, block);
        let at = beside.at;
        let kept = Kept {
            value,
            at,
            count: beside.count,
        };
        match self
            .words
            .by(&spot.strip)
            .rewrite(seat, block, spot.index, spot.values, kept)
        {
            Some(before) => {
                let Kept {
                    value,
                    at: _,
                    count: _,
                } = before;
                value
            }
            None => unreachable!(),
        }
    }

    /// Returns the value of a block that the seat's view shows, for as long as the memory and the seat are borrowed.
    #[inline(always)]
    pub fn value<'g>(&'g self, seat: &'g Seat<T, R>, block: u64) -> &'g T
        requires own { seat.now.base ≡ self.now.words.id.views_name }
        requires shown { VisibleTo (R.holds self.now.words.fixed) seat.now.id seat.now.view block }
        ensures { IsValueOf (R.holds self.now.words.fixed) seat.now.id seat.now.view block result.now }
    {
        self.value_for(seat, seat, block)
    }

    /// Returns the value of a block that the views of two seats show together, as that of a guard that holds it and that of who it belongs to, for as long as
    /// the memory and both seats are borrowed.
    #[inline(always)]
    pub fn value_for<'g>(
        &'g self,
        guard: &'g Seat<T, R>,
        owner: &'g Seat<T, R>,
        block: u64,
    ) -> &'g T
        requires own { (guard.now.base ≡ self.now.words.id.views_name) × (owner.now.base ≡ self.now.words.id.views_name) }
        requires shown { VisibleToBoth (R.holds self.now.words.fixed) guard.now.id guard.now.view owner.now.id owner.now.view block }
        ensures { IsValueOfBoth (R.holds self.now.words.fixed) guard.now.id guard.now.view owner.now.id owner.now.view block result.now }
    {
        let spot = self.spot_of(guard, guard, owner, block);
        match self
            .words
            .value(&spot.strip, guard, owner, block, spot.index, spot.values)
        {
            Some(kept) => &kept.value,
            None => unreachable!(),
        }
    }

    /// Returns the value of a block that two seats keep, as what a third one knows now shows, for as long as the memory and these two are borrowed. The third
    /// one may step meanwhile: what others keep stays kept.
    #[inline(always)]
    pub fn value_by<'g>(
        &'g self,
        pass: &Seat<T, R>,
        guard: &'g Seat<T, R>,
        owner: &'g Seat<T, R>,
        block: u64,
    ) -> &'g T
        requires own { (pass.now.base ≡ self.now.words.id.views_name) × (guard.now.base ≡ self.now.words.id.views_name)
            × (owner.now.base ≡ self.now.words.id.views_name) }
        requires kept { KeptByTwo (R.holds self.now.words.fixed) R.keeps pass.now.id pass.now.view guard.now.id guard.now.view
            owner.now.id owner.now.view block }
        requires there { AreThere (R.holds self.now.words.fixed) R.keeps }
        requires comes { Comes (R.holds self.now.words.fixed) R.keeps (R.newcomer self.now.words.fixed) }
        ensures { IsValueBy (R.holds self.now.words.fixed) pass.now.id pass.now.view guard.now.id guard.now.view
            owner.now.id owner.now.view block result.now }
    {
        let spot = self.spot_of(pass, guard, owner, block);
        match self.words.value_by(
            &spot.strip,
            pass,
            guard,
            owner,
            block,
            spot.index,
            spot.values,
        ) {
            Some(kept) => &kept.value,
            None => unreachable!(),
        }
    }
}

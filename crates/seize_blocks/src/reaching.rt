//! Operations on words, where it is kept at which place a block was found: as long as the next one is on the same block's own words it is not looked for again.
ghost use Rattle.std.specs.Prelude.{◌≡◌};
ghost use Rattle.seize_words.specs.OneMemory.Op.{Load, Store, Or, Exchange, Found, Stored, Exchanged};
ghost use Rattle.seize_words.specs.declared.at.At.TheVariants.{Word};
ghost use Rattle.seize_seats.specs.Seats.State.{Allows};
ghost use Rattle.seize_seats.specs.Seats.Lendings.{VisibleToThree};
ghost use Rattle.seize_atoms.specs.Placed.{HasWord, IsItsIndex};
ghost use Rattle.seize_blocks.specs.Parts.{IsFound};

use crate::access::{Access, Exchanges, Loads, Sets, Stores};
use crate::blocks::Blocks;
use crate::landing::lands;
use crate::part::Place;
use seize_atoms::{Rule, Seat};
use seize_words::At;

impl<T, R: Rule<T>> Blocks<T, R> {
    /// Returns a place at which no block was looked for yet.
    #[inline(always)]
    pub fn place(&self) -> Place<T>
        ensures { IsFound self.now.words.id result }
    {
        Place {
            block: 0,
            spot: self.near_spot(0),
        }
    }

    /// Finds a block that the seat's view shows, if the place is not that of it.
    #[inline(always)]
    fn finds(&self, seat: &Seat<T, R>, place: &mut Place<T>, block: u64)
        requires own { seat.now.base ≡ self.now.words.id.views_name }
        requires shown { VisibleToThree (R.holds self.now.words.fixed) seat.now.id seat.now.view seat.now.id seat.now.view seat.now.id seat.now.view block }
        requires place { IsFound self.now.words.id place.old }
        ensures place { IsFound self.now.words.id place.new }
        ensures index { IsItsIndex place.new.spot.strip.id block place.new.spot.index }
    {
        if place.block != block {
            place.spot = self.spot_of(seat, seat, seat, block);
            place.block = block;
        }
    }

    /// Makes an operation on the word of a name.
    #[inline(always)]
    fn access_by<A: Access<T, R>>(
        &self,
        seat: &mut Seat<T, R>,
        place: &mut Place<T>,
        at: At,
        access: A,
    ) -> A::Answer
        requires own { seat.old.base ≡ self.now.words.id.views_name }
        requires may { Allows (R.holds self.now.words.fixed) R.keeps seat.old.id seat.old.view (A.op access at) (R.then seat.old.view (A.op access at)) }
        requires place { IsFound self.now.words.id place.old }
        ensures same { (seat.new.base ≡ seat.old.base) × (seat.new.id ≡ seat.old.id) }
        ensures errand { seat.new.away ≡ seat.old.away }
        ensures goes { R.then seat.old.view (A.op access at) (A.out result) seat.new.view }
        ensures place { IsFound self.now.words.id place.new }
    {
        match at {
            At::Word(block, own) => self.access_own(seat, place, block, own, access),
            _ => self.access(seat, at, access),
        }
    }

    /// The same, on a word of a block's own. The seat visits the block.
    #[inline(always)]
    fn access_own<A: Access<T, R>>(
        &self,
        seat: &mut Seat<T, R>,
        place: &mut Place<T>,
        block: u64,
        own: u64,
        access: A,
    ) -> A::Answer
        requires own { seat.old.base ≡ self.now.words.id.views_name }
        requires may { Allows (R.holds self.now.words.fixed) R.keeps seat.old.id seat.old.view (A.op access (Word block own))
            (R.then seat.old.view (A.op access (Word block own))) }
        requires there { HasWord (R.holds self.now.words.fixed) seat.old.id seat.old.view (Word block own) }
        requires place { IsFound self.now.words.id place.old }
        ensures same { (seat.new.base ≡ seat.old.base) × (seat.new.id ≡ seat.old.id) }
        ensures errand { seat.new.away ≡ seat.old.away }
        ensures goes { R.then seat.old.view (A.op access (Word block own)) (A.out result) seat.new.view }
        ensures place { IsFound self.now.words.id place.new }
    {
        self.finds(seat, place, block);
        self.words.visit(seat, block);
        let beside = self.beside(seat, &place.spot, block);
        let landing = lands(&beside, own, &place.spot.strip);
        let address = landing.at;
        access.made(
            self.words.by(&place.spot.strip),
            seat,
            &At::Word(block, own),
            address,
            landing.place,
        )
    }

    /// Returns the word of a name.
    #[inline(always)]
    pub fn load_by(&self, seat: &mut Seat<T, R>, place: &mut Place<T>, at: At) -> u64
        requires own { seat.old.base ≡ self.now.words.id.views_name }
        requires may { Allows (R.holds self.now.words.fixed) R.keeps seat.old.id seat.old.view (Load at) (R.then seat.old.view (Load at)) }
        requires place { IsFound self.now.words.id place.old }
        ensures same { (seat.new.base ≡ seat.old.base) × (seat.new.id ≡ seat.old.id) }
        ensures errand { seat.new.away ≡ seat.old.away }
        ensures goes { R.then seat.old.view (Load at) (Found result) seat.new.view }
        ensures place { IsFound self.now.words.id place.new }
    {
        self.access_by(seat, place, at, Loads)
    }

    /// Writes the word of a name.
    #[inline(always)]
    pub fn store_by(&self, seat: &mut Seat<T, R>, place: &mut Place<T>, at: At, word: u64)
        requires own { seat.old.base ≡ self.now.words.id.views_name }
        requires may { Allows (R.holds self.now.words.fixed) R.keeps seat.old.id seat.old.view (Store at word) (R.then seat.old.view (Store at word)) }
        requires place { IsFound self.now.words.id place.old }
        ensures same { (seat.new.base ≡ seat.old.base) × (seat.new.id ≡ seat.old.id) }
        ensures errand { seat.new.away ≡ seat.old.away }
        ensures goes { R.then seat.old.view (Store at word) Stored seat.new.view }
        ensures place { IsFound self.now.words.id place.new }
    {
        self.access_by(seat, place, at, Stores(word));
    }

    /// Sets bits of the word of a name, and answers the one before.
    #[inline(always)]
    pub fn or_by(&self, seat: &mut Seat<T, R>, place: &mut Place<T>, at: At, bits: u64) -> u64
        requires own { seat.old.base ≡ self.now.words.id.views_name }
        requires may { Allows (R.holds self.now.words.fixed) R.keeps seat.old.id seat.old.view (Or at bits) (R.then seat.old.view (Or at bits)) }
        requires place { IsFound self.now.words.id place.old }
        ensures same { (seat.new.base ≡ seat.old.base) × (seat.new.id ≡ seat.old.id) }
        ensures errand { seat.new.away ≡ seat.old.away }
        ensures goes { R.then seat.old.view (Or at bits) (Found result) seat.new.view }
        ensures place { IsFound self.now.words.id place.new }
    {
        self.access_by(seat, place, at, Sets(bits))
    }

    /// Writes a new word where the old one, the whole word, is found, and answers the word found: `Ok` where it was written.
    #[inline(always)]
    pub fn exchange_by(
        &self,
        seat: &mut Seat<T, R>,
        place: &mut Place<T>,
        at: At,
        old: u64,
        new: u64,
    ) -> Result<u64, u64>
        requires own { seat.old.base ≡ self.now.words.id.views_name }
        requires may { Allows (R.holds self.now.words.fixed) R.keeps seat.old.id seat.old.view (Exchange at old new) (R.then seat.old.view (Exchange at old new)) }
        requires place { IsFound self.now.words.id place.old }
        ensures same { (seat.new.base ≡ seat.old.base) × (seat.new.id ≡ seat.old.id) }
        ensures errand { seat.new.away ≡ seat.old.away }
        ensures goes { R.then seat.old.view (Exchange at old new) (Exchanged result) seat.new.view }
        ensures place { IsFound self.now.words.id place.new }
    {
        self.access_by(seat, place, at, Exchanges { old, new })
    }
}

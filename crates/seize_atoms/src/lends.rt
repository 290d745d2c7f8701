//! What is kept of a block is lent for as long as two seats are borrowed: by what they know themselves, or by what a third one knows.
ghost use Rattle.std.specs.Prelude.{◌≡◌, Some};
ghost use denote.RawPtr.{InBlock};
ghost use Rattle.seize_seats.specs.Seats.State.{KeptByTwo, AreThere, Comes};
ghost use Rattle.seize_seats.specs.Seats.Lendings.{VisibleToBoth, IsValueOfBoth, IsValueBy};
ghost use Rattle.seize_seats.specs.Seats.Owned.{core_of};
ghost use Rattle.seize_seats.specs.declared.kept.Kept.{Kept};
ghost use Rattle.seize_atoms.specs.Visiting.{HoldsHere};
ghost use Rattle.seize_atoms.specs.Placed.{IsItsIndex};

use crate::rule::Rule;
use crate::seat::Seat;
use crate::strip::Strip;
use crate::words::StripWords;
use seize_seats::Kept;

impl<T, R: Rule<T>> StripWords<T, R> {
    /// Returns where what is kept of a block lies, for as long as the words and both seats are borrowed. The index is that of its number in the strip, if there
    /// is such a block.
    pub fn value<'g>(
        &'g self,
        strip: &Strip<T>,
        guard: &'g Seat<T, R>,
        owner: &'g Seat<T, R>,
        _block: u64,
        index: u64,
        values: *mut Option<Kept<T>>,
    ) -> &'g Option<Kept<T>>
        requires { (core_of strip.now.id ≡ core_of self.now.id) × InBlock strip.now.words
            × (guard.now.base ≡ self.now.id.views_name) × (owner.now.base ≡ self.now.id.views_name)
            × IsItsIndex strip.now.id _block index × (values ≡ strip.now.id.values)
            × VisibleToBoth (R.holds self.now.fixed) guard.now.id guard.now.view owner.now.id owner.now.view _block }
        ensures { (x : Kept T) × (result.now ≡ Some x) × IsValueOfBoth (HoldsHere R.rests R.leans (R.holds self.now.fixed)) guard.now.id
            ((guard.now.view, guard.now.visit), guard.now.away) owner.now.id ((owner.now.view, owner.now.visit), owner.now.away) _block x }
    {
        unsafe { &*values.add(index as usize) }
    }

    /// Returns where what is kept of a block lies, for as long as the words and two seats are borrowed, by what a third seat knows now, which may step
    /// meanwhile. The index is that of its number in the strip, if there is such a block.
    pub fn value_by<'g>(
        &'g self,
        strip: &Strip<T>,
        pass: &Seat<T, R>,
        guard: &'g Seat<T, R>,
        owner: &'g Seat<T, R>,
        _block: u64,
        index: u64,
        values: *mut Option<Kept<T>>,
    ) -> &'g Option<Kept<T>>
        requires { (core_of strip.now.id ≡ core_of self.now.id) × InBlock strip.now.words
            × (pass.now.base ≡ self.now.id.views_name) × (guard.now.base ≡ self.now.id.views_name) × (owner.now.base ≡ self.now.id.views_name)
            × IsItsIndex strip.now.id _block index × (values ≡ strip.now.id.values)
            × KeptByTwo (R.holds self.now.fixed) R.keeps pass.now.id pass.now.view guard.now.id guard.now.view owner.now.id owner.now.view _block
            × AreThere (R.holds self.now.fixed) R.keeps × Comes (R.holds self.now.fixed) R.keeps (R.newcomer self.now.fixed) }
        ensures { (x : Kept T) × (result.now ≡ Some x) × IsValueBy (R.holds self.now.fixed) pass.now.id pass.now.view guard.now.id guard.now.view
            owner.now.id owner.now.view _block x.value }
    {
        unsafe { &*values.add(index as usize) }
    }
}

//! Guards that let a value wait behind the one that they have seen: it comes back once that one has.
ghost use Rattle.std.specs.Prelude.{◌≡◌, ◌≢◌, ◌<◌, ◌⊎◌, ℕ, Option, Some, None, IfOk, IfErr, true, false};
ghost use Rattle.seize_words.specs.OneMemory.Word.{block_in};
ghost use Rattle.seize_guards.specs.Behind.{beside, value_made};
ghost use Rattle.seize_shared.specs.Guards.Deeds.{has_put, has_taken};
ghost use Rattle.seize_shared.specs.OnThreads.Standing.{standing};
ghost use Rattle.seize_views.specs.Views.Deferring.{LinksSo};
ghost use Rattle.seize_views.specs.Views.Notes.{written_at};
ghost use Rattle.seize_views.specs.declared.view.Began.TheVariants.{Deferral};
ghost use Rattle.seize_views.specs.declared.view.Deed.TheVariants.{Wrote};
ghost use Rattle.seize_views.specs.declared.view.SlotView.TheVariants.{Inside};

use crate::deferring::{Came, Takes};
use seize::rows::Defers;
use seize_shared::{Caller, LocalGuard, OfRows, OwnedGuard, Receiver, RootGuard, Stay};
use seize_words::Link;
use std::sync::Wait;

/// A guard that lets values wait behind the one that it has seen.
pub trait DeferringGuard<T: Defers>: RootGuard<T> {
    /// Takes the value from a root, and tells whether it waits: behind the one that the guard has seen, where that keeps a list of further values, and it
    /// keeps none. It comes back once that one has; and the guard has seen that one still. Else it is retired, if there is one.
    fn clear_behind<W: Wait>(&mut self, rt: &W, root: u64) -> bool
        ensures home { Self.home self.new ≡ Self.home self.old }
        ensures slot { Self.slot self.new ≡ Self.slot self.old }
        ensures inside { Self.inside self.new ≡ true }
        ensures seen { (Self.seen self.new ≡ 0) ⊎ (Self.seen self.new ≡ Self.seen self.old) }
        ensures waits { result ≡ true → (Self.began self.new ≡ Deferral) × (Self.seen self.new ≡ Self.seen self.old) × (Self.seen self.old ≢ 0) }
        ensures taken { result ≡ true → has_taken (Self.did self.new) ≡ Some root }
        ensures other { result ≡ false → (has_taken (Self.did self.new) ≡ Some root)
            ⊎ (root < (Self.home self.old).roots → written_at (Self.did self.new) ≡ Some (root, None, 0)) };

    /// Puts a value at a root, and tells whether the one that was there waits, as `clear_behind` does. Without such a root, or a block for it, it comes back.
    fn put_behind<W: Wait>(&mut self, rt: &W, root: u64, value: T) -> Result<bool, T>
        ensures home { Self.home self.new ≡ Self.home self.old }
        ensures slot { Self.slot self.new ≡ Self.slot self.old }
        ensures inside { Self.inside self.new ≡ true }
        ensures seen { (Self.seen self.new ≡ 0) ⊎ (Self.seen self.new ≡ Self.seen self.old) }
        ensures waits { IfOk result (λ waits. waits ≡ true → (Self.began self.new ≡ Deferral) × (Self.seen self.new ≡ Self.seen self.old) × (Self.seen self.old ≢ 0)) }
        ensures back { IfErr result (λ back. back ≡ value) }
        ensures put { IfOk result (λ _. has_put (Self.did self.new) ≡ Some (root, value)) };
}

/// Tells whether a block was seen, within a section, and this is a root of single blocks.
fn has_seen<T: Defers + Drop>(stay: &Stay<'_, T>, root: u64) -> bool
    ensures seen { result ≡ true → (stay.now.inside ≡ true) × (stay.now.seen ≢ 0) × (root < stay.now.caller.blocks.now.words.fixed.roots) }
{
    stay.inside && stay.seen != 0 && root < stay.roots
}

/// What came of it: the word that was at the root, whether the block that it named waits, and which one is seen then, 0 for none.
#[derive(Drop)]
struct Taken {
    old: u64,
    waits: bool,
    seen: u64,
}

/// Takes out what a root names, where it puts this word, and puts it behind the block that was seen, or retires it.
fn takes<T: Defers + Drop, W: Wait>(
    caller: &mut Caller<'_, T>,
    rt: &W,
    slot: u64,
    seen: u64,
    root: u64,
    word: u64,
) -> Taken
    requires seen { (made : Option (ℕ × T)) × (caller.old.seat.view.knows ≡ Inside slot (beside made seen)) × LinksSo made word }
    requires some { seen ≢ 0 }
    requires root { root < caller.old.blocks.now.words.fixed.roots }
    ensures stands { standing caller.new.seat.view.knows ≡ Some (slot, true, result.seen) }
    ensures either { (result.seen ≡ 0) ⊎ (result.seen ≡ seen) }
    ensures waits { result.waits ≡ true → (caller.new.seat.view.began ≡ Deferral) × (result.seen ≡ seen) }
    ensures one { result.waits ≡ true → block_in result.old ≢ 0 }
    ensures did { (made : Option (ℕ × T)) → caller.old.seat.view.knows ≡ Inside slot (beside made seen)
        → caller.new.seat.view.did ≡ Wrote root word (value_made made) result.old }
    ensures guards { caller.new.seat.view.guards ≡ caller.old.seat.view.guards }
    ensures blocks { caller.new.blocks ≡ caller.old.blocks }
{
    let blocks = caller.blocks();
    let errand = Takes {
        rt,
        slot,
        seen,
        root,
        word,
    };
    let (old, came) = blocks.errand(&mut caller.seat, errand);
    match came {
        Came::Nobody => Taken {
            old,
            waits: false,
            seen,
        },
        Came::Waits => Taken {
            old,
            waits: true,
            seen,
        },
        Came::Unlinks(block) => {
            caller.retire(slot, block);
            Taken {
                old,
                waits: false,
                seen: 0,
            }
        }
    }
}

/// Takes the value from a root, and tells whether it waits behind the one that was seen; else it is retired.
fn clears_behind<T: Defers + Drop, W: Wait>(stay: &mut Stay<'_, T>, rt: &W, root: u64) -> bool
    requires may { (stay.old.inside ≡ true) × (stay.old.seen ≢ 0) × (root < stay.old.caller.blocks.now.words.fixed.roots) }
    ensures home { stay.new.caller.blocks ≡ stay.old.caller.blocks }
    ensures slot { stay.new.slot ≡ stay.old.slot }
    ensures guards { stay.new.guards ≡ stay.old.guards }
    ensures inside { stay.new.inside ≡ true }
    ensures seen { (stay.new.seen ≡ 0) ⊎ (stay.new.seen ≡ stay.old.seen) }
    ensures waits { result ≡ true → (stay.new.caller.seat.view.began ≡ Deferral) × (stay.new.seen ≡ stay.old.seen) }
    ensures taken { result ≡ true → has_taken stay.new.caller.seat.view.did ≡ Some root }
    ensures other { result ≡ false → (has_taken stay.new.caller.seat.view.did ≡ Some root) ⊎ (written_at stay.new.caller.seat.view.did ≡ Some (root, None, 0)) }
{
    let taken = takes(&mut stay.caller, rt, stay.slot, stay.seen, root, 0);
    stay.seen = taken.seen;
    taken.waits
}

/// Puts a value at a root, and tells whether the one that was there waits behind the one that was seen; else it is retired.
fn swaps_behind<T: Defers + Drop, W: Wait>(
    stay: &mut Stay<'_, T>,
    rt: &W,
    root: u64,
    value: T,
) -> Result<bool, T>
    requires may { (stay.old.inside ≡ true) × (stay.old.seen ≢ 0) × (root < stay.old.caller.blocks.now.words.fixed.roots) }
    ensures home { stay.new.caller.blocks ≡ stay.old.caller.blocks }
    ensures slot { stay.new.slot ≡ stay.old.slot }
    ensures guards { stay.new.guards ≡ stay.old.guards }
    ensures inside { stay.new.inside ≡ true }
    ensures seen { (stay.new.seen ≡ 0) ⊎ (stay.new.seen ≡ stay.old.seen) }
    ensures waits { IfOk result (λ waits. waits ≡ true → (stay.new.caller.seat.view.began ≡ Deferral) × (stay.new.seen ≡ stay.old.seen)) }
    ensures back { IfErr result (λ back. back ≡ value) }
    ensures put { IfOk result (λ _. has_put stay.new.caller.seat.view.did ≡ Some (root, value)) }
{
    let block = match stay.caller.make_beside(stay.slot, stay.seen, value) {
        Ok(block) => block,
        Err(value) => return Err(value),
    };
    let word = Link::to(block);
    let taken = takes(&mut stay.caller, rt, stay.slot, stay.seen, root, word);
    stay.seen = taken.seen;
    Ok(taken.waits)
}

impl<'r, 'a, T: Defers + Drop, R: Receiver<T>> DeferringGuard<T>
    for LocalGuard<'r, 'a, T, OfRows, R> {
    fn clear_behind<W: Wait>(&mut self, rt: &W, root: u64) -> bool {
        let registration = &*self.registration;
        if !has_seen(&registration.stay, root) {
            self.clear(root);
            return false;
        }
        let registration = &mut *self.registration;
        clears_behind(&mut registration.stay, rt, root)
    }

    fn put_behind<W: Wait>(&mut self, rt: &W, root: u64, value: T) -> Result<bool, T> {
        let registration = &*self.registration;
        if !has_seen(&registration.stay, root) {
            self.put(root, value)?;
            return Ok(false);
        }
        let registration = &mut *self.registration;
        swaps_behind(&mut registration.stay, rt, root, value)
    }
}

impl<'a, T: Defers + Drop, R: Receiver<T>> DeferringGuard<T> for OwnedGuard<'a, T, OfRows, R> {
    fn clear_behind<W: Wait>(&mut self, rt: &W, root: u64) -> bool {
        if !has_seen(&self.stay, root) {
            self.clear(root);
            return false;
        }
        clears_behind(&mut self.stay, rt, root)
    }

    fn put_behind<W: Wait>(&mut self, rt: &W, root: u64, value: T) -> Result<bool, T> {
        if !has_seen(&self.stay, root) {
            self.put(root, value)?;
            return Ok(false);
        }
        swaps_behind(&mut self.stay, rt, root, value)
    }
}

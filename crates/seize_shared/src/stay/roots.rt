//! What who holds a slot does at roots, and with those who watch its section, where rows are all there is.
ghost use Rattle.std.specs.Prelude.{◌≡◌, ◌≢◌, ◌<◌, ◌+◌, ◌-◌, ◌^◌, ◌%◌, ◌⊎◌, ℕ, None, Some, IfOk, IfErr, IfNone, IfSome, IsSome, true, false};
ghost use Rattle.seize_words.specs.OneMemory.Word.{block_in};
ghost use Rattle.seize_callers.specs.Owning.{borne_by};
ghost use Rattle.seize_shared.specs.Guards.Deeds.{has_put, has_taken};
ghost use Rattle.seize_shared.specs.Guards.Lent.{IsLent};
ghost use Rattle.seize_views.specs.declared.view.Began.TheVariants.{Retirement};
ghost use Rattle.seize_views.specs.Views.Notes.{looked_at, written_at};
ghost use Rattle.seize_views.specs.declared.view.Deed.TheVariants.{Looked, Marked};
ghost use Rattle.seize_views.specs.declared.view.SlotView.TheVariants.{Brings, Rests, Watches};

use crate::stay::Stay;
use crate::{Owned, Pass, Protected, Tagged};
use seize::rows::Defers;
use seize_blocks::Seat;
use seize_callers::{Caller, named};
use seize_views::{Fixed, OfRows};

impl<'a, T: Defers + Drop> Stay<'a, T> {
    /// Tells whether its section is open and there is such a root; where not, what was seen is not known any more.
    fn may_look(&mut self, root: u64) -> bool
        ensures home { self.new.caller.blocks ≡ self.old.caller.blocks }
        ensures slot { self.new.slot ≡ self.old.slot }
        ensures guards { self.new.guards ≡ self.old.guards }
        ensures inside { self.new.inside ≡ self.old.inside }
        ensures may { result ≡ true → (self.old.inside ≡ true) × (root < self.old.caller.blocks.now.words.fixed.roots) × (self.new ≡ self.old) }
        ensures fresh { result ≡ false → self.new.seen ≡ 0 }
        ensures told { self.old.inside ≡ true → root < self.old.caller.blocks.now.words.fixed.roots → result ≡ true }
    {
        if !self.inside || root >= self.roots {
            self.forgets();
            return false;
        }
        true
    }

    /// Looks which block is at a root, and tells whether one is, where its section is open. What was seen before is not known any more.
    pub(crate) fn sees(&mut self, root: u64) -> bool
        ensures home { self.new.caller.blocks ≡ self.old.caller.blocks }
        ensures slot { self.new.slot ≡ self.old.slot }
        ensures guards { self.new.guards ≡ self.old.guards }
        ensures inside { self.new.inside ≡ self.old.inside }
        ensures seen { result ≡ true → self.new.seen ≢ 0 }
        ensures looked { result ≡ true → looked_at self.new.caller.seat.view.did ≡ Some (root, self.new.seen) }
        ensures none { result ≡ false → self.new.seen ≡ 0 }
        ensures empty { result ≡ false → self.old.inside ≡ true → root < self.old.caller.blocks.now.words.fixed.roots
            → looked_at self.new.caller.seat.view.did ≡ Some (root, 0) }
    {
        if !self.may_look(root) {
            return false;
        }
        match self.caller.see(self.slot, root) {
            Some(block) => {
                self.seen = block;
                true
            }
            None => {
                self.seen = 0;
                false
            }
        }
    }

    /// Looks which word is at a root, where its section is open and there is such a root: that holds the block to which it links. What was seen before is not
    /// known any more.
    pub(crate) fn protects(&mut self, root: u64) -> Option<Tagged>
        ensures home { self.new.caller.blocks ≡ self.old.caller.blocks }
        ensures slot { self.new.slot ≡ self.old.slot }
        ensures guards { self.new.guards ≡ self.old.guards }
        ensures inside { self.new.inside ≡ self.old.inside }
        ensures found { IfSome result (λ tagged. self.new.caller.seat.view.did ≡ Looked root tagged.word) }
        ensures seen { IfSome result (λ tagged. self.new.seen ≡ block_in tagged.word) }
        ensures none { IfNone result (self.new.seen ≡ 0) }
        ensures there { self.old.inside ≡ true → root < self.old.caller.blocks.now.words.fixed.roots → IsSome result }
    {
        if !self.may_look(root) {
            return None;
        }
        let word = self.caller.protect(self.slot, root);
        self.seen = named(word).unwrap_or(0);
        Some(Tagged::of(word))
    }

    /// A pass looks which word is at a root, where its section is open and there is such a root: the value of the block to which that links is lent for as long
    /// as this is borrowed.
    pub(crate) fn protects_by<'g>(
        &'g self,
        root: u64,
        pass: &mut Pass<T>,
    ) -> Option<Protected<'g, T>>
        requires own { pass.old.pass.seat.base ≡ self.now.caller.blocks.now.words.id.views_name }
        ensures memory { pass.new.pass.seat.base ≡ pass.old.pass.seat.base }
        ensures number { pass.new.number ≡ pass.old.number }
        ensures looked { IfSome result (λ found. pass.new.pass.seat.view.did ≡ Looked root found.tagged.word) }
        ensures lent { IfSome result (λ found. IfSome found.value (λ value. IsLent T.defers self.now.caller.blocks.now.words.fixed self.now.caller.seat.id
            self.now.caller.seat.view (block_in found.tagged.word) value.now)) }
        ensures none { IfSome result (λ found. IfNone found.value (block_in found.tagged.word ≡ 0)) }
        ensures there { self.now.inside ≡ true → root < self.now.caller.blocks.now.words.fixed.roots → IsSome result }
    {
        if !self.inside || root >= self.roots {
            return None;
        }
        Some(pass.protect(&self.caller, self.slot, root))
    }

    /// A pass sets marks of the word at a root, of which three bits count, where its section is open and there is such a root, and answers which word was
    /// there: the value of the block to which that links is lent for as long as this is borrowed.
    pub(crate) fn marks_by<'g>(
        &'g self,
        root: u64,
        marks: u64,
        pass: &mut Pass<T>,
    ) -> Option<Protected<'g, T>>
        requires own { pass.old.pass.seat.base ≡ self.now.caller.blocks.now.words.id.views_name }
        ensures memory { pass.new.pass.seat.base ≡ pass.old.pass.seat.base }
        ensures number { pass.new.number ≡ pass.old.number }
        ensures marked { IfSome result (λ found. pass.new.pass.seat.view.did ≡ Marked root (marks % 8) found.tagged.word) }
        ensures lent { IfSome result (λ found. IfSome found.value (λ value. IsLent T.defers self.now.caller.blocks.now.words.fixed self.now.caller.seat.id
            self.now.caller.seat.view (block_in found.tagged.word) value.now)) }
        ensures none { IfSome result (λ found. IfNone found.value (block_in found.tagged.word ≡ 0)) }
        ensures there { self.now.inside ≡ true → root < self.now.caller.blocks.now.words.fixed.roots → IsSome result }
    {
        if !self.inside || root >= self.roots {
            return None;
        }
        Some(pass.mark(&self.caller, self.slot, root, marks))
    }

    /// Sets marks of the word at a root, of which three bits count, and answers which word was there, where its section is open and there is such a root: the
    /// block to which that links was seen. What was seen before is not known any more.
    pub(crate) fn marks(&mut self, root: u64, marks: u64) -> Option<Tagged>
        ensures home { self.new.caller.blocks ≡ self.old.caller.blocks }
        ensures slot { self.new.slot ≡ self.old.slot }
        ensures guards { self.new.guards ≡ self.old.guards }
        ensures inside { self.new.inside ≡ self.old.inside }
        ensures marked { IfSome result (λ tagged. self.new.caller.seat.view.did ≡ Marked root (marks % 8) tagged.word) }
        ensures seen { IfSome result (λ tagged. self.new.seen ≡ block_in tagged.word) }
        ensures none { IfNone result (self.new.seen ≡ 0) }
        ensures there { self.old.inside ≡ true → root < self.old.caller.blocks.now.words.fixed.roots → IsSome result }
    {
        if !self.may_look(root) {
            return None;
        }
        let word = self.caller.mark(self.slot, root, marks % 8);
        self.seen = named(word).unwrap_or(0);
        Some(Tagged::of(word))
    }

    /// Makes a block of a value, which is of a collector of this number, and has a seat of its own.
    pub(crate) fn makes(&self, number: u64, near: &mut u64, value: T) -> Result<Owned<'a, T>, T>
        ensures made { IfOk result (λ owned. owned.caller.seat.view.knows ≡ Brings owned.block value) }
        ensures home { IfOk result (λ owned. owned.caller.blocks.now ≡ self.now.caller.blocks.now) }
        ensures number { IfOk result (λ owned. owned.number ≡ number) }
        ensures back { IfErr result (λ back. back ≡ value) }
    {
        let fixed = Fixed {
            batch_size: self.caller.batch_size(),
            roots: self.roots,
            chains: self.chains,
        };
        Owned::of(self.caller.blocks(), &fixed, number, near, value)
    }

    /// The value that was seen, if one was.
    pub(crate) fn value(&self) -> Option<&T>
        ensures lent { IfSome result (λ value. IsLent T.defers self.now.caller.blocks.now.words.fixed self.now.caller.seat.id self.now.caller.seat.view self.now.seen value.now) }
        ensures some { IfSome result (λ value. self.now.seen ≢ 0) }
        ensures none { IfNone result (self.now.seen ≡ 0) }
    {
        if self.seen == 0 {
            None
        } else {
            Some(self.caller.value(self.slot, self.seen))
        }
    }

    /// Puts a value at a root, and retires the one that was there. It comes back where there is no such root, or no block can be made of it.
    pub(crate) fn puts(&mut self, root: u64, value: T) -> Result<(), T>
        ensures home { self.new.caller.blocks ≡ self.old.caller.blocks }
        ensures slot { self.new.slot ≡ self.old.slot }
        ensures guards { self.new.guards ≡ self.old.guards }
        ensures inside { self.new.inside ≡ true }
        ensures fresh { self.new.seen ≡ 0 }
        ensures back { IfErr result (λ back. back ≡ value) }
        ensures put { IfOk result (λ _. has_put self.new.caller.seat.view.did ≡ Some (root, value)) }
    {
        self.opens();
        if root >= self.roots {
            return Err(value);
        }
        let block = match self.caller.make(self.slot, value) {
            Ok(block) => block,
            Err(value) => return Err(value),
        };
        if let Some(old) = self.caller.publish(self.slot, root, block) {
            self.caller.retire(self.slot, old);
        }
        Ok(())
    }

    /// Puts a value at a root if what was seen is there, or nothing where nothing was seen, and retires that. Else the value comes back, and what is there
    /// was seen. It comes back, too, where there is no such root, no block can be made of it, or no section is open.
    pub(crate) fn exchanges(&mut self, root: u64, value: T) -> Result<(), T>
        ensures home { self.new.caller.blocks ≡ self.old.caller.blocks }
        ensures slot { self.new.slot ≡ self.old.slot }
        ensures guards { self.new.guards ≡ self.old.guards }
        ensures inside { self.new.inside ≡ self.old.inside }
        ensures back { IfErr result (λ back. back ≡ value) }
        ensures put { IfOk result (λ _. written_at self.new.caller.seat.view.did ≡ Some (root, Some value, self.old.seen)) }
        ensures spent { IfOk result (λ _. self.new.seen ≡ 0) }
        ensures other { IfErr result (λ _. (looked_at self.new.caller.seat.view.did ≡ Some (root, self.new.seen)) ⊎ (self.new.seen ≡ self.old.seen)) }
    {
        if !self.inside || root >= self.roots {
            return Err(value);
        }
        let block = match self.caller.make_beside(self.slot, self.seen, value) {
            Ok(block) => block,
            Err(value) => return Err(value),
        };
        match self.caller.exchange(self.slot, root, self.seen, block) {
            Ok(()) => {
                if self.seen != 0 {
                    self.caller.retire(self.slot, self.seen);
                    self.seen = 0;
                }
                Ok(())
            }
            Err(now) => {
                let value = self.caller.take_beside(self.slot, now, block);
                self.seen = now;
                Err(value)
            }
        }
    }

    /// Takes the value from a root, and retires it, while no section is open; tells whether there was one.
    pub(crate) fn withdraws(&mut self, root: u64) -> bool
        requires alone { self.old.guards ≡ 0 }
        ensures home { self.new.caller.blocks ≡ self.old.caller.blocks }
        ensures slot { self.new.slot ≡ self.old.slot }
        ensures guards { self.new.guards ≡ self.old.guards }
        ensures closed { self.new.inside ≡ false }
        ensures taken { result ≡ true → has_taken self.new.caller.seat.view.did ≡ Some root }
        ensures none { result ≡ false → root < self.old.caller.blocks.now.words.fixed.roots
            → written_at self.new.caller.seat.view.did ≡ Some (root, None, 0) }
    {
        self.closes();
        if root >= self.roots {
            return false;
        }
        match self.caller.withdraw(self.slot, root) {
            Some(old) => {
                self.caller.retire_idle(self.slot, old);
                true
            }
            None => false,
        }
    }

    /// Takes the value from a root, and retires it; tells whether there was one.
    pub(crate) fn clears(&mut self, root: u64) -> bool
        ensures home { self.new.caller.blocks ≡ self.old.caller.blocks }
        ensures slot { self.new.slot ≡ self.old.slot }
        ensures guards { self.new.guards ≡ self.old.guards }
        ensures inside { self.new.inside ≡ true }
        ensures fresh { self.new.seen ≡ 0 }
        ensures taken { result ≡ true → has_taken self.new.caller.seat.view.did ≡ Some root }
        ensures none { result ≡ false → root < self.old.caller.blocks.now.words.fixed.roots
            → written_at self.new.caller.seat.view.did ≡ Some (root, None, 0) }
    {
        self.opens();
        if root >= self.roots {
            return false;
        }
        match self.caller.remove(self.slot, root) {
            Some(old) => {
                self.caller.retire(self.slot, old);
                true
            }
            None => false,
        }
    }

    /// Retires a block that another caller has unlinked, who has no slot, whether a section is open or not. What was seen before is not known any more.
    pub fn takes_over<'b>(&mut self, bearer: &mut Caller<'b, T>, block: u64)
        requires home { bearer.old.blocks.now.words.id.views_name ≡ self.old.caller.blocks.now.words.id.views_name }
        requires bears { borne_by bearer.old.seat.view.knows ≡ Some block }
        requires fits { block < 2 ^ 53 }
        ensures home { self.new.caller.blocks ≡ self.old.caller.blocks }
        ensures slot { self.new.slot ≡ self.old.slot }
        ensures guards { self.new.guards ≡ self.old.guards }
        ensures inside { self.new.inside ≡ self.old.inside }
        ensures fresh { self.new.seen ≡ 0 }
        ensures began { self.new.caller.seat.view.began ≡ Retirement }
        ensures did { self.new.caller.seat.view.did ≡ self.old.caller.seat.view.did }
        ensures rests { bearer.new.seat.view.knows ≡ Rests }
        ensures memory { bearer.new.blocks ≡ bearer.old.blocks }
    {
        self.caller.takes_over(self.slot, bearer, block);
        if self.inside {
            self.caller.retire(self.slot, block);
        } else {
            self.caller.retire_idle(self.slot, block);
        }
        self.seen = 0;
    }

    /// A seat begins to watch the section that is open.
    pub fn admits(&mut self, seat: &mut Seat<T, OfRows>)
        requires own { seat.old.base ≡ self.old.caller.blocks.now.words.id.views_name }
        requires rests { seat.old.view.knows ≡ Rests }
        requires inside { self.old.inside ≡ true }
        requires room { self.old.guards < 2 ^ 64 - 1 }
        ensures watches { seat.new.view.knows ≡ Watches self.new.slot 0 }
        ensures counts { self.new.guards ≡ self.old.guards + 1 }
        ensures home { self.new.caller.blocks ≡ self.old.caller.blocks }
        ensures slot { self.new.slot ≡ self.old.slot }
        ensures inside { self.new.inside ≡ self.old.inside }
        ensures base { seat.new.base ≡ seat.old.base }
    {
        self.caller.admits(self.slot, seat);
        self.guards += 1;
    }

    /// A seat watches it no longer.
    pub fn excuses(&mut self, seat: &mut Seat<T, OfRows>)
        requires own { seat.old.base ≡ self.old.caller.blocks.now.words.id.views_name }
        requires watches { (block : ℕ) × (seat.old.view.knows ≡ Watches self.old.slot block) }
        requires inside { self.old.inside ≡ true }
        ensures rests { seat.new.view.knows ≡ Rests }
        ensures counts { self.new.guards + 1 ≡ self.old.guards }
        ensures home { self.new.caller.blocks ≡ self.old.caller.blocks }
        ensures slot { self.new.slot ≡ self.old.slot }
        ensures inside { self.new.inside ≡ self.old.inside }
        ensures base { seat.new.base ≡ seat.old.base }
    {
        self.caller.excuses(self.slot, seat);
        self.guards -= 1;
    }
}

//! What guards of sections have in common: those of any content, and those that look at roots.
ghost use Rattle.std.specs.Prelude.{◌≡◌, ◌≢◌, ◌<◌, ◌^◌, ◌%◌, ◌⊎◌, ℕ, Bool, None, Some, IfOk, IfErr, IfNone, IfSome, IsSome, true, false};
ghost use Rattle.seize_words.specs.OneMemory.Word.{block_in};
ghost use Rattle.seize_words.specs.declared.fault.Fault.TheVariants.{ForeignGuard};
ghost use Rattle.seize_callers.specs.Owning.{borne_by};
ghost use Rattle.seize_shared.specs.Guards.Deeds.{has_put, has_taken};
ghost use Rattle.seize_shared.specs.Guards.Homes.{Home, OneSource};
ghost use Rattle.seize_views.specs.Views.Notes.{looked_at, written_at};
ghost use Rattle.seize_views.specs.declared.view.Began.{Began};
ghost use Rattle.seize_views.specs.declared.view.Began.TheVariants.{Retirement, Section, Trial};
ghost use Rattle.seize_views.specs.declared.view.Deed.{Deed};
ghost use Rattle.seize_views.specs.declared.view.Deed.TheVariants.{Looked, Marked};
ghost use Rattle.seize_views.specs.declared.view.SlotView.TheVariants.{Rests};

use crate::pass::Pass;
use crate::tagged::{Protected, Tagged};
use seize::rows::Defers;
use seize_callers::Caller;
use seize_views::Content;
use seize_words::Fault;

/// What guards of sections have in common, so that a call can take any of them.
pub trait Guard<T: Defers> {
    /// What its memory has beside slots, sections and batches.
    type Content: Content<T>;

    /// What gets the values that are reclaimed.
    type Receiver;

    /// The collector that it is of, which memory that has, and how many roots.
    ghost home: { Self → Home };

    /// The slot of its section.
    ghost slot: { Self → ℕ };

    /// Whether that section is open, which it is from its beginning on.
    ghost inside: { Self → Bool };

    /// The block that it has seen last, 0 for none.
    ghost seen: { Self → ℕ };

    /// What it has begun last on its slot.
    ghost began: { Self → Began };

    /// What its seat knows beside that: of this kind.
    ghost Beside: { Type 0 };

    ghost beside: { Self → Beside };

    /// The number of its collector, 0 where there is none.
    fn number(&self) -> u64
        ensures { result ≡ (home self.now).number };

    /// The number of its slot.
    fn thread_id(&self) -> u64
        ensures slot { result ≡ slot self.now }
        ensures few { result < 65536 };

    /// Ends the section and begins the next one. A value that is reclaimed is dropped.
    fn refresh(&mut self)
        ensures home { home self.new ≡ home self.old }
        ensures beside { beside self.new ≡ beside self.old }
        ensures slot { slot self.new ≡ slot self.old }
        ensures inside { inside self.new ≡ true }
        ensures fresh { seen self.new ≡ 0 }
        ensures began { began self.new ≡ Section };

    /// Tries the slot's batch, whatever its length. A value that is reclaimed is dropped. What it has seen it doesn't know any more.
    fn flush(&mut self)
        ensures home { home self.new ≡ home self.old }
        ensures beside { beside self.new ≡ beside self.old }
        ensures slot { slot self.new ≡ slot self.old }
        ensures inside { inside self.new ≡ inside self.old }
        ensures fresh { seen self.new ≡ 0 }
        ensures began { began self.new ≡ Trial };
}

/// A guard that looks at roots, puts values there and takes them from there: so it is where rows are all there is.
pub trait RootGuard<T: Defers>: Guard<T> {
    /// This is the value of that block, as it is while nothing else was seen.
    ghost lends: { Self → ℕ → T → Type 0 };

    /// What it has done last at a root.
    ghost did: { Self → Deed T };

    /// Looks which value is at a root, and tells whether one is. What it has seen before it doesn't know any more.
    fn see(&mut self, root: u64) -> bool
        ensures home { Self.home self.new ≡ Self.home self.old }
        ensures slot { Self.slot self.new ≡ Self.slot self.old }
        ensures inside { Self.inside self.new ≡ Self.inside self.old }
        ensures seen { result ≡ true → Self.seen self.new ≢ 0 }
        ensures looked { result ≡ true → looked_at (did self.new) ≡ Some (root, Self.seen self.new) }
        ensures none { result ≡ false → Self.seen self.new ≡ 0 }
        ensures empty { result ≡ false → Self.inside self.old ≡ true → root < (Self.home self.old).roots → looked_at (did self.new) ≡ Some (root, 0) };

    /// Looks which word is at a root: the section holds the block to which it links, whose value `value` lends. There is no answer where there is no such root,
    /// or the section is not open. What it has seen before it doesn't know any more.
    fn protect(&mut self, root: u64) -> Option<Tagged>
        ensures home { Self.home self.new ≡ Self.home self.old }
        ensures slot { Self.slot self.new ≡ Self.slot self.old }
        ensures inside { Self.inside self.new ≡ Self.inside self.old }
        ensures found { IfSome result (λ tagged. did self.new ≡ Looked root tagged.word) }
        ensures seen { IfSome result (λ tagged. Self.seen self.new ≡ block_in tagged.word) }
        ensures none { IfNone result (Self.seen self.new ≡ 0) }
        ensures there { Self.inside self.old ≡ true → root < (Self.home self.old).roots → IsSome result };

    /// A pass looks which word is at a root: the section holds the block to which that links, whose value is lent for as long as the guard is borrowed. There
    /// is no answer where there is no such root, or the section is not open. A pass of another collector is `Fault::ForeignGuard`, and it is as it was.
    fn protect_by<'g>(
        &'g self,
        root: u64,
        pass: &mut Pass<T>,
    ) -> Result<Option<Protected<'g, T>>, Fault>
        requires source { OneSource pass.old.number pass.old.pass.seat.base (Self.home self.now) }
        ensures memory { pass.new.pass.seat.base ≡ pass.old.pass.seat.base }
        ensures number { pass.new.number ≡ pass.old.number }
        ensures foreign { IfErr result (λ fault. (fault ≡ ForeignGuard) × (pass.old.number ≢ (Self.home self.now).number) × (pass.new ≡ pass.old)) }
        ensures own { IfOk result (λ _. pass.old.number ≡ (Self.home self.now).number) }
        ensures looked { IfOk result (λ found. IfSome found (λ found. pass.new.pass.seat.view.did ≡ Looked root found.tagged.word)) }
        ensures lent { IfOk result (λ found. IfSome found (λ found. IfSome found.value (λ value. lends self.now (block_in found.tagged.word) value.now))) }
        ensures none { IfOk result (λ found. IfSome found (λ found. IfNone found.value (block_in found.tagged.word ≡ 0))) }
        ensures there { IfOk result (λ found. Self.inside self.now ≡ true → root < (Self.home self.now).roots → IsSome found) };

    /// Sets marks of the word at a root, of which three bits count, and answers which word was there: the section holds the block to which it links. There is
    /// no answer where there is no such root, or the section is not open. What it has seen before it doesn't know any more.
    fn mark(&mut self, root: u64, marks: u64) -> Option<Tagged>
        ensures home { Self.home self.new ≡ Self.home self.old }
        ensures slot { Self.slot self.new ≡ Self.slot self.old }
        ensures inside { Self.inside self.new ≡ Self.inside self.old }
        ensures marked { IfSome result (λ tagged. did self.new ≡ Marked root (marks % 8) tagged.word) }
        ensures seen { IfSome result (λ tagged. Self.seen self.new ≡ block_in tagged.word) }
        ensures none { IfNone result (Self.seen self.new ≡ 0) }
        ensures there { Self.inside self.old ≡ true → root < (Self.home self.old).roots → IsSome result };

    /// A pass sets marks of the word at a root, of which three bits count, and answers which word was there: the section holds the block to which that links,
    /// whose value is lent for as long as the guard is borrowed. There is no answer where there is no such root, or the section is not open. A pass of another
    /// collector is `Fault::ForeignGuard`: nothing changes, and it is as it was.
    fn mark_by<'g>(
        &'g self,
        root: u64,
        marks: u64,
        pass: &mut Pass<T>,
    ) -> Result<Option<Protected<'g, T>>, Fault>
        requires source { OneSource pass.old.number pass.old.pass.seat.base (Self.home self.now) }
        ensures memory { pass.new.pass.seat.base ≡ pass.old.pass.seat.base }
        ensures number { pass.new.number ≡ pass.old.number }
        ensures foreign { IfErr result (λ fault. (fault ≡ ForeignGuard) × (pass.old.number ≢ (Self.home self.now).number) × (pass.new ≡ pass.old)) }
        ensures own { IfOk result (λ _. pass.old.number ≡ (Self.home self.now).number) }
        ensures marked { IfOk result (λ found. IfSome found (λ found. pass.new.pass.seat.view.did ≡ Marked root (marks % 8) found.tagged.word)) }
        ensures lent { IfOk result (λ found. IfSome found (λ found. IfSome found.value (λ value. lends self.now (block_in found.tagged.word) value.now))) }
        ensures none { IfOk result (λ found. IfSome found (λ found. IfNone found.value (block_in found.tagged.word ≡ 0))) }
        ensures there { IfOk result (λ found. Self.inside self.now ≡ true → root < (Self.home self.now).roots → IsSome found) };

    /// The value that it has seen, if it has seen one since it began, or was refreshed.
    fn value(&self) -> Option<&T>
        ensures lent { IfSome result (λ value. lends self.now (Self.seen self.now) value.now) }
        ensures some { IfSome result (λ value. Self.seen self.now ≢ 0) }
        ensures none { IfNone result (Self.seen self.now ≡ 0) };

    /// Puts a value at a root, and retires the one that was there. Without such a root, or a block for it, it comes back. What it has seen it doesn't know any
    /// more.
    fn put(&mut self, root: u64, value: T) -> Result<(), T>
        ensures home { Self.home self.new ≡ Self.home self.old }
        ensures slot { Self.slot self.new ≡ Self.slot self.old }
        ensures inside { Self.inside self.new ≡ true }
        ensures fresh { Self.seen self.new ≡ 0 }
        ensures back { IfErr result (λ back. back ≡ value) }
        ensures put { IfOk result (λ _. has_put (did self.new) ≡ Some (root, value)) };

    /// Puts a value at a root if what it has seen last is there, or nothing where it has seen nothing, and retires that. Else the value comes back, and it has
    /// seen what is there. It comes back, too, where there is no such root, or no block can be made of it.
    fn exchange(&mut self, root: u64, value: T) -> Result<(), T>
        ensures home { Self.home self.new ≡ Self.home self.old }
        ensures slot { Self.slot self.new ≡ Self.slot self.old }
        ensures inside { Self.inside self.new ≡ Self.inside self.old }
        ensures back { IfErr result (λ back. back ≡ value) }
        ensures put { IfOk result (λ _. written_at (did self.new) ≡ Some (root, Some value, Self.seen self.old)) }
        ensures spent { IfOk result (λ _. Self.seen self.new ≡ 0) }
        ensures other { IfErr result (λ _. (looked_at (did self.new) ≡ Some (root, Self.seen self.new)) ⊎ (Self.seen self.new ≡ Self.seen self.old)) };

    /// Takes the value from a root, and retires it; tells whether there was one. What it has seen it doesn't know any more.
    fn clear(&mut self, root: u64) -> bool
        ensures home { Self.home self.new ≡ Self.home self.old }
        ensures slot { Self.slot self.new ≡ Self.slot self.old }
        ensures inside { Self.inside self.new ≡ true }
        ensures fresh { Self.seen self.new ≡ 0 }
        ensures taken { result ≡ true → has_taken (did self.new) ≡ Some root }
        ensures none { result ≡ false → root < (Self.home self.old).roots → written_at (did self.new) ≡ Some (root, None, 0) };

    /// Retires a block that a caller without a slot has unlinked, of the same memory (`Unlinked` does so by it). What it has seen it doesn't know any more.
    fn takes_over<'b>(&mut self, bearer: &mut Caller<'b, T>, block: u64)
        requires home { bearer.old.blocks.now.words.id.views_name ≡ (Self.home self.old).memory }
        requires bears { borne_by bearer.old.seat.view.knows ≡ Some block }
        requires fits { block < 2 ^ 53 }
        ensures home { Self.home self.new ≡ Self.home self.old }
        ensures slot { Self.slot self.new ≡ Self.slot self.old }
        ensures inside { Self.inside self.new ≡ Self.inside self.old }
        ensures fresh { Self.seen self.new ≡ 0 }
        ensures began { Self.began self.new ≡ Retirement }
        ensures did { did self.new ≡ did self.old }
        ensures rests { bearer.new.seat.view.knows ≡ Rests }
        ensures memory { bearer.new.blocks ≡ bearer.old.blocks };
}

//! The one who has the memory to himself: he takes a slot first, so that the slots have their words, and then reclaims all.
ghost use Rattle.std.specs.Prelude.{◌≡◌, ◌≢◌, ◌<◌, ◌+◌, ◌^◌, true, false, Some};
ghost use Rattle.seize.specs.declared.states.TheConstants.{LAST_SLOT};
ghost use Rattle.seize.specs.declared.rows.reclaim_all.ReclaimAll.{ReclaimAll};
ghost use Rattle.seize.specs.declared.rows.reclaim_all.Reclaiming.TheVariants.{Over};
ghost use Rattle.seize.specs.declared.rows.register.Registering.TheVariants.{Begin, Look, Widen, Take};
ghost use Rattle.seize.specs.Register.{bucket_needed};
ghost use Rattle.seize_reclaims.specs.Empties.Asked.{HasPassed};
ghost use Rattle.seize_reclaims.specs.Empties.Emptying.{IsUnderWay, Seeks, IsSeeking, leave_passes, settle_passes, passes, left_of};

use crate::one::One;
use crate::rule::Passing;
use seize::rows::{
    Defers, Leave, Leaving, ReclaimAll, Reclaiming, Settle, Settled, Settling, needed_bucket,
};
use seize::states::{FREE, HEAD, IDLE, LAST_SLOT, NEVER};
use seize_blocks::{Blocks, Seat};
use seize_words::{At, Fault, Look, Memory};

mod memory;

/// The one who has the memory to himself, with his seat. It is a memory for the machines that he steps.
pub(crate) struct Sole<'a, T: Defers, R: One<T>> {
    pub(crate) blocks: &'a Blocks<T, R>,
    pub(crate) seat: Seat<T, R>,
    pub(crate) near: u64,
    ghost own: { seat.base ≡ blocks.now.words.id.views_name },
    ghost sized: { blocks.now.words.fixed.batch_size < 2 ^ 64 },
}

/// Whether it has ended.
fn is_over(row: &ReclaimAll) -> bool
    ensures over { result ≡ true → row.now.stands ≡ Over }
    ensures not { result ≡ false → row.now.stands ≢ Over }
{
    matches!(row.stands, Reclaiming::Over)
}

/// Whether the next step of a leaving makes no operation.
fn leave_passes(row: &Leave) -> bool
    ensures { result ≡ leave_passes row.now }
{
    match &row.stands {
        Leaving::Over => true,
        Leaving::Settles(settle) => settle_passes(settle),
        _ => false,
    }
}

/// Whether the next step of a settling makes no operation.
fn settle_passes(row: &Settle) -> bool
    ensures { result ≡ settle_passes row.now }
{
    matches!(row.stands, Settling::Over)
}

/// Whether the next step makes no operation.
fn passes(row: &ReclaimAll) -> bool
    ensures { result ≡ passes row.now }
{
    match &row.stands {
        Reclaiming::Leaves { leave, .. } => leave_passes(leave),
        Reclaiming::Flushes { settle, .. } => settle_passes(settle),
        _ => false,
    }
}

impl<'a, T: Defers, R: One<T>> Sole<'a, T, R> {
    /// Begins to look for a slot, and tells whether slots have words.
    fn begins(&mut self, all: &ReclaimAll) -> bool
        requires { IsSeeking all.now 0 Begin (R.acts self.old.seat.view) (R.all self.old.seat.view) }
        ensures there { result ≡ true → Seeks all.now 0 (R.acts self.new.seat.view) (R.all self.new.seat.view) }
        ensures none { result ≡ false → IsUnderWay (R.none all.now) (R.acts self.new.seat.view) }
        ensures beside { R.beside self.new.seat.view ≡ R.beside self.old.seat.view }
        ensures blocks { self.new.blocks ≡ self.old.blocks }
    {
        R::acts_alone();
        self.room(0).is_ok()
    }

    /// Makes room for a bucket that a slot needs whose head was seen so, and tells whether that was refused.
    fn widens(&mut self, all: &ReclaimAll, slot: u64, seen: u64, bucket: u64) -> bool
        requires needs { Some bucket ≡ bucket_needed slot }
        requires seeks { IsSeeking all.now slot (Widen bucket seen) (R.acts self.old.seat.view) (R.all self.old.seat.view) }
        ensures ends { result ≡ true → IsUnderWay all.now (R.acts self.new.seat.view) }
        ensures on { result ≡ false → IsSeeking all.now slot (Take seen) (R.acts self.new.seat.view) (R.all self.new.seat.view) }
        ensures beside { R.beside self.new.seat.view ≡ R.beside self.old.seat.view }
        ensures blocks { self.new.blocks ≡ self.old.blocks }
    {
        R::acts_alone();
        self.room(bucket).is_err()
    }

    /// Takes a slot whose head was seen so, and tells whether registering has ended.
    fn occupies(&mut self, all: &ReclaimAll, slot: u64, seen: u64) -> bool
        requires { IsSeeking all.now slot (Take seen) (R.acts self.old.seat.view) (R.all self.old.seat.view) }
        ensures ends { result ≡ true → IsUnderWay all.now (R.acts self.new.seat.view) }
        ensures on { result ≡ false → Seeks all.now (slot + 1) (R.acts self.new.seat.view) (R.all self.new.seat.view) }
        ensures beside { R.beside self.new.seat.view ≡ R.beside self.old.seat.view }
        ensures blocks { self.new.blocks ≡ self.old.blocks }
    {
        R::acts_alone();
        self.exchange(At::Slot(slot, HEAD), seen, IDLE).is_ok()
    }

    /// Tries one slot, and tells whether registering has ended.
    fn tries(&mut self, all: &ReclaimAll, slot: u64) -> bool
        requires slot { slot < LAST_SLOT + 1 }
        requires seeks { IsSeeking all.now slot Look (R.acts self.old.seat.view) (R.all self.old.seat.view) }
        ensures ends { result ≡ true → IsUnderWay all.now (R.acts self.new.seat.view) }
        ensures on { result ≡ false → Seeks all.now (slot + 1) (R.acts self.new.seat.view) (R.all self.new.seat.view) }
        ensures beside { R.beside self.new.seat.view ≡ R.beside self.old.seat.view }
        ensures blocks { self.new.blocks ≡ self.old.blocks }
    {
        R::acts_alone();
        let seen = self.load(At::Slot(slot, HEAD));
        if seen != NEVER && seen != FREE {
            return false;
        }
        match needed_bucket(slot) {
            Some(bucket) => {
                self.widens(all, slot, seen, bucket) || self.occupies(all, slot, seen)
            }
            None => self.occupies(all, slot, seen),
        }
    }

    /// Takes a slot, if one can be taken, and tells whether slots have words.
    fn registers(&mut self, all: &ReclaimAll) -> bool
        requires { IsSeeking all.now 0 Begin (R.acts self.old.seat.view) (R.all self.old.seat.view) }
        ensures there { result ≡ true → IsUnderWay all.now (R.acts self.new.seat.view) }
        ensures none { result ≡ false → IsUnderWay (R.none all.now) (R.acts self.new.seat.view) }
        ensures beside { R.beside self.new.seat.view ≡ R.beside self.old.seat.view }
        ensures blocks { self.new.blocks ≡ self.old.blocks }
    {
        if !self.begins(all) {
            return false;
        }
        for slot in 0..LAST_SLOT + 1 {
            if self.tries(all, slot) {
                return true;
            }
        }
        true
    }

    /// A step of the machine that makes no operation is a turn of the seat first.
    fn passes_by(&mut self, row: &ReclaimAll)
        requires under { IsUnderWay row.now (R.acts self.old.seat.view) }
        requires not { row.now.stands ≢ Over }
        requires passes { passes row.now ≡ true }
        ensures passed { HasPassed R.acts T.defers R.left R.beside self.old.seat.view self.new.seat.view }
        ensures beside { R.beside self.new.seat.view ≡ R.beside self.old.seat.view }
        ensures blocks { self.new.blocks ≡ self.old.blocks }
    {
        R::acts_alone();
        self.blocks.turn::<Passing<T, R>>(&mut self.seat);
    }

    /// Takes the next step, which makes no operation.
    fn skips(&mut self, row: &mut ReclaimAll) -> Option<T>
        requires under { IsUnderWay row.old (R.acts self.old.seat.view) }
        requires not { row.old.stands ≢ Over }
        requires passes { passes row.old ≡ true }
        ensures under { IsUnderWay row.new (R.acts self.new.seat.view) }
        ensures falls { left_of (R.acts self.new.seat.view) < left_of (R.acts self.old.seat.view) }
        ensures beside { R.beside self.new.seat.view ≡ R.beside self.old.seat.view }
        ensures blocks { self.new.blocks ≡ self.old.blocks }
    {
        self.passes_by(row);
        match row.step_by::<T, R, _>(self) {
            Settled::Gave(value) => Some(value),
            _ => None,
        }
    }

    /// Takes the next step, which makes an operation, and answers the value that was reclaimed, if one was.
    fn makes(&mut self, row: &mut ReclaimAll) -> Option<T>
        requires under { IsUnderWay row.old (R.acts self.old.seat.view) }
        requires not { row.old.stands ≢ Over }
        requires makes { passes row.old ≡ false }
        ensures under { IsUnderWay row.new (R.acts self.new.seat.view) }
        ensures falls { left_of (R.acts self.new.seat.view) < left_of (R.acts self.old.seat.view) }
        ensures beside { R.beside self.new.seat.view ≡ R.beside self.old.seat.view }
        ensures blocks { self.new.blocks ≡ self.old.blocks }
    {
        R::acts_alone();
        match row.step_by::<T, R, _>(self) {
            Settled::Gave(value) => Some(value),
            _ => None,
        }
    }

    /// Takes the next step, and answers the value that was reclaimed, if one was.
    fn steps(&mut self, row: &mut ReclaimAll) -> Option<T>
        requires under { IsUnderWay row.old (R.acts self.old.seat.view) }
        requires not { row.old.stands ≢ Over }
        ensures under { IsUnderWay row.new (R.acts self.new.seat.view) }
        ensures falls { left_of (R.acts self.new.seat.view) < left_of (R.acts self.old.seat.view) }
        ensures beside { R.beside self.new.seat.view ≡ R.beside self.old.seat.view }
        ensures blocks { self.new.blocks ≡ self.old.blocks }
    {
        if passes(row) {
            self.skips(row)
        } else {
            self.makes(row)
        }
    }
}

impl<'a, T: Defers + Drop, R: One<T>> Sole<'a, T, R> {
    /// Goes on to the end. A value that is reclaimed is dropped.
    fn ends(&mut self, row: &mut ReclaimAll)
        requires under { IsUnderWay row.old (R.acts self.old.seat.view) }
        ensures under { IsUnderWay row.new (R.acts self.new.seat.view) }
        ensures over { row.new.stands ≡ Over }
        ensures beside { R.beside self.new.seat.view ≡ R.beside self.old.seat.view }
        ensures blocks { self.new.blocks ≡ self.old.blocks }
    {
        while !is_over(row) {
            drop(self.steps(row));
        }
    }

    /// Takes a slot, and reclaims all by this. Values that are reclaimed are dropped.
    pub(crate) fn reclaims(&mut self, row: &mut ReclaimAll)
        requires { IsSeeking row.old 0 Begin (R.acts self.old.seat.view) (R.all self.old.seat.view) }
        ensures over { (c : ReclaimAll) × (c.stands ≡ Over) × IsUnderWay c (R.acts self.new.seat.view) }
        ensures beside { R.beside self.new.seat.view ≡ R.beside self.old.seat.view }
        ensures blocks { self.new.blocks ≡ self.old.blocks }
    {
        if !self.registers(row) {
            *row = R::without_slots(row);
        }
        self.ends(row);
    }
}

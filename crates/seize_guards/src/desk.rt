//! A slot of which several guards have the section open: it begins with the first of them, and ends with the last.
ghost use Rattle.std.specs.Prelude.{◌≡◌, ◌≢◌, ◌<◌, ◌⊎◌, Some, true, false, IfOk, IfErr, IfSome, IfNone};
ghost use Rattle.seize_words.specs.declared.fault.Fault.TheVariants.{ForeignGuard, GuardsFull, Busy};
ghost use Rattle.seize_shared.specs.Guards.Homes.{OneSource};
ghost use Rattle.seize_shared.specs.Guards.Lent.{IsLent};
ghost use Rattle.seize_shared.specs.OnThreads.Refused.{HasNoSlot};
ghost use Rattle.seize_views.specs.Views.Notes.{looked_at};

mod held;

use crate::drawer::Drawer;
pub use held::MOST_GUARDS;
use held::{Held, Watcher};
use seize::rows::Defers;
use seize_blocks::Blocks;
use seize_callers::watcher;
use seize_shared::{Shared, Stay, Unlinked};
use seize_views::{Content, Fixed, OfRows};
use seize_words::{Drops, Fault, Receiver};

/// A slot of its owner's, which lends as many guards as are wanted. It is given up as this ends, but for one a guard of which was forgotten.
pub struct Desk<'a, T: Defers + Drop, R: Receiver<T> = Drops>
where
    OfRows: Content<T>,
{
    collector: Shared<'a, T, OfRows, R>,
    drawer: Drawer<Held<'a, T>>,
    ghost home: { drawer ≡ collector.blocks.now.words.id.views_name },
}

/// One of its guards. What it has seen is there until it sees something else, or ends, whatever the others do.
pub struct DeskGuard<'d, 'a, T: Defers + Drop, R: Receiver<T> = Drops>
where
    OfRows: Content<T>,
{
    desk: &'d Desk<'a, T, R>,
    watcher: Watcher<T>,
    seen: u64,
    ghost home: { watcher.seat.base ≡ desk.now.collector.blocks.now.words.id.views_name },
    ghost last_seen: { seen ≢ 0 → seen ≡ watcher.last },
}

impl<'a, T: Defers + Drop, R: Receiver<T>> Drop for Desk<'a, T, R> {
    fn drop(self) {
        let Desk {
            collector: _,
            drawer,
        } = self;
        drop(drawer.into_inner());
    }
}

impl<'a, T: Defers + Drop> Desk<'a, T> {
    /// Takes the first slot that can be taken, of a memory that has no collector. What was chosen as the memory was opened is handed in.
    pub fn new(blocks: &'a Blocks<T, OfRows>, fixed: &Fixed) -> Result<Self, Fault>
        requires fixed { blocks.now.words.fixed ≡ fixed.now }
        ensures home { IfOk result (λ desk. desk.collector.blocks.now ≡ blocks.now) }
        ensures number { IfOk result (λ desk. desk.collector.number ≡ 0) }
        ensures refused { IfErr result (λ fault. HasNoSlot fault) }
    {
        Desk::of(&Shared::of(blocks, *fixed, 0))
    }
}

impl<'a, T: Defers + Drop, R: Receiver<T>> Desk<'a, T, R> {
    /// Takes the first slot that can be taken, of a collector that is lent.
    pub fn of(collector: &Shared<'a, T, OfRows, R>) -> Result<Self, Fault>
        ensures home { IfOk result (λ desk. desk.collector.blocks.now ≡ collector.now.blocks.now) }
        ensures number { IfOk result (λ desk. desk.collector.number ≡ collector.now.number) }
        ensures refused { IfErr result (λ fault. HasNoSlot fault) }
    {
        let (blocks, chosen) = collector.memory();
        let stay = Stay::new(blocks, &chosen)?;
        Ok(Desk {
            collector: Shared::of(blocks, chosen, collector.number()),
            drawer: Drawer::new(Held { stay }),
        })
    }

    /// Returns the number of its collector, 0 where there is none.
    pub fn number(&self) -> u64
        ensures { result ≡ self.now.collector.number }
    {
        self.collector.number()
    }

    /// Returns its collector, for those who share it: it makes blocks, and may be asked for further slots while guards are there.
    pub fn collector(&self) -> Shared<'a, T, OfRows, R>
        ensures home { result.blocks.now ≡ self.now.collector.blocks.now }
        ensures number { result.number ≡ self.now.collector.number }
    {
        let (blocks, chosen) = self.collector.memory();
        Shared::of(blocks, chosen, self.number())
    }

    /// Takes the slot out, unless it is at work.
    fn takes(&self) -> Option<Held<'a, T>>
        ensures { IfSome result (λ held. held.stay.caller.blocks.now.words.id.views_name ≡ self.now.collector.blocks.now.words.id.views_name) }
    {
        self.drawer.replace(None)
    }

    /// Puts it back.
    fn puts_back(&self, held: Held<'a, T>)
        requires { held.stay.caller.blocks.now.words.id.views_name ≡ self.now.collector.blocks.now.words.id.views_name }
    {
        drop(self.drawer.replace(Some(held)));
    }

    /// Makes one guard more. Where `MOST_GUARDS` are there, or were forgotten, or the slot is at work already, it is `Fault::GuardsFull`.
    pub fn enter<'d>(&'d self) -> Result<DeskGuard<'d, 'a, T, R>, Fault>
        ensures fresh { IfOk result (λ guard. guard.seen ≡ 0) }
        ensures desk { IfOk result (λ guard. guard.desk.now ≡ self.now) }
        ensures full { IfErr result (λ fault. fault ≡ GuardsFull) }
    {
        let Some(mut held) = self.takes() else {
            return Err(Fault::GuardsFull);
        };
        let (blocks, _) = self.collector.memory();
        let mut seat = watcher(blocks);
        let slot = held.stay.slot;
        let is_open = held.opens(&mut seat);
        self.puts_back(held);
        if !is_open {
            return Err(Fault::GuardsFull);
        }
        Ok(DeskGuard {
            desk: self,
            watcher: Watcher {
                seat,
                slot,
                last: 0,
            },
            seen: 0,
        })
    }
}

impl<'d, 'a, T: Defers + Drop, R: Receiver<T>> DeskGuard<'d, 'a, T, R> {
    /// Returns the number of its slot, which the desk's other guards have, too.
    pub fn thread_id(&self) -> u64
        ensures { result ≡ self.now.watcher.slot }
    {
        self.watcher.slot
    }

    /// Looks which value is at a root, and tells whether one is. What it has seen before it doesn't know any more.
    pub fn see(&mut self, root: u64) -> bool
        ensures desk { self.new.desk ≡ self.old.desk }
        ensures slot { self.new.watcher.slot ≡ self.old.watcher.slot }
        ensures seen { result ≡ true → self.new.seen ≢ 0 }
        ensures looked { result ≡ true → looked_at self.new.watcher.seat.view.did ≡ Some (root, self.new.seen) }
        ensures none { result ≡ false → self.new.seen ≡ 0 }
        ensures empty { result ≡ false → root < self.old.desk.now.collector.blocks.now.words.fixed.roots
            → looked_at self.new.watcher.seat.view.did ≡ Some (root, 0) }
    {
        self.seen = 0;
        let (blocks, chosen) = self.desk.collector.memory();
        if root >= chosen.roots {
            return false;
        }
        let watcher = &mut self.watcher;
        match watcher.looks(blocks, root) {
            Some(block) => {
                self.seen = block;
                true
            }
            None => false,
        }
    }

    /// Ends the section and begins the next one, where no other guard is there, and tells whether it did. What it has seen it doesn't know any more then. A value
    /// that is reclaimed is dropped.
    pub fn refresh(&mut self) -> bool
        ensures desk { self.new.desk ≡ self.old.desk }
        ensures slot { self.new.watcher.slot ≡ self.old.watcher.slot }
        ensures fresh { result ≡ true → self.new.seen ≡ 0 }
        ensures same { result ≡ false → self.new.seen ≡ self.old.seen }
    {
        let Some(mut held) = self.desk.takes() else {
            return false;
        };
        let watcher = &mut self.watcher;
        let is_fresh = watcher.refreshes(&mut held);
        self.desk.puts_back(held);
        if is_fresh {
            self.seen = 0;
        }
        is_fresh
    }

    /// Retires a block that was taken from a root of the same collector, to the batch of the desk's slot, which its guards know nothing of: what they have seen
    /// they know still. A block of another collector is `Fault::ForeignGuard`, and where the slot is at work already it is `Fault::Busy`: it comes back then. A
    /// value that is reclaimed is dropped.
    pub fn retire<'u>(&self, old: Unlinked<'u, T>) -> Result<(), (Fault, Unlinked<'u, T>)>
        requires source { OneSource old.number old.caller.blocks.now.words.id.views_name record {
          number = self.now.desk.now.collector.number;
          memory = self.now.desk.now.collector.blocks.now.words.id.views_name;
          roots = self.now.desk.now.collector.blocks.now.words.fixed.roots;
        } }
        ensures own { IfOk result (λ _. old.entry.number ≡ self.now.desk.now.collector.number) }
        ensures foreign { IfErr result (λ refused. ((refused.0 ≡ ForeignGuard) × (old.entry.number ≢ self.now.desk.now.collector.number))
            ⊎ ((refused.0 ≡ Busy) × (old.entry.number ≡ self.now.desk.now.collector.number))) }
        ensures back { IfErr result (λ refused. refused.1 ≡ old.entry) }
    {
        if old.number() != self.desk.number() {
            return Err((Fault::ForeignGuard, old));
        }
        let Some(mut held) = self.desk.takes() else {
            return Err((Fault::Busy, old));
        };
        let (bearer, block) = old.parted();
        let mut bearer = bearer;
        held.retires(&mut bearer, block);
        self.desk.puts_back(held);
        Ok(())
    }

    /// Tries the batch of the desk's slot, whatever its length, and tells whether it did: not where the slot is at work already. A value that is reclaimed is
    /// dropped.
    pub fn flush(&self) -> bool {
        let Some(mut held) = self.desk.takes() else {
            return false;
        };
        held.flushes();
        self.desk.puts_back(held);
        true
    }

    /// Returns the value that it has seen, if it has seen one.
    pub fn value(&self) -> Option<&T>
        ensures lent { IfSome result (λ value. IsLent T.defers self.now.desk.now.collector.blocks.now.words.fixed self.now.watcher.seat.id
            self.now.watcher.seat.view self.now.seen value.now) }
        ensures some { IfSome result (λ value. self.now.seen ≢ 0) }
        ensures none { IfNone result (self.now.seen ≡ 0) }
    {
        if self.seen == 0 {
            None
        } else {
            let (blocks, _) = self.desk.collector.memory();
            Some(self.watcher.value(blocks))
        }
    }
}

impl<'d, 'a, T: Defers + Drop, R: Receiver<T>> Drop for DeskGuard<'d, 'a, T, R> {
    fn drop(self) {
        let DeskGuard {
            desk,
            watcher,
            seen: _,
        } = self;
        let Watcher {
            seat,
            slot,
            last: _,
        } = watcher;
        let mut seat = seat;
        if let Some(mut held) = desk.takes() {
            held.closes(slot, &mut seat);
            desk.puts_back(held);
        }
    }
}

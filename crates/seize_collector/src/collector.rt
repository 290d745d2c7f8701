//! A collector: its number, what it was made with, and the memory that is its own.
ghost use Rattle.std.specs.Prelude.{◌≡◌, ◌≤◌, ◌^◌, ◌==◌, IfOk, IfErr};
ghost use Rattle.std.proofs.Common.{rules};
ghost use Rattle.std.specs.Cmp.Rules.{comparing};
ghost use Rattle.seize.specs.Collector.{made_by, root_of};
ghost use Rattle.seize_words.specs.declared.fault.Fault.TheVariants.{Memory};
ghost use Rattle.seize.specs.Ids.{given, following};
ghost use Rattle.seize_seats.specs.Seats.Owned.{IsLike};
ghost use Rattle.seize_reclaims.specs.Renews.Emptied.{IsEmptied};
ghost use Rattle.seize_shared.specs.OnThreads.Refused.{HasNoSlot};
ghost use Rattle.seize_collector.specs.Collectors.Made.{IsMade};

use seize::rows::Defers;
use seize::{At, Collector as Setting, Fault, IdSource};
use seize_blocks::Home;
use seize_reclaims::reclaim_all;
use seize_shared::{Content, Drops, Fixed, OfRows, OwnedGuard, Receiver, Registration, Shared};
use std::alloc::Global;
use std::fmt;
use std::marker::PhantomData;

/// For how many blocks its memory has numbers at first.
const FIRST: u64 = 64;

/// A collector, with a memory of its own, whose slots callers take, and at whose roots they put values. Collectors of one source are equal if they are the same.
#[derive(Drop)]
pub struct Collector<T: Defers + Drop, C: Content<T> = OfRows, R: Receiver<T> = Drops> {
    setting: Setting,
    home: Home<T, C>,
    /// What gets the values that are reclaimed. There is one such type, and no call takes a value of it.
    receiver: PhantomData<R>,
    ghost sized: { home.blocks.words.fixed.batch_size ≡ setting.batch_size },
    ghost rooted: { home.blocks.words.fixed.roots ≡ setting.roots },
    ghost single: { home.blocks.words.fixed.chains ≡ 0 },
    ghost few: { setting.roots ≤ 65536 },
}

impl<T: Defers + Drop> Collector<T> {
    /// Makes a collector of values at roots, for 1 to 2^63 processors, with 1 to 65,536 roots. Its batches are first tried when they are as long as the greater
    /// of 32 and the processors. After `Fault::CollectorsUsedUp` the source is as it was; after `Fault::Memory` its number is spent.
    pub fn new(
        alloc: Global,
        ids: &mut IdSource,
        processors: u64,
        roots: u64,
    ) -> Result<Self, Fault>
        requires some_processors { 1 ≤ processors }
        requires processors { processors ≤ 2 ^ 63 }
        requires some_roots { 1 ≤ roots }
        requires roots { roots ≤ 65536 }
        ensures made { IsMade (λ c. c.setting) (made_by (given ids.old) processors roots) result }
        ensures ids { ids.new ≡ following ids.old }
    {
        let setting = Setting::new(ids, processors, roots)?;
        Collector::opened(alloc, setting)
    }
}

impl<T: Defers + Drop, R: Receiver<T>> Collector<T, OfRows, R> {
    /// One that was made with this, and a memory of its own.
    fn opened(alloc: Global, setting: Setting) -> Result<Self, Fault>
        requires few { setting.roots ≤ 65536 }
        ensures setting { IfOk result (λ c. c.setting ≡ setting) }
        ensures refused { IfErr result (λ fault. fault ≡ Memory) }
    {
        let chosen = Fixed {
            batch_size: setting.size_of_batches(),
            roots: setting.roots(),
            chains: 0,
        };
        let home = Home::open(alloc, chosen.roots, FIRST, &chosen)?;
        Ok(Collector {
            setting,
            home,
            receiver: PhantomData,
        })
    }

    /// Returns the collector with another batch size, which is used as it is; 0 acts as 1. Its memory begins anew, so what stood there is dropped. After
    /// `Fault::Memory` there is no collector, and its number is spent.
    pub fn batch_size(self, alloc: Global, size: u64) -> Result<Self, Fault>
        ensures sized { IfOk result (λ c. c.setting ≡ record self.setting { batch_size = size }) }
        ensures refused { IfErr result (λ fault. fault ≡ Memory) }
    {
        let Collector {
            setting,
            home,
            receiver: _,
        } = self;
        drop(home);
        Collector::opened(alloc, setting.batch_size(size))
    }
}

impl<T: Defers + Drop, C: Content<T>, R: Receiver<T>> Collector<T, C, R> {
    /// What was chosen for its memory.
    fn chosen(&self) -> Fixed
        ensures { result ≡ self.now.home.blocks.words.fixed }
    {
        Fixed {
            batch_size: self.setting.size_of_batches(),
            roots: self.setting.roots(),
            chains: 0,
        }
    }

    /// Returns its number, which no other collector of its source has.
    pub fn number(&self) -> u64
        ensures { result ≡ self.now.setting.number }
    {
        self.setting.number()
    }

    /// Returns the name of a root's word; `None` from the number of roots on.
    pub fn root(&self, root: u64) -> Option<At>
        ensures { result ≡ root_of self.now.setting root }
    {
        self.setting.root(root)
    }

    /// Returns the same collector, for those who share it: it may go to other threads.
    pub fn shared(&self) -> Shared<'_, T, C, R>
        ensures home { result.blocks.now ≡ self.now.home.blocks }
        ensures number { result.number ≡ self.now.setting.number }
    {
        Shared::of(&self.home.blocks, self.chosen(), self.setting.number())
    }

    /// Takes the first slot that can be taken. Where none can be nothing changes.
    pub fn register(&self) -> Result<Registration<'_, T, C, R>, Fault>
        ensures home { IfOk result (λ registration. registration.stay.caller.blocks.now ≡ self.now.home.blocks) }
        ensures number { IfOk result (λ registration. registration.number ≡ self.now.setting.number) }
        ensures refused { IfErr result (λ fault. HasNoSlot fault) }
    {
        self.shared().register()
    }

    /// Takes the first slot that can be taken, and opens a section of it, by a guard that may be sent. Where none can be taken nothing changes.
    pub fn enter_owned(&self) -> Result<OwnedGuard<'_, T, C, R>, Fault>
        ensures home { IfOk result (λ guard. guard.stay.caller.blocks.now ≡ self.now.home.blocks) }
        ensures number { IfOk result (λ guard. guard.number ≡ self.now.setting.number) }
        ensures fresh { IfOk result (λ guard. guard.stay.seen ≡ 0) }
        ensures refused { IfErr result (λ fault. HasNoSlot fault) }
    {
        self.shared().enter_owned()
    }
}

impl<T: Defers + Drop, R: Receiver<T>> Collector<T, OfRows, R> {
    /// Reclaims everything that waits: nobody else has the collector meanwhile. A slot that somebody has forgotten leaves, each batch is flushed, and then every slot
    /// is free. Values that are reclaimed are dropped. What stands at roots stays there. The same memory begins another lifetime: until it is lent again nothing
    /// waits in it.
    pub fn reclaim_all(&mut self)
        ensures setting { self.new.setting ≡ self.old.setting }
        ensures fixed { self.new.home.blocks.words.fixed ≡ self.old.home.blocks.words.fixed }
        ensures same { (self.new.home.blocks.words.words ≡ self.old.home.blocks.words.words) × IsLike self.new.home.blocks.words.id self.old.home.blocks.words.id }
        ensures empty { IsEmptied T.defers self.new.home.blocks.words.fixed self.new.home.blocks.words.start }
    {
        let chosen = self.chosen();
        reclaim_all(&mut self.home, &chosen);
    }
}

impl<T: Defers + Drop, C: Content<T>, R: Receiver<T>> PartialEq for Collector<T, C, R> {
    ghost eq = { λ a b. a.setting.number == b.setting.number };

    ghost laws = { Prim.search (comparing, rules) };

    fn eq(&self, other: &Self) -> bool {
        self.setting == other.setting
    }
}

impl<T: Defers + Drop, C: Content<T>, R: Receiver<T>> Eq for Collector<T, C, R> {
    ghost laws = { Prim.search (comparing, rules) };
}

impl<T: Defers + Drop, C: Content<T>, R: Receiver<T>> fmt::Debug for Collector<T, C, R> {
    fn fmt<W: fmt::Write>(&self, f: &mut fmt::Formatter<W>) -> fmt::Result {
        fmt::Debug::fmt(&self.setting, f)
    }
}

//! A seat makes the own block of its call, and stores it, by straight code.
ghost use Rattle.std.specs.Prelude.{◌≡◌};
ghost use Rattle.threads_errands.specs.Ahead.{IsAhead, IsSameAhead};
ghost use Rattle.threads_errands.specs.Puts.{HasOwn, HasPut, HasStored};
ghost use Rattle.threads_steps.specs.Storing.{making};
ghost use Rattle.map_straight.specs.Straight.Storing.{storing};
ghost use Rattle.papaya_raw.specs.CallPoints.{untried};
ghost use Rattle.papaya_raw.specs.declared.machines.call.Calling.TheVariants as at;

use crate::ahead::Ahead;
use map_straight::{Stored, StoringPoint, store};
use map_tables::{Hashes, Node, Setting, Trial};
use papaya_raw::machines::{KeyAnswer, There, link_to};
use seize_words::Memory;
use std::hash::Hash;

/// Where a call that is to store a pair has come to.
pub(crate) enum Put<K, V> {
    /// It has ended with this answer.
    Answered(KeyAnswer),
    /// It stands here with its own block, to which this word links, at this try.
    Stands(u64, Trial, StoringPoint),
    /// Memory was refused, and the pair has come back.
    Back(Node<K, V>),
}

impl<'a, K: Eq, V, S: Hashes<K>> Ahead<'a, K, V, S> {
    /// Makes the own block of its call, and answers the word that links to it. A refused make gives the pair back.
    #[inline(always)]
    fn makes(
        &mut self,
        _hasher: &S,
        _setting: Setting,
        hash: u64,
        _there: There,
        pair: Node<K, V>,
    ) -> Result<u64, Node<K, V>>
        requires ahead { IsAhead K.eq S.hash _hasher.now (making _setting hash _there pair) self.old.seat.now.view }
        ensures own { HasOwn K.eq S.hash _hasher.now _setting hash _there pair result self.old.seat.now.view self.new.seat.now.view }
        ensures same { IsSameAhead self.old self.new }
    {
        match self.make(pair, 0) {
            Ok(block) => Ok(link_to(block, hash)),
            Err(pair) => Err(pair),
        }
    }

    /// Tells from where on it looks for the numbers of blocks next.
    #[inline(always)]
    pub(crate) fn near(&self) -> u64 {
        self.near
    }
}

impl<'a, K: Eq + Hash, V, S: Hashes<K>> Ahead<'a, K, V, S> {
    /// Stores the own block of its call, as far as straight code goes.
    #[inline(always)]
    fn puts(&mut self, hasher: &S, setting: Setting, hash: u64, there: There, own: u64) -> Stored
        requires ahead { IsAhead K.eq S.hash hasher.now (storing setting hash there own untried at.Roots) self.old.seat.now.view }
        ensures put { HasPut K.eq S.hash hasher.now setting hash there own result self.old.seat.now.view self.new.seat.now.view }
        ensures same { IsSameAhead self.old self.new }
    {
        store::<K, V, K, S, Self>(self, hasher, setting, hash, there, own)
    }

    /// Stores the own block of its call, and ends the call, as far as straight code goes.
    #[inline(always)]
    fn puts_own(
        &mut self,
        hasher: &S,
        setting: Setting,
        hash: u64,
        there: There,
        own: u64,
    ) -> Put<K, V>
        requires ahead { IsAhead K.eq S.hash hasher.now (storing setting hash there own untried at.Roots) self.old.seat.now.view }
        ensures stored { HasStored K.eq S.hash hasher.now setting hash there (storing setting hash there own untried at.Roots) result self.old.seat.now.view self.new.seat.now.view }
        ensures same { IsSameAhead self.old self.new }
    {
        match self.puts(hasher, setting, hash, there, own) {
            Stored::Answered(answer) => {
                self.ends(answer);
                Put::Answered(answer)
            }
            Stored::Stands(trial, spot) => Put::Stands(own, trial, spot),
        }
    }

    /// Makes the own block of its call, stores that, and ends the call, as far as straight code goes.
    #[inline(always)]
    pub(crate) fn stores(
        &mut self,
        hasher: &S,
        setting: Setting,
        hash: u64,
        there: There,
        pair: Node<K, V>,
    ) -> Put<K, V>
        requires ahead { IsAhead K.eq S.hash hasher.now (making setting hash there pair) self.old.seat.now.view }
        ensures stored { HasStored K.eq S.hash hasher.now setting hash there (making setting hash there pair) result self.old.seat.now.view self.new.seat.now.view }
        ensures same { IsSameAhead self.old self.new }
    {
        match self.makes(hasher, setting, hash, there, pair) {
            Ok(own) => self.puts_own(hasher, setting, hash, there, own),
            Err(pair) => Put::Back(pair),
        }
    }
}

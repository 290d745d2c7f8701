//! The tables are known, the status is read, and a chunk is claimed.
ghost use Rattle.std.specs.Prelude.{◌≡◌, ◌<◌};
ghost use Rattle.map_tables.specs.Given.SeizeWordsPlan.{May, Steps};
ghost use Rattle.map_machines.specs.CopierClaims.{chunk, range_claimed, begins, follows, asks, sees, claims};

use crate::copier::{Copier, Copying};
use crate::yielding::Yielding;
use map_tables::named::{At, Link, Memory};
use map_tables::table_words::{CLAIM, NEXT, STATUS};
use map_tables::{Node, Status, Table};

impl Copier {
    /// Reads the root.
    #[inline(always)]
    pub(super) fn begins<K, V, M: Memory<Node<K, V>>>(
        &mut self,
        memory: &mut M,
    ) -> Yielding<Node<K, V>, Table>
        requires { May M.can M.took M.shown memory.old (begins self.old) }
        ensures { Steps M.took M.shown memory.old (begins self.old) memory.new (self.new, result) }
    {
        let link = memory.load(At::Root(self.setting.root));
        self.source = Table::seen(link, memory.value(Link::block_of(link)));
        self.stands = Copying::Follows;
        Yielding::Goes
    }

    /// Reads which table follows. Where none does, there is nothing to copy.
    #[inline(always)]
    pub(super) fn follows<K, V, M: Memory<Node<K, V>>>(
        &mut self,
        memory: &mut M,
    ) -> Yielding<Node<K, V>, Table>
        requires { May M.can M.took M.shown memory.old (follows self.old) }
        ensures { Steps M.took M.shown memory.old (follows self.old) memory.new (self.new, result) }
    {
        let link = memory.load(self.source.word(NEXT));
        if link == 0 {
            self.stands = Copying::Over;
        } else {
            self.target = Table::seen(link, memory.value(Link::block_of(link)));
            self.stands = Copying::Sees;
        }
        Yielding::Goes
    }

    /// Reads the status of the table that is copied into. Where nothing is left to be claimed, the others are waited for.
    #[inline(always)]
    pub(super) fn asks<K, V, M: Memory<Node<K, V>>>(
        &mut self,
        memory: &mut M,
    ) -> Yielding<Node<K, V>, Table>
        requires { May M.can M.took M.shown memory.old (asks self.old) }
        ensures { Steps M.took M.shown memory.old (asks self.old) memory.new (self.new, result) }
    {
        let status = memory.load(self.target.word(STATUS));
        if status == Status::PROMOTED {
            self.stands = Copying::Over;
        } else if status == Status::ABORTED {
            self.spent = false;
            self.stands = Copying::Replaces;
        } else if self.spent {
            return Yielding::Waits;
        } else {
            self.stands = Copying::Sees;
        }
        Yielding::Goes
    }

    /// Reads how many places are claimed: a claim past the table's end is not raised further.
    #[inline(always)]
    pub(super) fn sees<K, V, M: Memory<Node<K, V>>>(
        &mut self,
        memory: &mut M,
    ) -> Yielding<Node<K, V>, Table>
        requires { May M.can M.took M.shown memory.old (sees self.old) }
        ensures { Steps M.took M.shown memory.old (sees self.old) memory.new (self.new, result) }
    {
        let claim = memory.load(self.target.word(CLAIM));
        if claim < self.source.len {
            self.stands = Copying::Claims;
        } else {
            self.none_left();
        }
        Yielding::Goes
    }

    /// Claims a chunk.
    #[inline(always)]
    pub(super) fn claims<K, V, M: Memory<Node<K, V>>>(
        &mut self,
        memory: &mut M,
    ) -> Yielding<Node<K, V>, Table>
        requires { May M.can M.took M.shown memory.old (claims self.old) }
        ensures { Steps M.took M.shown memory.old (claims self.old) memory.new (self.new, result) }
    {
        let chunk = self.chunk();
        let claim = memory.add(self.target.word(CLAIM), chunk);
        if claim < self.source.len {
            self.claim_from(claim);
        } else {
            self.none_left();
        }
        Yielding::Goes
    }

    /// How many places are claimed at once.
    #[inline(always)]
    fn chunk(&self) -> u64
        ensures { result ≡ chunk self.now }
    {
        self.setting.mode.chunk(self.source.len)
    }

    /// Takes the places from a claim on, a chunk cut at the table's end.
    #[inline(always)]
    fn claim_from(&mut self, claim: u64)
        requires { claim < self.old.source.len }
        ensures { self.new ≡ range_claimed self.old claim }
    {
        self.place = claim;
        self.end = claim + self.chunk().min(self.source.len - claim);
        self.stands = Copying::Marks;
    }
}

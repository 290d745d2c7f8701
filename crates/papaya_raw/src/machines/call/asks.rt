//! Where a call asks, and how it goes on by what it was told.
ghost use Rattle.std.specs.Prelude.{◌≡◌};
ghost use Rattle.map_sweeps.specs.Given.SeizeWordsPlan.{May, Steps};
ghost use Rattle.papaya_raw.specs.CallPoints.{storing, burying, at_gap, gap_by, pair_by, asking_at, asking_of, following_made};
ghost use Rattle.papaya_raw.specs.declared.machines.asking.Told.TheVariants.{Nothing, Own};
ghost use Rattle.papaya_raw.specs.CallFills.{asks_at};

use crate::machines::answer::Called;
use crate::machines::asking::{Asking, Gap, Told};
use crate::machines::call::{Calling, KeyCall};
use map_sweeps::named::lengths::{FIRST_LEN, Reason};
use map_sweeps::named::marks::TOMBSTONE;
use map_sweeps::named::{Link, Memory, Node, Trial};
use map_sweeps::named_sweeps::NewTable;

impl<K, V, Q> KeyCall<K, V, Q> {
    /// Asks what to do where the key is missing.
    fn ask_absent(&mut self, gap: Gap) -> Called<Node<K, V>>
        ensures { (self.new, result) ≡ gap_by Nothing gap self.old }
    {
        self.stands = Calling::Asks(Asking::Absent { gap });
        Called::Asks(None)
    }

    /// Asks what to do with the pair of a word.
    fn ask_present(&mut self, word: u64) -> Called<Node<K, V>>
        ensures { (self.new, result) ≡ pair_by Nothing self.old word }
    {
        self.stands = Calling::Asks(Asking::Present { word });
        Called::Asks(Some(word))
    }

    /// Makes the table after the one that was tried.
    pub(super) fn make_next(&mut self) -> Called<Node<K, V>>
        ensures { (self.new, result) ≡ following_made self.old }
    {
        self.trial = self.trial.found_full();
        let Trial {
            table,
            met,
            most,
            ..
        } = self.trial;
        let reason = Reason::Full { met, most };
        self.go_to(Calling::Allocs(NewTable::after(self.setting, table, reason)))
    }

    /// Goes on where the key is missing, to store a pair.
    pub(super) fn fill_gap(&mut self, gap: Gap) -> Called<Node<K, V>>
        ensures { (self.new, result) ≡ at_gap gap self.old }
    {
        match gap {
            Gap::NoTable => self.go_to(Calling::Firsts(NewTable::first(self.setting, FIRST_LEN))),
            Gap::Free => match &self.replies.absent {
                Told::Own => self.try_own(0),
                Told::Nothing | Told::Value(_) | Told::Removes => self.fill_for(0),
            },
            Gap::Past => self.go_to(Calling::Nexts),
            Gap::Last => self.make_next(),
        }
    }

    /// Replaces a word by a link to its own block.
    pub(super) fn try_own(&mut self, word: u64) -> Called<Node<K, V>>
        ensures { (self.new, result) ≡ storing Own self.old word }
    {
        let new = self.own;
        self.go_to(Calling::Tries { word, new })
    }

    /// Fills its own block, which is to replace a word.
    pub(super) fn fill_for(&mut self, word: u64) -> Called<Node<K, V>>
        ensures { (self.new, result) ≡ storing Nothing self.old word }
    {
        self.go_to(Calling::Asks(Asking::Fills { word }))
    }

    /// Removes the pair of a word, once its own block is given up, if it has one.
    pub(super) fn bury(&mut self, word: u64) -> Called<Node<K, V>>
        ensures { (self.new, result) ≡ burying self.old word }
    {
        if self.own == 0 {
            self.go_to(Calling::Tries {
                word,
                new: TOMBSTONE,
            })
        } else {
            self.go_to(Calling::Asks(Asking::GivesUp { word }))
        }
    }

    /// Asks what to do where the key is missing, unless it was told.
    pub(super) fn asks_absent(&mut self, gap: Gap) -> Called<Node<K, V>>
        ensures { (self.new, result) ≡ asking_at gap self.old }
    {
        match &self.replies.absent {
            Told::Nothing => self.ask_absent(gap),
            Told::Value(_) | Told::Own | Told::Removes => self.fill_gap(gap),
        }
    }

    /// Asks what to do with the pair of a word, unless it was told of that one.
    pub(super) fn asks_present(&mut self, word: u64) -> Called<Node<K, V>>
        ensures { (self.new, result) ≡ asking_of self.old word }
    {
        if Link::block_of(word) != self.replies.pair {
            return self.ask_present(word);
        }
        match &self.replies.present {
            Told::Nothing => self.ask_present(word),
            Told::Removes => self.bury(word),
            Told::Own => self.try_own(word),
            Told::Value(_) => self.fill_for(word),
        }
    }
}

impl<K: Drop, V: Drop, Q> KeyCall<K, V, Q> {
    /// Asks again, or fills its own block, or gives it up.
    pub(super) fn asks<M: Memory<Node<K, V>>>(
        &mut self,
        memory: &mut M,
        asking: Asking,
    ) -> Called<Node<K, V>>
        requires { May M.can M.took M.shown memory.old (asks_at self.old asking) }
        ensures { Steps M.took M.shown memory.old (asks_at self.old asking) memory.new (self.new, result) }
    {
        match asking {
            Asking::Absent { .. } => Called::Asks(None),
            Asking::Present { word } => Called::Asks(Some(word)),
            Asking::Fills { word } => self.fills(memory, word),
            Asking::GivesUp { word } => self.gives_up(memory, word),
        }
    }
}

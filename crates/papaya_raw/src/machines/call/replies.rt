//! What a call is told that has asked.
ghost use Rattle.std.specs.Prelude.{◌≡◌};
ghost use Rattle.papaya_raw.specs.CallAsks.{with_present, absent_replied, present_replied, replied};

use crate::machines::answer::{End, KeyAnswer};
use crate::machines::asking::{Asking, Gap, MachineReply, Takes, Told};
use crate::machines::call::{Calling, KeyCall};
use map_sweeps::named::{Fault, Link};

impl<K: Drop, V: Drop, Q> KeyCall<K, V, Q> {
    /// Tells it what it asks for. Its next steps go on from there. It hands back a reply that it does not take: where it asks for
    /// nothing, or for a reply of another kind. Nothing changes then.
    pub fn reply(&mut self, reply: MachineReply<V>) -> Result<(), MachineReply<V>>
        ensures { (self.new, result) ≡ replied self.old reply }
    {
        match self.stands {
            Calling::Asks(Asking::Absent { gap }) => self.told_absent(gap, reply),
            Calling::Asks(Asking::Present { word }) => self.told_present(word, reply),
            _ => Err(reply),
        }
    }

    /// Goes on by what it is told to do where the key is missing.
    fn told_absent(&mut self, gap: Gap, reply: MachineReply<V>) -> Result<(), MachineReply<V>>
        ensures { (self.new, result) ≡ absent_replied self.old.replies.takes self.old gap reply }
    {
        let _told = match (self.replies.takes, reply) {
            (Takes::Values | Takes::Changes, MachineReply::Insert(value)) => {
                self.replies.absent = Told::Value(value);
                self.fill_gap(gap)
            }
            (Takes::Changes, MachineReply::Remove) => self.end(End::Refused(Fault::RemoveNothing)),
            (Takes::Changes, MachineReply::Abort) => self.answer(KeyAnswer::Absent),
            (_, reply) => return Err(reply),
        };
        Ok(())
    }

    /// Goes on by what it is told to do with the pair of a word.
    fn told_present(&mut self, word: u64, reply: MachineReply<V>) -> Result<(), MachineReply<V>>
        ensures { (self.new, result) ≡ present_replied self.old.replies.takes self.old word reply }
    {
        let _told = match (self.replies.takes, reply) {
            (Takes::Values | Takes::Changes, MachineReply::Insert(value)) => {
                self.remember(word, Told::Value(value));
                self.fill_for(word)
            }
            (Takes::Changes, MachineReply::Remove) => {
                self.remember(word, Told::Removes);
                self.bury(word)
            }
            (Takes::Choices, MachineReply::Yes) => self.bury(word),
            (Takes::Changes, MachineReply::Abort) | (Takes::Choices, MachineReply::No) =>
                self.answer(KeyAnswer::Found(word)),
            (_, reply) => return Err(reply),
        };
        Ok(())
    }

    /// Remembers what it was told to do with the pair of a word, wherever it meets that one again.
    fn remember(&mut self, word: u64, told: Told<V>)
        ensures { self.new ≡ with_present self.old word told }
    {
        self.replies.pair = Link::block_of(word);
        self.replies.present = told;
    }
}

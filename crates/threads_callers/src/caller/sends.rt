//! A caller is sent on an errand.
ghost use Rattle.std.specs.Prelude.{◌≡◌};
ghost use Rattle.threads_errands.specs.Given.ErrandsLooking.{StaysThere};
ghost use Rattle.threads_errands.specs.Given.ViewsNotes.{SeatIsQuiescent};
ghost use Rattle.threads_errands.specs.Given.ViewsDeclared.view.View.{View as AView};

use crate::caller::MapCaller;
use map_tables::{Hashes, Node};
use seize_blocks::Errand;
use threads_errands::{OfMaps, Sleepers};

impl<'a, K: Eq, V, S: Hashes<K>> MapCaller<'a, K, V, S> {
    /// Returns those who sleep until another one has taken a step.
    pub fn sleepers(&self) -> &'a Sleepers {
        self.sleepers
    }

    /// Tells from where on it looks for the numbers of blocks.
    pub fn near(&self) -> u64 {
        self.near
    }

    /// Looks for the numbers of blocks from this one on.
    pub fn looks_near(&mut self, near: u64)
        ensures seat { self.new.seat ≡ self.old.seat }
        ensures blocks { self.new.blocks ≡ self.old.blocks }
    {
        self.near = near;
    }

    /// Goes on an errand that leaves it quiescent, and leaning on nobody.
    pub fn sends<E: Errand<Node<K, V>, OfMaps<S>>>(&mut self, errand: E) -> E::Answer
        requires asks { E.asks errand self.old.blocks.now.words.fixed self.old.seat.view }
        requires ends { (answer : E.Answer) (w : AView K V S) → E.did errand self.old.blocks.now.words.fixed self.old.seat.view answer w → SeatIsQuiescent w × StaysThere self.old.seat.view w }
        ensures did { E.did errand self.old.blocks.now.words.fixed self.old.seat.view result self.new.seat.view }
        ensures blocks { self.new.blocks ≡ self.old.blocks }
    {
        self.blocks.errand(&mut self.seat, errand)
    }
}

//! A session sends its seat on an errand.
ghost use Rattle.std.specs.Prelude.{◌≡◌};
ghost use Rattle.threads_callers.specs.Given.ErrandsLooking.{StaysThere};
ghost use Rattle.threads_callers.specs.Given.ViewsDeclared.view.View.{View as AView};
ghost use Rattle.threads_callers.specs.Given.ViewsDeclared.view.SeatWork.TheVariants.{Nothing as NoWork};
ghost use Rattle.seize_views.specs.declared.view.Has.TheVariants.{Nothing};
ghost use Rattle.seize_views.specs.declared.view.SlotView.TheVariants.{Inside};

use crate::session::{SessionBase, setting_in};
use map_tables::{Hashes, Node, Setting};
use seize_blocks::Errand;
use threads_callers::{OfMaps, Sleepers};

impl<'a, K: Eq, V, S: Hashes<K>> SessionBase<'a, K, V, S> {
    /// Returns the hasher of its map.
    pub fn hasher(&self) -> &'a S
        ensures { result.now ≡ self.now.hasher.now }
    {
        self.hasher
    }

    /// Returns those who sleep until another one has taken a step.
    pub fn sleepers(&self) -> &'a Sleepers {
        self.caller.sleepers()
    }

    /// Returns what a call of it works with.
    pub fn setting(&self) -> Setting
        ensures { result ≡ record self.now.setting { slot = self.now.slot } }
    {
        setting_in(self.setting, self.slot)
    }

    /// Tells from where on it looks for the numbers of blocks.
    pub fn near(&self) -> u64 {
        self.caller.near()
    }

    /// Looks for the numbers of blocks from this one on.
    pub fn looks_near(&mut self, near: u64)
        ensures seat { self.new.caller.seat ≡ self.old.caller.seat }
        ensures slot { self.new.slot ≡ self.old.slot }
        ensures blocks { self.new.caller.blocks ≡ self.old.caller.blocks }
    {
        self.caller.looks_near(near);
    }

    /// Sends its seat on an errand within its section, from which it comes back with nothing under way, where it stood, and on the map that it knew.
    pub fn sends<E: Errand<Node<K, V>, OfMaps<S>>>(&mut self, errand: E) -> E::Answer
        requires inside { self.old.caller.seat.view.slot ≡ Inside self.old.slot Nothing }
        requires asks { E.asks errand self.old.caller.blocks.now.words.fixed self.old.caller.seat.view }
        requires ends { (answer : E.Answer) (w : AView K V S) → E.did errand self.old.caller.blocks.now.words.fixed self.old.caller.seat.view answer w
            → (w.work ≡ NoWork) × StaysThere self.old.caller.seat.view w }
        ensures did { E.did errand self.old.caller.blocks.now.words.fixed self.old.caller.seat.view result self.new.caller.seat.view }
        ensures inside { self.new.caller.seat.view.slot ≡ Inside self.new.slot Nothing }
        ensures slot { self.new.slot ≡ self.old.slot }
        ensures map { self.new.caller.seat.view.map ≡ self.old.caller.seat.view.map }
        ensures blocks { self.new.caller.blocks ≡ self.old.caller.blocks }
    {
        self.caller.sends(errand)
    }
}

//! A seat on an errand ends the map that is its own, by the steps of the machine of that, without waiting and without asking for memory.
ghost use Rattle.std.specs.Prelude.{◌≡◌, ◌≢◌, ◌≤◌, IsSome, None, false, true};
ghost use Rattle.threads_ends.specs.Ending.{BeginsEnding, EndedSo, GetsOnBy, IsEnding, StaysElse, is_done, left_in};
ghost use Rattle.threads_steps.specs.Given.ActsLefts.{is_along};
ghost use Rattle.threads_steps.specs.Given.ViewsDeclared.view.SeatWork.TheVariants.{Nothing as NoWork};
ghost use Rattle.threads_steps.specs.Made.{IsSameSeat};
ghost use Rattle.seize.specs.declared.rows.settle.Settled.TheVariants.{Goes};
ghost use Rattle.seize_views.specs.declared.view.SlotView.TheVariants.{Rests};

mod memory;

use map_tables::{Hashes, Node};
use papaya_raw::machines::{EndMap, Ending};
use seize::StepMachine;
use seize::rows::Settled;
use seize_blocks::{Blocks, Seat, Turn};
use seize_views::Fixed;
use threads_steps::{OfMaps, View, Within};

/// The end of a map begins, of the seat that owns it.
pub struct EndingBegins;

impl<K, V, S> Turn<Fixed, View<K, V, S>> for EndingBegins {
    ghost use Rattle.threads_ends.specs.Ending.{BeginsEnding};

    ghost to = { λ _. BeginsEnding };
}

/// A seat on an errand that ends its map, as the memory of the machine of that: it shows what the last step has looked at.
#[derive(Drop)]
pub(crate) struct Ender<'a, K: Eq, V, S: Hashes<K>> {
    pub(crate) within: Within<'a, K, V, S>,
}

/// Begins to end the map that is the seat's own.
pub(crate) fn begins<K: Eq, V, S: Hashes<K>>(
    blocks: &Blocks<Node<K, V>, OfMaps<S>>,
    seat: &mut Seat<Node<K, V>, OfMaps<S>>,
)
    requires own { seat.old.base ≡ blocks.now.words.id.views_name }
    requires away { seat.old.away ≢ None }
    requires rests { seat.old.view.slot ≡ Rests }
    requires free { seat.old.view.work ≡ NoWork }
    requires owns { IsSome seat.old.view.own }
    ensures same { (seat.new.base ≡ seat.old.base) × (seat.new.id ≡ seat.old.id) × (seat.new.away ≡ seat.old.away) }
    ensures begins { BeginsEnding seat.old.view seat.new.view }
{
    blocks.part::<EndingBegins>(seat);
}

/// Tells whether the end goes along a list that a table carries.
fn follows(machine: &EndMap) -> bool
    ensures { result ≡ is_along machine.now.stands }
{
    matches!(machine.stands, Ending::Follows { .. })
}

/// Tells whether the end is over by this step, and lets go of what that has reclaimed.
fn is_over<T: Drop>(told: Settled<T>) -> bool
    ensures { result ≡ is_done told }
{
    match told {
        Settled::Done => true,
        Settled::Goes | Settled::Waits | Settled::Gave(_) => false,
    }
}

impl<'a, K: Eq + Drop, V: Drop, S: Hashes<K>> Ender<'a, K, V, S> {
    /// Takes the next step of the end.
    fn steps(&mut self, machine: &mut EndMap) -> Settled<Node<K, V>>
        requires ends { IsEnding machine.old self.old.within.seat.now.view }
        ensures told { EndedSo machine.new result self.new.within.seat.now.view }
        ensures left { GetsOnBy machine.old machine.new result self.old.within.seat.now.view self.new.within.seat.now.view }
        ensures along { is_along machine.old.stands ≡ true → result ≡ Goes }
        ensures stays { StaysElse self.old.within.seat.now.view self.new.within.seat.now.view }
        ensures same { IsSameSeat self.old.within self.new.within }
    {
        machine.step(self)
    }

    /// Goes along the list that a table carries, if it has come to one.
    fn goes_along(&mut self, machine: &mut EndMap)
        requires ends { IsEnding machine.old self.old.within.seat.now.view }
        ensures ends { IsEnding machine.new self.new.within.seat.now.view }
        ensures off { is_along machine.new.stands ≡ false }
        ensures left { left_in self.new.within.seat.now.view.work ≤ left_in self.old.within.seat.now.view.work }
        ensures stays { StaysElse self.old.within.seat.now.view self.new.within.seat.now.view }
        ensures same { IsSameSeat self.old.within self.new.within }
    {
        'list: while follows(machine) {
            drop(self.steps(machine));
        }
    }

    /// Takes the steps of the end until it is over. What is reclaimed is let go of, each pair as its step reclaims it.
    pub(crate) fn ends_by(&mut self, machine: EndMap)
        requires ends { IsEnding machine self.old.within.seat.now.view }
        requires off { is_along machine.stands ≡ false }
        ensures free { self.new.within.seat.now.view.work ≡ NoWork }
        ensures stays { StaysElse self.old.within.seat.now.view self.new.within.seat.now.view }
        ensures same { IsSameSeat self.old.within self.new.within }
    {
        let mut machine = machine;
        'until: loop {
            let told = self.steps(&mut machine);
            if is_over(told) {
                return;
            }
            self.goes_along(&mut machine);
        }
    }
}

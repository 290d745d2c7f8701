//! A session goes over the pairs of its map, and shows each of them to an onlooker.
ghost use Rattle.std.specs.Prelude.{◌≡◌, IfNone, IfSome};
ghost use Rattle.map_tables.specs.declared.node.Node.{Node};
ghost use Rattle.papaya_raw.specs.declared.machines.progress.Progress.{Progress};
ghost use Rattle.threads_calls.specs.Given.Made.{IsSameSeat};
ghost use Rattle.threads_calls.specs.Given.ErrandsLooking.{IsOfThem, StaysThere};
ghost use Rattle.threads_calls.specs.Given.ErrandsSweeping.{HasGoneOver, IsReady, IsSweeping, MayGoOver, WalkedSo};
ghost use Rattle.threads_calls.specs.Given.CallKindsKinds.{PairIsVisible};
ghost use Rattle.threads_calls.specs.Given.ViewsLooks.{shown_in};
ghost use Rattle.papaya_raw.specs.Given.ReservesDeclared.sweep.Purpose.TheVariants.{Walks as ForWalk};
ghost use Rattle.threads_calls.specs.Given.SeizeViewsDeclared.view.Has.TheVariants.{Nothing};
ghost use Rattle.threads_calls.specs.Given.SeizeViewsDeclared.view.SlotView.TheVariants.{Inside};
ghost use Rattle.threads_sweeps.specs.Closures.{WasAskedNext};
ghost use Rattle.threads_sweeps.specs.Onlookers.{HasShownTo, SeesSo, WasShown};
ghost use Rattle.threads_sweeps.specs.Heard.{IsHeard};
ghost use Rattle.threads_sweeps.specs.Swept.{HasGone};
ghost use Rattle.threads_sweeps.specs.declared.hearing.Heard.TheVariants.{Ended};

use crate::hearing::{Heard, hears};
use crate::onlooker::Onlooker;
use map_tables::{Hashes, Node};
use papaya_raw::machines::{Machine, Sweep};
use seize_blocks::{Blocks, Errand, Seat};
use seize_words::{Fault, Link, Look};
use std::hash::Hash;
use std::sync::Wait;
use threads_calls::{OfMaps, SessionBase, Sleepers, Waiter, Within};

/// A walk over the pairs of a map.
pub struct Walks<'w, R, K, V, S, T> {
    rt: &'w R,
    sleepers: &'w Sleepers,
    hasher: &'w S,
    machine: &'w mut Machine<K, V>,
    near: u64,
    onlooker: T,
}

/// Shows the pair of a word.
fn shows<K: Eq, V, S: Hashes<K>, T: Onlooker<K, V>>(
    within: &Within<'_, K, V, S>,
    word: u64,
    onlooker: &mut T,
)
    requires may { T.may_see onlooker.old }
    requires shown { PairIsVisible (shown_in within.now.seat.now.view.held) word }
    ensures seen { WasShown T.has_seen word within.now.seat.now.view onlooker.old onlooker.new }
    ensures may { T.may_see onlooker.new }
{
    match within.value(Link::block_of(word)) {
        Node::Pair(key, value) => onlooker.sees(key, value),
        Node::Table { .. } | Node::Shards => unreachable!(),
    }
}

/// Shows the pair of a word, and asks for the next one.
fn shows_next<K: Eq + Hash + Drop, V: Drop, S: Hashes<K>, T: Onlooker<K, V>>(
    within: &mut Within<'_, K, V, S>,
    hasher: &S,
    machine: &mut Machine<K, V>,
    word: u64,
    onlooker: &mut T,
)
    requires ready { IsReady hasher.now machine.old within.old.seat.now.view }
    requires shown { PairIsVisible (shown_in within.old.seat.now.view.held) word }
    requires may { T.may_see onlooker.old }
    ensures walks { IsSweeping ForWalk hasher.now machine.new within.new.seat.now.view }
    ensures seen { WasShown T.has_seen word within.old.seat.now.view onlooker.old onlooker.new }
    ensures next { WasAskedNext within.old.seat.now.view within.new.seat.now.view }
    ensures stays { StaysThere within.old.seat.now.view within.new.seat.now.view }
    ensures them { IsOfThem within.old.seat.now.view within.new.seat.now.view }
    ensures same { IsSameSeat within.old within.new }
    ensures may { T.may_see onlooker.new }
{
    shows(within, word, onlooker);
    within.asks_next(hasher, machine);
}

/// Does what follows on what a step of a walk has told: a pair is shown, and the next one asked for. Returns how the walk has ended, if it has.
fn shows_told<K: Eq + Hash + Drop, V: Drop, S: Hashes<K>, T: Onlooker<K, V>>(
    within: &mut Within<'_, K, V, S>,
    hasher: &S,
    machine: &mut Machine<K, V>,
    heard: Heard,
    onlooker: &mut T,
) -> Option<Result<(), Fault>>
    requires walked { (told : Progress (Node K V)) × IsHeard told heard × WalkedSo hasher.now machine.old told within.old.seat.now.view }
    requires may { T.may_see onlooker.old }
    ensures ended { IfSome result (λ end. (heard ≡ Ended end) × (within.new.seat.now.view ≡ within.old.seat.now.view)) }
    ensures goes { IfNone result (IsSweeping ForWalk hasher.now machine.new within.new.seat.now.view) }
    ensures seen { (told : Progress (Node K V)) → IsHeard told heard → SeesSo T.has_seen told onlooker.old within.old.seat.now.view onlooker.new within.new.seat.now.view }
    ensures stays { StaysThere within.old.seat.now.view within.new.seat.now.view }
    ensures them { IsOfThem within.old.seat.now.view within.new.seat.now.view }
    ensures same { IsSameSeat within.old within.new }
    ensures may { T.may_see onlooker.new }
{
    match heard {
        Heard::Goes => None,
        Heard::Ready => {
            within.asks_next(hasher, machine);
            None
        }
        Heard::Shows(word) => {
            shows_next(within, hasher, machine, word, onlooker);
            None
        }
        Heard::Ended(end) => Some(end),
        Heard::Asks(_) => unreachable!(),
    }
}

/// Takes the steps of a walk until it has ended, and shows each pair to which it comes. How many steps it takes is up to the others.
fn goes_over<R: Wait, K: Eq + Hash + Drop, V: Drop, S: Hashes<K>, T: Onlooker<K, V>>(
    within: &mut Within<'_, K, V, S>,
    rt: &R,
    sleepers: &Sleepers,
    hasher: &S,
    machine: &mut Machine<K, V>,
    onlooker: &mut T,
) -> Result<(), Fault>
    requires over { MayGoOver K.eq S.hash ForWalk hasher.now machine.old within.old.seat.now.view }
    requires may { T.may_see onlooker.old }
    ensures gone { HasGoneOver K.eq S.hash ForWalk result within.old.seat.now.view within.new.seat.now.view }
    ensures shown { HasShownTo K.eq S.hash T.has_seen onlooker.old onlooker.new within.old.seat.now.view within.new.seat.now.view }
    ensures same { IsSameSeat within.old within.new }
{
    within.begins(machine);
    let mut waiter = Waiter::new(sleepers);
    for _ in rt.forever() {
        let told = within.walks(machine, hasher);
        waiter.heeds(rt, &told, machine);
        let heard = hears(told);
        if let Some(end) = shows_told(within, hasher, machine, heard, onlooker) {
            return end;
        }
    }
    unreachable!()
}

impl<'w, R: Wait, K: Eq + Hash + Drop, V: Drop, S: Hashes<K>, T: Onlooker<K, V>> Errand<
    Node<K, V>,
    OfMaps<S>,
> for Walks<'w, R, K, V, S, T> {
    type Answer = (Result<(), Fault>, T);

    ghost asks = { λ w fixed v. MayGoOver K.eq S.hash ForWalk w.hasher.now w.machine.now v × T.may_see w.onlooker };

    ghost did = { λ w fixed v answer n. HasGoneOver K.eq S.hash ForWalk answer.0 v n × HasShownTo K.eq S.hash T.has_seen w.onlooker answer.1 v n };

    fn run(
        self,
        blocks: &Blocks<Node<K, V>, OfMaps<S>>,
        seat: &mut Seat<Node<K, V>, OfMaps<S>>,
    ) -> (Result<(), Fault>, T) {
        let Walks {
            rt,
            sleepers,
            hasher,
            machine,
            near,
            onlooker,
        } = self;
        let mut onlooker = onlooker;
        let mut within = Within::new(blocks, seat, near);
        let end = goes_over(&mut within, rt, sleepers, hasher, machine, &mut onlooker);
        (end, onlooker)
    }
}

/// Shows the pairs of a session's map to an onlooker, within the section of its slot, and hands that back: each pair that is there from the beginning of the walk to its end once, and
/// others that were there at a moment of it, none twice. The faults are `Capacity` and `Memory`, of a table that this needs first; some pairs may have been shown then.
pub fn shows_to<R: Wait, K: Eq + Hash + Drop, V: Drop, S: Hashes<K>, T: Onlooker<K, V>>(
    session: &mut SessionBase<'_, K, V, S>,
    rt: &R,
    onlooker: T,
) -> (Result<(), Fault>, T)
    requires inside { session.old.caller.seat.view.slot ≡ Inside session.old.slot Nothing }
    requires may { T.may_see onlooker }
    ensures inside { session.new.caller.seat.view.slot ≡ Inside session.new.slot Nothing }
    ensures slot { session.new.slot ≡ session.old.slot }
    ensures gone { HasGone K.eq S.hash ForWalk result.0 session.old.caller.seat.view session.new.caller.seat.view }
    ensures shown { HasShownTo K.eq S.hash T.has_seen onlooker result.1 session.old.caller.seat.view session.new.caller.seat.view }
    ensures map { session.new.caller.seat.view.map ≡ session.old.caller.seat.view.map }
    ensures blocks { session.new.caller.blocks ≡ session.old.caller.blocks }
{
    let sweep = Sweep::walk(session.setting());
    let mut machine = Machine::Sweep(sweep);
    let sleepers = session.sleepers();
    let hasher = session.hasher();
    let near = session.near();
    session.sends(Walks {
        rt,
        sleepers,
        hasher,
        machine: &mut machine,
        near,
        onlooker,
    })
}

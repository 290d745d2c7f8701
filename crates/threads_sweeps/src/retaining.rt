//! A session removes the pairs of its map that a test does not keep.
ghost use Rattle.std.specs.Prelude.{◌≡◌, Bool, IfNone, IfSome};
ghost use Rattle.map_tables.specs.declared.node.Node.{Node};
ghost use Rattle.papaya_raw.specs.declared.machines.progress.Progress.{Progress};
ghost use Rattle.threads_calls.specs.Given.Made.{IsSameSeat};
ghost use Rattle.threads_calls.specs.Given.ErrandsLooking.{IsOfThem, StaysThere};
ghost use Rattle.threads_calls.specs.Given.ErrandsSweeping.{HasGoneOver, IsAskingOf, IsSweeping, MayGoOver, RetainedSo};
ghost use Rattle.threads_calls.specs.Given.CallKindsKinds.{PairIsVisible};
ghost use Rattle.threads_calls.specs.Given.ViewsLooks.{shown_in};
ghost use Rattle.papaya_raw.specs.Given.ReservesDeclared.sweep.Purpose.TheVariants.{Retains as ToRetain};
ghost use Rattle.threads_calls.specs.Given.SeizeViewsDeclared.view.Has.TheVariants.{Nothing};
ghost use Rattle.threads_calls.specs.Given.SeizeViewsDeclared.view.SlotView.TheVariants.{Inside};
ghost use Rattle.threads_sweeps.specs.Closures.{HasHeeded, HeedsSo, WasCalledWith, WasTold};
ghost use Rattle.threads_sweeps.specs.Heard.{IsHeard};
ghost use Rattle.threads_sweeps.specs.Swept.{HasGone};
ghost use Rattle.threads_sweeps.specs.declared.hearing.Heard.TheVariants.{Ended};

use crate::hearing::{Heard, hears};
use map_tables::{Hashes, Node};
use papaya_raw::machines::{Machine, Sweep};
use seize_blocks::{Blocks, Errand, Seat};
use seize_words::{Fault, Link, Look};
use std::hash::Hash;
use std::sync::Wait;
use threads_calls::{OfMaps, SessionBase, Sleepers, Waiter, Within};

/// A retaining of the pairs of a map of which a test says yes.
pub struct Retains<'r, R, K, V, S, F> {
    rt: &'r R,
    sleepers: &'r Sleepers,
    hasher: &'r S,
    machine: &'r mut Machine<K, V>,
    near: u64,
    keep: &'r mut F,
}

/// Asks whether the pair of a word is to be kept.
fn keeps<K: Eq, V, S: Hashes<K>, F: FnMut(&K, &V) -> bool>(
    within: &Within<'_, K, V, S>,
    word: u64,
    keep: &mut F,
) -> bool
    requires callable { F.IsAlwaysCallable keep.old }
    requires shown { PairIsVisible (shown_in within.now.seat.now.view.held) word }
    ensures called { WasCalledWith F.FnMut word within.now.seat.now.view keep.old result keep.new }
    ensures callable { F.IsAlwaysCallable keep.new }
{
    match within.value(Link::block_of(word)) {
        Node::Pair(key, value) => keep(key, value),
        Node::Table { .. } | Node::Shards => unreachable!(),
    }
}

/// Tells whether the pair of a word, about which it asks, is to be kept.
fn tells<K: Eq + Hash + Drop, V: Drop, S: Hashes<K>, F: FnMut(&K, &V) -> bool>(
    within: &mut Within<'_, K, V, S>,
    hasher: &S,
    machine: &mut Machine<K, V>,
    word: u64,
    keep: &mut F,
)
    requires asks { IsAskingOf hasher.now word machine.old within.old.seat.now.view }
    requires shown { PairIsVisible (shown_in within.old.seat.now.view.held) word }
    requires callable { F.IsAlwaysCallable keep.old }
    ensures retains { IsSweeping ToRetain hasher.now machine.new within.new.seat.now.view }
    ensures told { (kept : Bool) × WasCalledWith F.FnMut word within.old.seat.now.view keep.old kept keep.new × WasTold kept within.old.seat.now.view within.new.seat.now.view }
    ensures stays { StaysThere within.old.seat.now.view within.new.seat.now.view }
    ensures them { IsOfThem within.old.seat.now.view within.new.seat.now.view }
    ensures same { IsSameSeat within.old within.new }
    ensures callable { F.IsAlwaysCallable keep.new }
{
    let kept = keeps(within, word, keep);
    within.keeps(hasher, machine, kept);
}

/// Does what follows on what a step of a retaining has told: where that asks about a pair, it is told whether it is to be kept. Returns how it has ended, if it has.
fn tells_asked<K: Eq + Hash + Drop, V: Drop, S: Hashes<K>, F: FnMut(&K, &V) -> bool>(
    within: &mut Within<'_, K, V, S>,
    hasher: &S,
    machine: &mut Machine<K, V>,
    heard: Heard,
    keep: &mut F,
) -> Option<Result<(), Fault>>
    requires retained { (told : Progress (Node K V)) × IsHeard told heard × RetainedSo hasher.now machine.old told within.old.seat.now.view }
    requires callable { F.IsAlwaysCallable keep.old }
    ensures ended { IfSome result (λ end. (heard ≡ Ended end) × (within.new.seat.now.view ≡ within.old.seat.now.view)) }
    ensures goes { IfNone result (IsSweeping ToRetain hasher.now machine.new within.new.seat.now.view) }
    ensures heeded { (told : Progress (Node K V)) → IsHeard told heard → HeedsSo F.FnMut told keep.old within.old.seat.now.view keep.new within.new.seat.now.view }
    ensures stays { StaysThere within.old.seat.now.view within.new.seat.now.view }
    ensures them { IsOfThem within.old.seat.now.view within.new.seat.now.view }
    ensures same { IsSameSeat within.old within.new }
    ensures callable { F.IsAlwaysCallable keep.new }
{
    match heard {
        Heard::Goes => None,
        Heard::Asks(word) => {
            tells(within, hasher, machine, word, keep);
            None
        }
        Heard::Ended(end) => Some(end),
        Heard::Ready | Heard::Shows(_) => unreachable!(),
    }
}

/// Takes the steps of a retaining until it has ended, and tells it of each pair whether that is to be kept. How many steps it takes is up to the others.
fn sifts<R: Wait, K: Eq + Hash + Drop, V: Drop, S: Hashes<K>, F: FnMut(&K, &V) -> bool>(
    within: &mut Within<'_, K, V, S>,
    rt: &R,
    sleepers: &Sleepers,
    hasher: &S,
    machine: &mut Machine<K, V>,
    keep: &mut F,
) -> Result<(), Fault>
    requires may { MayGoOver K.eq S.hash ToRetain hasher.now machine.old within.old.seat.now.view }
    requires callable { F.IsAlwaysCallable keep.old }
    ensures gone { HasGoneOver K.eq S.hash ToRetain result within.old.seat.now.view within.new.seat.now.view }
    ensures heeded { HasHeeded K.eq S.hash F.FnMut keep.old within.old.seat.now.view within.new.seat.now.view }
    ensures same { IsSameSeat within.old within.new }
{
    within.begins(machine);
    let mut waiter = Waiter::new(sleepers);
    for _ in rt.forever() {
        let told = within.retains(machine, hasher);
        waiter.heeds(rt, &told, machine);
        let heard = hears(told);
        if let Some(end) = tells_asked(within, hasher, machine, heard, keep) {
            return end;
        }
    }
    unreachable!()
}

impl<'r, R: Wait, K: Eq + Hash + Drop, V: Drop, S: Hashes<K>, F: FnMut(&K, &V) -> bool> Errand<
    Node<K, V>,
    OfMaps<S>,
> for Retains<'r, R, K, V, S, F> {
    type Answer = Result<(), Fault>;

    ghost asks = { λ r fixed v. MayGoOver K.eq S.hash ToRetain r.hasher.now r.machine.now v × F.IsAlwaysCallable r.keep.now };

    ghost did = { λ r fixed v answer n. HasGoneOver K.eq S.hash ToRetain answer v n × HasHeeded K.eq S.hash F.FnMut r.keep.now v n };

    fn run(
        self,
        blocks: &Blocks<Node<K, V>, OfMaps<S>>,
        seat: &mut Seat<Node<K, V>, OfMaps<S>>,
    ) -> Result<(), Fault> {
        let Retains {
            rt,
            sleepers,
            hasher,
            machine,
            near,
            keep,
        } = self;
        let mut within = Within::new(blocks, seat, near);
        sifts(&mut within, rt, sleepers, hasher, machine, keep)
    }
}

/// Removes the pairs of a session's map about which the closure said last that they are not to be kept, within the section of its slot: each pair that is there from the beginning of
/// the call to its end is asked about, and it may be asked again. The faults are `Capacity` and `Memory`, of a table that this needs; some pairs may have been removed then.
pub fn retain<R: Wait, K: Eq + Hash + Drop, V: Drop, S: Hashes<K>, F: FnMut(&K, &V) -> bool>(
    session: &mut SessionBase<'_, K, V, S>,
    rt: &R,
    mut keep: F,
) -> Result<(), Fault>
    requires inside { session.old.caller.seat.view.slot ≡ Inside session.old.slot Nothing }
    requires callable { F.IsAlwaysCallable keep }
    ensures inside { session.new.caller.seat.view.slot ≡ Inside session.new.slot Nothing }
    ensures slot { session.new.slot ≡ session.old.slot }
    ensures gone { HasGone K.eq S.hash ToRetain result session.old.caller.seat.view session.new.caller.seat.view }
    ensures heeded { HasHeeded K.eq S.hash F.FnMut keep session.old.caller.seat.view session.new.caller.seat.view }
    ensures map { session.new.caller.seat.view.map ≡ session.old.caller.seat.view.map }
    ensures blocks { session.new.caller.blocks ≡ session.old.caller.blocks }
{
    let sweep = Sweep::retain(session.setting());
    let mut machine = Machine::Sweep(sweep);
    let sleepers = session.sleepers();
    let hasher = session.hasher();
    let near = session.near();
    session.sends(Retains {
        rt,
        sleepers,
        hasher,
        machine: &mut machine,
        near,
        keep: &mut keep,
    })
}

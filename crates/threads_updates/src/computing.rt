//! A session's call that computes. It is told one value for its pair, or for none; where another one changed that meanwhile, to leave it: then the next begins.
ghost use Rattle.std.specs.Prelude.{◌≡◌, Option, Some, false, option_map};
ghost use Rattle.seize_words.specs.OneMemory.Word.{block_in};
ghost use Rattle.map_tables.specs.declared.node.Node.TheVariants.{Pair};
ghost use Rattle.threads_calls.specs.Given.StepsAsking.{WasReplied};
ghost use Rattle.threads_calls.specs.Given.Made.{IsSameSeat};
ghost use Rattle.threads_calls.specs.Given.CallKindsKinds.{PairIsVisible, Stage};
ghost use Rattle.threads_calls.specs.Given.ErrandsCalling.{MayDoAs, wanted_of};
ghost use Rattle.threads_calls.specs.Given.ActsActs.{Compute};
ghost use Rattle.threads_calls.specs.Given.ViewsLooks.{shown_in};
ghost use Rattle.threads_calls.specs.Given.SeizeViewsDeclared.view.Has.TheVariants.{Nothing};
ghost use Rattle.threads_calls.specs.Given.SeizeViewsDeclared.view.SlotView.TheVariants.{Inside};
ghost use Rattle.threads_updates.specs.Computing.{Asks, IsAbout, Once, SaidLast, ShowsAsked, StandsAt, Told, computes as kind_that_computes};

use crate::deciding::Decides;
use map_tables::{Hashes, Node};
use papaya_raw::machines::{Answer, KeyCall, Machine, MachineReply};
use seize_blocks::{Blocks, Errand, Seat};
use seize_words::{Fault, Link, Look, Operation};
use std::hash::Hash;
use std::sync::Wait;
use threads_calls::{Halt, OfMaps, SessionBase, Sleepers, Within};

/// What a call that computes has come to.
#[derive(Drop)]
pub(crate) struct ComputedOnce<E> {
    /// What it has told last.
    pub(crate) told: Result<Answer, Fault>,
    /// From where on it would have looked for the number of a block.
    pub(crate) near: u64,
    /// With what was said that nothing is to change.
    pub(crate) end: Option<E>,
}

/// A call that computes.
#[derive(Drop)]
pub(crate) struct Computation<'c, R, K, V, S, D> {
    rt: &'c R,
    sleepers: &'c Sleepers,
    hasher: &'c S,
    machine: &'c mut Machine<K, V>,
    near: u64,
    decider: &'c D,
}

/// Returns the pair of a word.
fn pair_at<'w, K: Eq, V, S: Hashes<K>>(within: &'w Within<'_, K, V, S>, word: u64) -> (&'w K, &'w V)
    requires shown { PairIsVisible (shown_in within.now.seat.now.view.held) word }
    ensures is { (key : K) (value : V) → shown_in within.now.seat.now.view.held (block_in word) ≡ Some (Pair key value) → (result.0.now ≡ key) × (result.1.now ≡ value) }
{
    match within.value(Link::block_of(word)) {
        Node::Pair(key, value) => (key, value),
        Node::Table { .. } | Node::Shards => unreachable!(),
    }
}

/// Returns the pair of a word, or none.
fn shown_at<'w, K: Eq, V, S: Hashes<K>>(
    within: &'w Within<'_, K, V, S>,
    pair: Option<u64>,
) -> Option<(&'w K, &'w V)>
    requires shown { ShowsAsked (shown_in within.now.seat.now.view.held) pair }
    ensures about { IsAbout (shown_in within.now.seat.now.view.held) pair (option_map (λ x. (x.0.now, x.1.now)) result) }
{
    match pair {
        Some(word) => Some(pair_at(within, word)),
        None => None,
    }
}

/// Returns what is said of the pair of a word, or of none.
fn decided<K: Eq, V, S: Hashes<K>, D: Decides<K, V>>(
    within: &Within<'_, K, V, S>,
    pair: Option<u64>,
    decider: &D,
) -> Operation<V, D::End>
    requires may { D.may decider.now }
    requires shown { ShowsAsked (shown_in within.now.seat.now.view.held) pair }
    ensures gives { (about : Option (K × V)) × IsAbout (shown_in within.now.seat.now.view.held) pair about × D.gives decider.now about result }
{
    decider.decide(shown_at(within, pair))
}

/// Tells a call, which asks, what is said of the pair that it asks with, or of none. Answers whether it was told a value.
fn replies<K: Eq + Hash + Drop, V: Drop, S: Hashes<K>, D: Decides<K, V>>(
    within: &mut Within<'_, K, V, S>,
    hasher: &S,
    machine: &mut Machine<K, V>,
    pair: Option<u64>,
    decider: &D,
    end: &mut Option<D::End>,
) -> bool
    requires may { D.may decider.now }
    requires asks { Asks false hasher.now pair machine.old within.old.seat.now.view }
    requires last { SaidLast (D.gives decider.now) end.old }
    ensures goes { StandsAt result hasher.now machine.new within.new.seat.now.view }
    ensures told { WasReplied (Told (D.gives decider.now)) within.old.seat.now.view within.new.seat.now.view }
    ensures last { SaidLast (D.gives decider.now) end.new }
    ensures same { IsSameSeat within.old within.new }
{
    match decided(within, pair, decider) {
        Operation::Insert(value) => {
            within.tells(hasher, machine, pair, MachineReply::Insert(value));
            true
        }
        Operation::Remove => {
            within.tells(hasher, machine, pair, MachineReply::Remove);
            false
        }
        Operation::Abort(with) => {
            *end = Some(with);
            within.tells(hasher, machine, pair, MachineReply::Abort);
            false
        }
    }
}

/// Tells a call, which asks, what is said, if it was told no value yet, and else to leave the pair that it asks with. Answers whether it was told a value.
fn tells<K: Eq + Hash + Drop, V: Drop, S: Hashes<K>, D: Decides<K, V>>(
    within: &mut Within<'_, K, V, S>,
    hasher: &S,
    machine: &mut Machine<K, V>,
    pair: Option<u64>,
    decider: &D,
    end: &mut Option<D::End>,
    value: bool,
) -> bool
    requires may { D.may decider.now }
    requires asks { Asks value hasher.now pair machine.old within.old.seat.now.view }
    requires last { SaidLast (D.gives decider.now) end.old }
    ensures goes { StandsAt result hasher.now machine.new within.new.seat.now.view }
    ensures told { WasReplied (Told (D.gives decider.now)) within.old.seat.now.view within.new.seat.now.view }
    ensures last { SaidLast (D.gives decider.now) end.new }
    ensures same { IsSameSeat within.old within.new }
{
    if value {
        within.tells(hasher, machine, pair, MachineReply::Abort);
        return true;
    }
    replies(within, hasher, machine, pair, decider, end)
}

/// Takes the steps of a call that computes until it has ended. How many it takes is up to the others.
fn computes<R: Wait, K: Eq + Hash + Drop, V: Drop, S: Hashes<K>, D: Decides<K, V>>(
    within: &mut Within<'_, K, V, S>,
    rt: &R,
    sleepers: &Sleepers,
    hasher: &S,
    machine: &mut Machine<K, V>,
    decider: &D,
) -> ComputedOnce<D::End>
    requires may { D.may decider.now }
    requires begins { (s : Stage) × (s.told ≡ false) × MayDoAs K.eq S.hash kind_that_computes s hasher.now machine.old within.old.seat.now.view }
    ensures came { Once K.eq S.hash (D.gives decider.now) (wanted_of machine.old) result within.old.seat.now.view within.new.seat.now.view }
    ensures same { IsSameSeat within.old within.new }
{
    within.begins(machine);
    let mut value = false;
    let mut end = None;
    for _ in rt.forever() {
        match within.runs_on(rt, sleepers, hasher, machine) {
            Halt::Ended(told) => {
                let near = within.near();
                return ComputedOnce { told, near, end };
            }
            Halt::Asks(pair) => {
                value = tells(within, hasher, machine, pair, decider, &mut end, value);
            }
        }
    }
    unreachable!()
}

impl<'c, R: Wait, K: Eq + Hash + Drop, V: Drop, S: Hashes<K>, D: Decides<K, V>> Errand<
    Node<K, V>,
    OfMaps<S>,
> for Computation<'c, R, K, V, S, D> {
    type Answer = ComputedOnce<D::End>;

    ghost asks = { λ c fixed v. (s : Stage) × (s.told ≡ false) × MayDoAs K.eq S.hash kind_that_computes s c.hasher.now c.machine.now v × D.may c.decider.now };

    ghost did = { λ c fixed v answer w. Once K.eq S.hash (D.gives c.decider.now) (wanted_of c.machine.now) answer v w };

    fn run(
        self,
        blocks: &Blocks<Node<K, V>, OfMaps<S>>,
        seat: &mut Seat<Node<K, V>, OfMaps<S>>,
    ) -> ComputedOnce<D::End> {
        let Computation {
            rt,
            sleepers,
            hasher,
            machine,
            near,
            decider,
        } = self;
        let mut within = Within::new(blocks, seat, near);
        computes(&mut within, rt, sleepers, hasher, machine, decider)
    }
}

/// Begins a call that computes within the section of a session's slot, and runs it to its end.
pub(crate) fn computed<R: Wait, K: Eq + Hash + Drop, V: Drop, S: Hashes<K>, D: Decides<K, V>>(
    session: &mut SessionBase<'_, K, V, S>,
    rt: &R,
    key: K,
    decider: &D,
) -> ComputedOnce<D::End>
    requires inside { session.old.caller.seat.view.slot ≡ Inside session.old.slot Nothing }
    requires may { D.may decider.now }
    ensures inside { session.new.caller.seat.view.slot ≡ Inside session.new.slot Nothing }
    ensures slot { session.new.slot ≡ session.old.slot }
    ensures came { Once K.eq S.hash (D.gives decider.now) (Compute key) result session.old.caller.seat.view session.new.caller.seat.view }
    ensures map { session.new.caller.seat.view.map ≡ session.old.caller.seat.view.map }
    ensures blocks { session.new.caller.blocks ≡ session.old.caller.blocks }
{
    let sleepers = session.sleepers();
    let hasher = session.hasher();
    let hash = hasher.hash_of(&key);
    let call = KeyCall::compute(session.setting(), hash, key);
    let mut machine = Machine::Key(call);
    let near = session.near();
    let once = session.sends(Computation {
        rt,
        sleepers,
        hasher,
        machine: &mut machine,
        near,
        decider,
    });
    session.looks_near(once.near);
    once
}

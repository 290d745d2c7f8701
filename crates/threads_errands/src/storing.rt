//! A call of a seat on an errand that is to store a pair: by straight code as far as that goes, and by steps from there on.
ghost use Rattle.std.specs.Prelude.{◌≡◌, ◌≢◌, Option, Some, None};
ghost use Rattle.threads_errands.specs.Ahead.{IsAhead, LiesAhead};
ghost use Rattle.threads_errands.specs.Puts.{HasStored};
ghost use Rattle.threads_steps.specs.Given.ErrandsCalling.{HasCalled, HasEnded, IsBack, IsCalling, MayCall, wanted_of};
ghost use Rattle.threads_steps.specs.Given.ErrandsLooking.{Begins, StaysThere};
ghost use Rattle.threads_steps.specs.Given.ViewsTold.{pair_in};
ghost use Rattle.threads_steps.specs.Storing.{Since, making, refused};
ghost use Rattle.map_straight.specs.Straight.Storing.{call_at};
ghost use Rattle.papaya_raw.specs.declared.machines.machine.Machine.TheVariants.{Key as KeyMachine};
ghost use Rattle.map_tables.specs.declared.node.Node.{Node as AnyNode};

use crate::ahead::{Ahead, Put};
use crate::running::{runs, stands};
use map_straight::{StoringPoint, call_of};
use map_tables::{Hashes, Node, Probe, Setting, Table, Trial};
use papaya_raw::machines::{
    Answer, Calling, End, KeyCall, Machine, Missing, Replies, Takes, There, Told,
};
use seize_blocks::{Blocks, Seat};
use seize_words::Fault;
use std::hash::Hash;
use std::sync::Wait;
use threads_steps::{OfMaps, Ran, Sleepers, Within};

/// Begins a call that is to store this pair.
#[inline(always)]
fn begins<K: Eq, V, S: Hashes<K>>(
    blocks: &Blocks<Node<K, V>, OfMaps<S>>,
    seat: &mut Seat<Node<K, V>, OfMaps<S>>,
    hasher: &S,
    setting: Setting,
    hash: u64,
    there: There,
    pair: &Node<K, V>,
)
    requires own { seat.old.base ≡ blocks.now.words.id.views_name }
    requires away { seat.old.away ≢ None }
    requires may { MayCall K.eq S.hash hasher.now (KeyMachine (making setting hash there pair.now)) seat.old.view }
    ensures same { (seat.new.base ≡ seat.old.base) × (seat.new.id ≡ seat.old.id) × (seat.new.away ≡ seat.old.away) }
    ensures begun { Begins K.eq S.hash (wanted_of (KeyMachine (making setting hash there pair.now))) seat.old.view seat.new.view }
    ensures calls { IsCalling hasher.now (KeyMachine (making setting hash there pair.now)) seat.new.view }
{
    let mut within = Within::new(blocks, seat, 0);
    within.begins_to_store(hasher, setting, hash, there, pair);
}

/// Stores the pair of the seat's call, as far as straight code goes, and answers where to look for numbers next.
#[inline(always)]
fn puts<K: Eq + Hash, V, S: Hashes<K>>(
    blocks: &Blocks<Node<K, V>, OfMaps<S>>,
    seat: &mut Seat<Node<K, V>, OfMaps<S>>,
    near: u64,
    hasher: &S,
    setting: Setting,
    hash: u64,
    there: There,
    pair: Node<K, V>,
) -> (Put<K, V>, u64)
    requires own { seat.old.base ≡ blocks.now.words.id.views_name }
    requires away { seat.old.away ≢ None }
    requires ahead { IsAhead K.eq S.hash hasher.now (making setting hash there pair) seat.old.view }
    ensures same { (seat.new.base ≡ seat.old.base) × (seat.new.id ≡ seat.old.id) × (seat.new.away ≡ seat.old.away) }
    ensures stored { HasStored K.eq S.hash hasher.now setting hash there (making setting hash there pair) result.0 seat.old.view seat.new.view }
{
    let mut ahead = Ahead::new(blocks, seat, near);
    let put = ahead.stores(hasher, setting, hash, there, pair);
    let next = ahead.near();
    (put, next)
}

/// Takes the turns up to where the code stands, and the steps of the seat's call from there on. This pair has come back by then, if one has.
fn runs_on<R: Wait, K: Eq + Hash + Drop, V: Drop, S: Hashes<K>>(
    rt: &R,
    sleepers: &Sleepers,
    blocks: &Blocks<Node<K, V>, OfMaps<S>>,
    seat: &mut Seat<Node<K, V>, OfMaps<S>>,
    near: u64,
    hasher: &S,
    machine: Machine<K, V>,
    handed: Option<Node<K, V>>,
) -> Ran<K, V>
    requires own { seat.old.base ≡ blocks.now.words.id.views_name }
    requires away { seat.old.away ≢ None }
    requires ahead { LiesAhead K.eq S.hash hasher.now machine seat.old.view }
    ensures same { (seat.new.base ≡ seat.old.base) × (seat.new.id ≡ seat.old.id) × (seat.new.away ≡ seat.old.away) }
    ensures ended { HasEnded result.told seat.old.view seat.new.view }
    ensures back { (pair : AnyNode K V) → Since K.eq (S.hash hasher.now) pair machine handed → pair_in seat.old.view.calls ≡ Some pair → IsBack pair result.told result.unstored }
    ensures stays { StaysThere seat.old.view seat.new.view }
{
    let mut machine = machine;
    stands(blocks, seat, hasher, &machine);
    runs(
        rt,
        sleepers,
        blocks,
        seat,
        near,
        hasher,
        &mut machine,
        handed,
    )
}

/// Takes the steps of the seat's call from where its code stands on.
fn goes_on<R: Wait, K: Eq + Hash + Drop, V: Drop, S: Hashes<K>>(
    rt: &R,
    sleepers: &Sleepers,
    blocks: &Blocks<Node<K, V>, OfMaps<S>>,
    seat: &mut Seat<Node<K, V>, OfMaps<S>>,
    near: u64,
    hasher: &S,
    setting: Setting,
    hash: u64,
    there: There,
    own: u64,
    trial: Trial,
    spot: StoringPoint,
) -> Ran<K, V>
    requires own { seat.old.base ≡ blocks.now.words.id.views_name }
    requires away { seat.old.away ≢ None }
    requires ahead { IsAhead K.eq S.hash hasher.now (call_at setting hash there own trial spot) seat.old.view }
    ensures same { (seat.new.base ≡ seat.old.base) × (seat.new.id ≡ seat.old.id) × (seat.new.away ≡ seat.old.away) }
    ensures ended { HasEnded result.told seat.old.view seat.new.view }
    ensures back { (pair : AnyNode K V) → Since K.eq (S.hash hasher.now) pair (KeyMachine (call_at setting hash there own trial spot)) None
        → pair_in seat.old.view.calls ≡ Some pair → IsBack pair result.told result.unstored }
    ensures stays { StaysThere seat.old.view seat.new.view }
{
    let call = call_of(setting, hash, there, own, trial, spot);
    runs_on(
        rt,
        sleepers,
        blocks,
        seat,
        near,
        hasher,
        Machine::Key(call),
        None,
    )
}

/// The call whose pair has come back, as memory for its block was refused.
fn refused_of<K, V>(setting: Setting, hash: u64, there: There) -> KeyCall<K, V, K>
    ensures { result ≡ refused setting hash there }
{
    KeyCall {
        setting,
        hash,
        there,
        missing: Missing::Puts,
        asked: None,
        unmade: None,
        replies: Replies {
            takes: Takes::Nothing,
            key: None,
            absent: Told::Nothing,
            pair: 0,
            present: Told::Nothing,
        },
        own: 0,
        trial: Trial {
            table: Table {
                link: 0,
                len: 0,
                limit: 0,
                turn: 0,
            },
            probe: Probe { i: 0, len: 0 },
            met: 0,
            most: 0,
        },
        helped: false,
        stands: Calling::Over(End::Refused(Fault::Memory)),
    }
}

/// Ends the seat's call, whose pair has come back.
fn gives_back<R: Wait, K: Eq + Hash + Drop, V: Drop, S: Hashes<K>>(
    rt: &R,
    sleepers: &Sleepers,
    blocks: &Blocks<Node<K, V>, OfMaps<S>>,
    seat: &mut Seat<Node<K, V>, OfMaps<S>>,
    near: u64,
    hasher: &S,
    setting: Setting,
    hash: u64,
    there: There,
    pair: Node<K, V>,
) -> Ran<K, V>
    requires own { seat.old.base ≡ blocks.now.words.id.views_name }
    requires away { seat.old.away ≢ None }
    requires ahead { IsAhead K.eq S.hash hasher.now (refused setting hash there) seat.old.view }
    ensures same { (seat.new.base ≡ seat.old.base) × (seat.new.id ≡ seat.old.id) × (seat.new.away ≡ seat.old.away) }
    ensures ended { HasEnded result.told seat.old.view seat.new.view }
    ensures back { (its : AnyNode K V) → Since K.eq (S.hash hasher.now) its (KeyMachine (refused setting hash there)) (Some pair)
        → pair_in seat.old.view.calls ≡ Some its → IsBack its result.told result.unstored }
    ensures stays { StaysThere seat.old.view seat.new.view }
{
    let call = refused_of(setting, hash, there);
    runs_on(
        rt,
        sleepers,
        blocks,
        seat,
        near,
        hasher,
        Machine::Key(call),
        Some(pair),
    )
}

/// Stores a pair in the map that the seat knows.
#[inline(always)]
pub(crate) fn stores<R: Wait, K: Eq + Hash + Drop, V: Drop, S: Hashes<K>>(
    rt: &R,
    sleepers: &Sleepers,
    blocks: &Blocks<Node<K, V>, OfMaps<S>>,
    seat: &mut Seat<Node<K, V>, OfMaps<S>>,
    near: u64,
    hasher: &S,
    setting: Setting,
    hash: u64,
    there: There,
    pair: Node<K, V>,
) -> Ran<K, V>
    requires own { seat.old.base ≡ blocks.now.words.id.views_name }
    requires away { seat.old.away ≢ None }
    requires may { MayCall K.eq S.hash hasher.now (KeyMachine (making setting hash there pair)) seat.old.view }
    ensures same { (seat.new.base ≡ seat.old.base) × (seat.new.id ≡ seat.old.id) × (seat.new.away ≡ seat.old.away) }
    ensures called { HasCalled K.eq S.hash (wanted_of (KeyMachine (making setting hash there pair))) result.told result.unstored seat.old.view seat.new.view }
{
    begins(blocks, seat, hasher, setting, hash, there, &pair);
    let (put, next) = puts(blocks, seat, near, hasher, setting, hash, there, pair);
    match put {
        Put::Answered(answer) => Ran {
            told: Ok(Answer::Key(answer)),
            unstored: None,
            near: next,
        },
        Put::Stands(own, trial, spot) => goes_on(
            rt, sleepers, blocks, seat, next, hasher, setting, hash, there, own, trial, spot,
        ),
        Put::Back(pair) => gives_back(
            rt, sleepers, blocks, seat, next, hasher, setting, hash, there, pair,
        ),
    }
}

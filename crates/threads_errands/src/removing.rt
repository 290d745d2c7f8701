//! A call of a seat on an errand that is to remove the pair of a key: by straight code as far as that goes, and by steps from there on.
ghost use Rattle.std.specs.Prelude.{◌≡◌, ◌≢◌, None};
ghost use Rattle.threads_steps.specs.Given.ActsActs.{Remove};
ghost use Rattle.threads_steps.specs.Given.ErrandsCalling.{HasCalled, HasEnded, IsCalling, MayCall};
ghost use Rattle.threads_steps.specs.Given.ErrandsLooking.{Begins, StaysThere};
ghost use Rattle.threads_errands.specs.Ahead.{IsAhead};
ghost use Rattle.threads_errands.specs.Takes.{HasTakenOut};
ghost use Rattle.map_straight.specs.Straight.Removing.{removing_at, seeking};
ghost use Rattle.papaya_raw.specs.CallPoints.{removing, untried};
ghost use Rattle.papaya_raw.specs.declared.machines.call.Calling.TheVariants as at;
ghost use Rattle.papaya_raw.specs.declared.machines.machine.Machine.TheVariants.{Key as KeyMachine};

use crate::ahead::Ahead;
use crate::running::{runs, stands};
use map_straight::{Removal, RemovalAt, removal_of};
use map_tables::{Equivalent, Hashes, Lent, Node, Setting, Trial};
use papaya_raw::machines::{Answer, KeyCall, Machine};
use seize_blocks::{Blocks, Seat};
use seize_words::Fault;
use std::hash::Hash;
use std::marker::PhantomData;
use std::sync::Wait;
use threads_steps::{OfMaps, Ran, Sleepers, Within};

/// Begins a call that is to remove the pair of the key for which this stands.
#[inline(always)]
fn begins<K: Eq + Hash, V, Q: Equivalent<K>, S: Hashes<K>>(
    blocks: &Blocks<Node<K, V>, OfMaps<S>>,
    seat: &mut Seat<Node<K, V>, OfMaps<S>>,
    hasher: &S,
    setting: Setting,
    hash: u64,
    key: &Q,
)
    requires own { seat.old.base ≡ blocks.now.words.id.views_name }
    requires away { seat.old.away ≢ None }
    requires may { MayCall K.eq S.hash hasher.now (KeyMachine (removing setting hash (Q.stands_for key.now))) seat.old.view }
    ensures same { (seat.new.base ≡ seat.old.base) × (seat.new.id ≡ seat.old.id) × (seat.new.away ≡ seat.old.away) }
    ensures begun { Begins K.eq S.hash (Remove (Q.stands_for key.now)) seat.old.view seat.new.view }
    ensures calls { IsCalling hasher.now (KeyMachine (removing setting hash (Q.stands_for key.now))) seat.new.view }
{
    let mut within = Within::new(blocks, seat, 0);
    within.begins_to_remove(hasher, setting, hash, key);
}

/// Removes the pair of the key of the seat's call, as far as straight code goes.
#[inline(always)]
fn takes<K: Eq + Hash, V, Q: Equivalent<K>, S: Hashes<K>>(
    blocks: &Blocks<Node<K, V>, OfMaps<S>>,
    seat: &mut Seat<Node<K, V>, OfMaps<S>>,
    hasher: &S,
    setting: Setting,
    hash: u64,
    key: &Q,
) -> RemovalAt
    requires own { seat.old.base ≡ blocks.now.words.id.views_name }
    requires away { seat.old.away ≢ None }
    requires ahead { IsAhead K.eq S.hash hasher.now (seeking setting hash (Q.stands_for key.now) untried at.Roots) seat.old.view }
    ensures same { (seat.new.base ≡ seat.old.base) × (seat.new.id ≡ seat.old.id) × (seat.new.away ≡ seat.old.away) }
    ensures taken { HasTakenOut K.eq S.hash hasher.now setting hash (Q.stands_for key.now) result seat.old.view seat.new.view }
{
    let mut ahead = Ahead::new(blocks, seat, 0);
    ahead.removes(hasher, setting, hash, key)
}

/// Takes the steps of the seat's call from where its code stands on.
fn goes_on<R: Wait, K: Eq + Hash + Drop, V: Drop, Q: Equivalent<K>, S: Hashes<K>>(
    rt: &R,
    sleepers: &Sleepers,
    blocks: &Blocks<Node<K, V>, OfMaps<S>>,
    seat: &mut Seat<Node<K, V>, OfMaps<S>>,
    hasher: &S,
    setting: Setting,
    hash: u64,
    key: &Q,
    trial: Trial,
    removal: Removal,
) -> Result<Answer, Fault>
    requires own { seat.old.base ≡ blocks.now.words.id.views_name }
    requires away { seat.old.away ≢ None }
    requires ahead { IsAhead K.eq S.hash hasher.now (seeking setting hash (Q.stands_for key.now) trial (removing_at setting trial removal)) seat.old.view }
    ensures same { (seat.new.base ≡ seat.old.base) × (seat.new.id ≡ seat.old.id) × (seat.new.away ≡ seat.old.away) }
    ensures ended { HasEnded result seat.old.view seat.new.view }
    ensures stays { StaysThere seat.old.view seat.new.view }
{
    let lent = Lent {
        asked: key,
        keys: PhantomData,
    };
    let call: KeyCall<K, V, Lent<'_, K, Q>> = removal_of(setting, hash, lent, trial, removal);
    let mut machine = Machine::Key(call);
    stands(blocks, seat, hasher, &machine);
    let ran = runs(rt, sleepers, blocks, seat, 0, hasher, &mut machine, None);
    let Ran {
        told,
        unstored,
        near: _,
    } = ran;
    drop(unstored);
    told
}

/// Removes the pair of a key from the map that the seat knows.
#[inline(always)]
pub(crate) fn removes<R: Wait, K: Eq + Hash + Drop, V: Drop, Q: Equivalent<K>, S: Hashes<K>>(
    rt: &R,
    sleepers: &Sleepers,
    blocks: &Blocks<Node<K, V>, OfMaps<S>>,
    seat: &mut Seat<Node<K, V>, OfMaps<S>>,
    hasher: &S,
    setting: Setting,
    hash: u64,
    key: &Q,
) -> Result<Answer, Fault>
    requires own { seat.old.base ≡ blocks.now.words.id.views_name }
    requires away { seat.old.away ≢ None }
    requires may { MayCall K.eq S.hash hasher.now (KeyMachine (removing setting hash (Q.stands_for key.now))) seat.old.view }
    ensures same { (seat.new.base ≡ seat.old.base) × (seat.new.id ≡ seat.old.id) × (seat.new.away ≡ seat.old.away) }
    ensures called { HasCalled K.eq S.hash (Remove (Q.stands_for key.now)) result None seat.old.view seat.new.view }
{
    begins(blocks, seat, hasher, setting, hash, key);
    match takes(blocks, seat, hasher, setting, hash, key) {
        RemovalAt::Answered(answer) => Ok(Answer::Key(answer)),
        RemovalAt::Stands(trial, removal) => goes_on(
            rt, sleepers, blocks, seat, hasher, setting, hash, key, trial, removal,
        ),
    }
}

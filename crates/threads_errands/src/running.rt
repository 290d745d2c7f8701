//! A call of a seat on an errand from where it stands on: by steps, but for places that it copies, and full batches that it tries.
ghost use Rattle.std.specs.Prelude.{◌≡◌, ◌≢◌, Option, Some, None, IfOk};
ghost use Rattle.map_tables.specs.declared.node.Node.{Node as AnyNode};
ghost use Rattle.threads_steps.specs.Given.ByKey.{by_key, key_call};
ghost use Rattle.papaya_raw.specs.declared.machines.machine.Machine.TheVariants.{Key as KeyMachine};
ghost use Rattle.threads_errands.specs.Ahead.{IsAhead, LiesAhead, StandsAt};
ghost use Rattle.threads_steps.specs.Given.ErrandsCalling.{CalledSo, HasEnded, IsAnswerBy, IsBack, IsCalling, StepsTo, sort_of};
ghost use Rattle.threads_steps.specs.Given.ErrandsLooking.{IsOfThem, StaysThere};
ghost use Rattle.threads_steps.specs.Given.ViewsTold.{pair_in};
ghost use Rattle.threads_steps.specs.Storing.{Since};

use crate::ahead::Ahead;
use map_tables::{Equivalent, Hashes, Node};
use papaya_raw::machines::{KeyCall, Machine, Progress};
use seize_blocks::{Blocks, Seat};
use std::hash::Hash;
use std::sync::Wait;
use threads_steps::{OfMaps, Ran, Sleepers, Waiter, Within, ended};

/// The seat takes the turns up to where the code stands.
pub(crate) fn stands<K: Eq + Hash, V, Q: Equivalent<K>, S: Hashes<K>>(
    blocks: &Blocks<Node<K, V>, OfMaps<S>>,
    seat: &mut Seat<Node<K, V>, OfMaps<S>>,
    hasher: &S,
    machine: &Machine<K, V, Q>,
)
    requires own { seat.old.base ≡ blocks.now.words.id.views_name }
    requires away { seat.old.away ≢ None }
    requires ahead { LiesAhead K.eq S.hash hasher.now (by_key Q.stands_for machine.now) seat.old.view }
    ensures same { (seat.new.base ≡ seat.old.base) × (seat.new.id ≡ seat.old.id) × (seat.new.away ≡ seat.old.away) }
    ensures stands { StandsAt (by_key Q.stands_for machine.now) seat.old.view seat.new.view }
{
    let mut ahead = Ahead::new(blocks, seat, 0);
    ahead.stands(hasher, machine);
}

/// Copies places of the chunk that a call helps with, or tries a full batch, as far as straight code goes.
#[inline(always)]
fn copies<K: Eq + Hash + Drop, V: Drop, Q: Equivalent<K>, S: Hashes<K>>(
    blocks: &Blocks<Node<K, V>, OfMaps<S>>,
    seat: &mut Seat<Node<K, V>, OfMaps<S>>,
    hasher: &S,
    call: &mut KeyCall<K, V, Q>,
)
    requires own { seat.old.base ≡ blocks.now.words.id.views_name }
    requires away { seat.old.away ≢ None }
    requires ahead { IsAhead K.eq S.hash hasher.now (key_call Q.stands_for call.old) seat.old.view }
    ensures same { (seat.new.base ≡ seat.old.base) × (seat.new.id ≡ seat.old.id) × (seat.new.away ≡ seat.old.away) }
    ensures ahead { IsAhead K.eq S.hash hasher.now (key_call Q.stands_for call.new) seat.new.view }
    ensures stays { StaysThere seat.old.view seat.new.view }
    ensures them { IsOfThem seat.old.view seat.new.view }
    ensures back { (pair : AnyNode K V) (handed : Option (AnyNode K V)) → Since K.eq (S.hash hasher.now) pair (KeyMachine (key_call Q.stands_for call.old)) handed
        → Since K.eq (S.hash hasher.now) pair (KeyMachine (key_call Q.stands_for call.new)) handed }
{
    let mut ahead = Ahead::new(blocks, seat, 0);
    ahead.helps(hasher, call);
}

/// Copies places of the chunk that the seat's call helps with, or tries the batch that it has filled, if it stands there. The call stands behind that then.
#[inline(always)]
fn helps<K: Eq + Hash + Drop, V: Drop, Q: Equivalent<K>, S: Hashes<K>>(
    blocks: &Blocks<Node<K, V>, OfMaps<S>>,
    seat: &mut Seat<Node<K, V>, OfMaps<S>>,
    hasher: &S,
    machine: &mut Machine<K, V, Q>,
)
    requires own { seat.old.base ≡ blocks.now.words.id.views_name }
    requires away { seat.old.away ≢ None }
    requires calls { IsCalling hasher.now (by_key Q.stands_for machine.old) seat.old.view }
    ensures same { (seat.new.base ≡ seat.old.base) × (seat.new.id ≡ seat.old.id) × (seat.new.away ≡ seat.old.away) }
    ensures calls { IsCalling hasher.now (by_key Q.stands_for machine.new) seat.new.view }
    ensures like { sort_of (by_key Q.stands_for machine.new) ≡ sort_of (by_key Q.stands_for machine.old) }
    ensures stays { StaysThere seat.old.view seat.new.view }
    ensures them { IsOfThem seat.old.view seat.new.view }
    ensures back { (pair : AnyNode K V) (handed : Option (AnyNode K V)) → Since K.eq (S.hash hasher.now) pair (by_key Q.stands_for machine.old) handed → Since K.eq (S.hash hasher.now) pair (by_key Q.stands_for machine.new) handed }
{
    let Machine::Key(call) = &mut *machine else {
        return;
    };
    copies(blocks, seat, hasher, call);
    stands(blocks, seat, hasher, machine);
}

/// Takes the next step of the seat's call, and answers what that tells, and where to look for numbers next.
#[inline(always)]
fn steps<K: Eq + Hash + Drop, V: Drop, Q: Equivalent<K>, S: Hashes<K>>(
    blocks: &Blocks<Node<K, V>, OfMaps<S>>,
    seat: &mut Seat<Node<K, V>, OfMaps<S>>,
    near: u64,
    hasher: &S,
    machine: &mut Machine<K, V, Q>,
) -> (Progress<Node<K, V>>, u64)
    requires own { seat.old.base ≡ blocks.now.words.id.views_name }
    requires away { seat.old.away ≢ None }
    requires calls { IsCalling hasher.now (by_key Q.stands_for machine.old) seat.old.view }
    ensures same { (seat.new.base ≡ seat.old.base) × (seat.new.id ≡ seat.old.id) × (seat.new.away ≡ seat.old.away) }
    ensures told { CalledSo hasher.now (by_key Q.stands_for machine.new) result.0 seat.new.view }
    ensures like { sort_of (by_key Q.stands_for machine.new) ≡ sort_of (by_key Q.stands_for machine.old) }
    ensures stepped { StepsTo K.eq S.hash hasher.now (by_key Q.stands_for machine.old) (by_key Q.stands_for machine.new) result.0 seat.old.view seat.new.view }
{
    let mut within = Within::new(blocks, seat, near);
    let told = within.calls_by(machine, hasher);
    let next = within.near();
    (told, next)
}

/// Runs the seat's call until it has ended. This pair has come back by then, if one has. It is a call of its own: straight code seldom comes to it.
#[inline(never)]
pub(crate) fn runs<R: Wait, K: Eq + Hash + Drop, V: Drop, Q: Equivalent<K>, S: Hashes<K>>(
    rt: &R,
    sleepers: &Sleepers,
    blocks: &Blocks<Node<K, V>, OfMaps<S>>,
    seat: &mut Seat<Node<K, V>, OfMaps<S>>,
    near: u64,
    hasher: &S,
    machine: &mut Machine<K, V, Q>,
    handed: Option<Node<K, V>>,
) -> Ran<K, V>
    requires own { seat.old.base ≡ blocks.now.words.id.views_name }
    requires away { seat.old.away ≢ None }
    requires calls { IsCalling hasher.now (by_key Q.stands_for machine.old) seat.old.view }
    ensures same { (seat.new.base ≡ seat.old.base) × (seat.new.id ≡ seat.old.id) × (seat.new.away ≡ seat.old.away) }
    ensures ended { HasEnded result.told seat.old.view seat.new.view }
    ensures fits { IfOk result.told (IsAnswerBy (by_key Q.stands_for machine.old)) }
    ensures back { (pair : AnyNode K V) → Since K.eq (S.hash hasher.now) pair (by_key Q.stands_for machine.old) handed → pair_in seat.old.view.calls ≡ Some pair
        → IsBack pair result.told result.unstored }
    ensures stays { StaysThere seat.old.view seat.new.view }
{
    let mut unstored = handed;
    let mut near = near;
    let mut waiter = Waiter::new(sleepers);
    for _ in rt.forever() {
        helps(blocks, seat, hasher, machine);
        let (told, up_to) = steps(blocks, seat, near, hasher, machine);
        near = up_to;
        waiter.heeds(rt, &told, machine);
        if let Some(answer) = ended(told, &mut unstored) {
            return Ran {
                told: answer,
                unstored,
                near,
            };
        }
    }
    unreachable!()
}

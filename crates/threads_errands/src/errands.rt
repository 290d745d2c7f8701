//! What a seat of maps is sent for: to make a map, to look a key up, to store a pair, to remove one, to run a call, and to count the pairs of a map.
ghost use Rattle.std.specs.Prelude.{◌≡◌, IfOk, None, false};
ghost use Rattle.std.specs.Fn.{FnOnceReturns};
ghost use Rattle.threads_steps.specs.Asking.{HasAnswered, MakingSays, MayTest, TestSays, makes_pair, removes_if};
ghost use Rattle.threads_steps.specs.Given.ErrandsCalling.{HasCalled, IsAnswerBy, MayCall, MayDoAs, wanted_of};
ghost use Rattle.threads_steps.specs.Given.ErrandsCounting.{HasCounted, MayCount};
ghost use Rattle.threads_steps.specs.Given.CallKindsKinds.{Stage};
ghost use Rattle.threads_steps.specs.Given.ErrandsLooking.{HasFound, MayLook};
ghost use Rattle.threads_steps.specs.Given.ErrandsMaking.{HasOutcome, MayBegin};
ghost use Rattle.threads_steps.specs.Given.ViewsDeclared.view.SeatWork.TheVariants.{Nothing as NoWork};
ghost use Rattle.seize_views.specs.declared.view.SlotView.TheVariants.{Rests};
ghost use Rattle.papaya_raw.specs.CallAsks.{removing_if};
ghost use Rattle.papaya_raw.specs.CallPoints.{removing};
ghost use Rattle.papaya_raw.specs.declared.machines.machine.Machine.TheVariants.{Key as KeyMachine};
ghost use Rattle.threads_steps.specs.Given.ActsActs.{Remove, RemoveIf};
ghost use Rattle.threads_steps.specs.Storing.{making};

use crate::removing::removes;
use crate::storing::stores;
use map_machines::{Lookup, NewMap};
use map_straight::Sight;
use map_tables::{Equivalent, Hashes, Lent, Node, Setting};
use papaya_raw::machines::{Answer, KeyCall, Machine, There};
use seize_blocks::{Blocks, Errand, Seat};
use seize_words::Fault;
use std::hash::Hash;
use std::marker::PhantomData;
use std::sync::Wait;
use threads_steps::{OfMaps, Ran, Sleepers, Within, goes_on, sees};

/// Makes a map of no table.
#[derive(Drop)]
pub struct Makes<'h, S> {
    pub hasher: &'h S,
    pub opening: NewMap,
}

impl<'h, K: Eq + Drop, V: Drop, S: Hashes<K>> Errand<Node<K, V>, OfMaps<S>> for Makes<'h, S> {
    type Answer = Result<Setting, Fault>;

    ghost asks = { λ m fixed v. MayBegin fixed m.opening × (v.slot ≡ Rests) × (v.work ≡ NoWork) };

    ghost did = { λ m fixed v answer w. HasOutcome m.hasher.now m.opening answer v w };

    fn run(
        self,
        blocks: &Blocks<Node<K, V>, OfMaps<S>>,
        seat: &mut Seat<Node<K, V>, OfMaps<S>>,
    ) -> Result<Setting, Fault> {
        let Makes { hasher, opening } = self;
        let mut within = Within::new(blocks, seat, 0);
        within.makes_map(false, hasher, opening)
    }
}

/// Looks a key up, by this lookup.
#[derive(Drop)]
pub struct Finds<'f, R, Q> {
    pub rt: &'f R,
    pub key: &'f Q,
    pub lookup: Lookup,
}

impl<'f, R: Wait, K: Eq + Hash, V, S: Hashes<K>, Q: Equivalent<K>> Errand<Node<K, V>, OfMaps<S>>
    for Finds<'f, R, Q> {
    type Answer = Option<u64>;

    ghost asks = { λ f fixed v. MayLook S.hash (Q.stands_for f.key.now) f.lookup v };

    ghost did = { λ f fixed v answer w. HasFound K.eq S.hash (Q.stands_for f.key.now) answer v w };

    fn run(
        self,
        blocks: &Blocks<Node<K, V>, OfMaps<S>>,
        seat: &mut Seat<Node<K, V>, OfMaps<S>>,
    ) -> Option<u64> {
        let Finds { rt, key, lookup } = self;
        let root = lookup.root;
        let mode = lookup.mode;
        let hash = lookup.hash;
        match sees(blocks, seat, root, mode, hash, key) {
            Sight::Ends(found) => found,
            Sight::Stands(stands) => goes_on(rt, blocks, seat, root, mode, hash, stands, key),
        }
    }
}

/// Removes the pair of the key for which this stands.
#[derive(Drop)]
pub struct Removes<'r, R, Q, S> {
    pub rt: &'r R,
    pub sleepers: &'r Sleepers,
    pub hasher: &'r S,
    pub setting: Setting,
    pub hash: u64,
    pub key: &'r Q,
}

impl<'r, R: Wait, K: Eq + Hash + Drop, V: Drop, S: Hashes<K>, Q: Equivalent<K>> Errand<
    Node<K, V>,
    OfMaps<S>,
> for Removes<'r, R, Q, S> {
    type Answer = Result<Answer, Fault>;

    ghost asks = { λ r fixed v. MayCall K.eq S.hash r.hasher.now (KeyMachine (removing r.setting r.hash (Q.stands_for r.key.now))) v };

    ghost did = { λ r fixed v answer w. HasCalled K.eq S.hash (Remove (Q.stands_for r.key.now)) answer None v w };

    fn run(
        self,
        blocks: &Blocks<Node<K, V>, OfMaps<S>>,
        seat: &mut Seat<Node<K, V>, OfMaps<S>>,
    ) -> Result<Answer, Fault> {
        let Removes {
            rt,
            sleepers,
            hasher,
            setting,
            hash,
            key,
        } = self;
        removes(rt, sleepers, blocks, seat, hasher, setting, hash, key)
    }
}

/// Stores a pair: also in the place of one of its key, or only where there is none.
#[derive(Drop)]
pub struct Stores<'s, R, K, V, S> {
    pub rt: &'s R,
    pub sleepers: &'s Sleepers,
    pub hasher: &'s S,
    pub setting: Setting,
    pub hash: u64,
    pub there: There,
    pub pair: Node<K, V>,
    pub near: u64,
}

impl<'s, R: Wait, K: Eq + Hash + Drop, V: Drop, S: Hashes<K>> Errand<Node<K, V>, OfMaps<S>>
    for Stores<'s, R, K, V, S> {
    type Answer = Ran<K, V>;

    ghost asks = { λ s fixed v. MayCall K.eq S.hash s.hasher.now (KeyMachine (making s.setting s.hash s.there s.pair)) v };

    ghost did = { λ s fixed v answer w. HasCalled K.eq S.hash (wanted_of (KeyMachine (making s.setting s.hash s.there s.pair))) answer.told answer.unstored v w };

    fn run(
        self,
        blocks: &Blocks<Node<K, V>, OfMaps<S>>,
        seat: &mut Seat<Node<K, V>, OfMaps<S>>,
    ) -> Ran<K, V> {
        let Stores {
            rt,
            sleepers,
            hasher,
            setting,
            hash,
            there,
            pair,
            near,
        } = self;
        stores(
            rt, sleepers, blocks, seat, near, hasher, setting, hash, there, pair,
        )
    }
}

/// Runs a call that asks nothing.
#[derive(Drop)]
pub struct Does<'d, R, K, V, S> {
    pub rt: &'d R,
    pub sleepers: &'d Sleepers,
    pub hasher: &'d S,
    pub machine: &'d mut Machine<K, V>,
    pub near: u64,
}

impl<'d, R: Wait, K: Eq + Hash + Drop, V: Drop, S: Hashes<K>> Errand<Node<K, V>, OfMaps<S>>
    for Does<'d, R, K, V, S> {
    type Answer = Ran<K, V>;

    ghost asks = { λ d fixed v. MayCall K.eq S.hash d.hasher.now d.machine.now v };

    ghost did = { λ d fixed v answer w. HasCalled K.eq S.hash (wanted_of d.machine.now) answer.told answer.unstored v w × IfOk answer.told (IsAnswerBy d.machine.now) };

    fn run(
        self,
        blocks: &Blocks<Node<K, V>, OfMaps<S>>,
        seat: &mut Seat<Node<K, V>, OfMaps<S>>,
    ) -> Ran<K, V> {
        let Does {
            rt,
            sleepers,
            hasher,
            machine,
            near,
        } = self;
        let mut within = Within::new(blocks, seat, near);
        within.does(rt, sleepers, hasher, machine)
    }
}

/// Stores a value that is made where the key is missing.
pub struct MakesPair<'m, R, K, V, S, F> {
    pub rt: &'m R,
    pub sleepers: &'m Sleepers,
    pub hasher: &'m S,
    pub machine: &'m mut Machine<K, V>,
    pub near: u64,
    pub make: F,
}

impl<'m, R: Wait, K: Eq + Hash + Drop, V: Drop, S: Hashes<K>, F: FnOnce() -> V> Errand<
    Node<K, V>,
    OfMaps<S>,
> for MakesPair<'m, R, K, V, S, F> {
    type Answer = Ran<K, V>;

    ghost asks = { λ m fixed v. (s : Stage) × (s.told ≡ false) × MayDoAs K.eq S.hash makes_pair s m.hasher.now m.machine.now v × F.pre m.make };

    ghost did = { λ m fixed v answer w. HasAnswered K.eq S.hash (MakingSays (FnOnceReturns F.FnOnce m.make tt)) (wanted_of m.machine.now) answer.told v w };

    fn run(
        self,
        blocks: &Blocks<Node<K, V>, OfMaps<S>>,
        seat: &mut Seat<Node<K, V>, OfMaps<S>>,
    ) -> Ran<K, V> {
        let MakesPair {
            rt,
            sleepers,
            hasher,
            machine,
            near,
            make,
        } = self;
        let mut within = Within::new(blocks, seat, near);
        within.makes_pair(rt, sleepers, hasher, machine, make)
    }
}

/// Removes the pair of the key for which this stands, if a test says yes of it.
pub struct RemovesIf<'r, R, Q, S, F> {
    pub rt: &'r R,
    pub sleepers: &'r Sleepers,
    pub hasher: &'r S,
    pub setting: Setting,
    pub hash: u64,
    pub key: &'r Q,
    pub near: u64,
    pub test: &'r F,
}

impl<
    'r,
    R: Wait,
    K: Eq + Hash + Drop,
    V: Drop,
    S: Hashes<K>,
    Q: Equivalent<K>,
    F: Fn(&K, &V) -> bool,
> Errand<Node<K, V>, OfMaps<S>> for RemovesIf<'r, R, Q, S, F> {
    type Answer = Ran<K, V>;

    ghost asks = { λ r fixed v. (s : Stage) × MayDoAs K.eq S.hash removes_if s r.hasher.now (KeyMachine (removing_if r.setting r.hash (Q.stands_for r.key.now))) v × F.IsAlwaysCallable r.test.now };

    ghost did = { λ r fixed v answer w. HasAnswered K.eq S.hash (TestSays (MayTest F.Fn r.test.now)) (RemoveIf (Q.stands_for r.key.now)) answer.told v w };

    fn run(
        self,
        blocks: &Blocks<Node<K, V>, OfMaps<S>>,
        seat: &mut Seat<Node<K, V>, OfMaps<S>>,
    ) -> Ran<K, V> {
        let RemovesIf {
            rt,
            sleepers,
            hasher,
            setting,
            hash,
            key,
            near,
            test,
        } = self;
        let lent = Lent {
            asked: key,
            keys: PhantomData,
        };
        let call: KeyCall<K, V, Lent<'_, K, Q>> = KeyCall::remove_if(setting, hash, lent);
        let mut machine = Machine::Key(call);
        let mut within = Within::new(blocks, seat, near);
        within.removes_if(rt, sleepers, hasher, &mut machine, test)
    }
}

/// Counts the pairs of a map.
#[derive(Drop)]
pub struct Counts<'c, K, V, S> {
    pub hasher: &'c S,
    pub machine: &'c mut Machine<K, V>,
}

impl<'c, K: Eq + Hash + Drop, V: Drop, S: Hashes<K>> Errand<Node<K, V>, OfMaps<S>>
    for Counts<'c, K, V, S> {
    type Answer = u64;

    ghost asks = { λ c fixed v. MayCount K.eq S.hash c.hasher.now c.machine.now v };

    ghost did = { λ c fixed v answer w. HasCounted K.eq S.hash answer v w };

    fn run(
        self,
        blocks: &Blocks<Node<K, V>, OfMaps<S>>,
        seat: &mut Seat<Node<K, V>, OfMaps<S>>,
    ) -> u64 {
        let Counts { hasher, machine } = self;
        let mut within = Within::new(blocks, seat, 0);
        within.counts(hasher, machine)
    }
}

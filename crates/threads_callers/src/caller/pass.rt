//! A seat that looks keys up under a caller, who is within its section and is lent for that.
ghost use Rattle.std.specs.Prelude.{◌≡◌, ℕ, [], IsSome, Some, None, true, IfNone, IfSome};
ghost use Rattle.threads_errands.specs.Given.ErrandsLooking.{HasLooked, MayLook, HasLookedAt, found_of};
ghost use Rattle.threads_callers.specs.Passing.{HasFoundUnder, HasRunUnder, IsBack, IsLentBy};
ghost use Rattle.threads_errands.specs.Given.ActsActs.{Get};
ghost use Rattle.seize_seats.specs.Seats.Lendings.{IsValueBy};
ghost use Rattle.threads_errands.specs.Given.ViewsLooks.{shown_in};
ghost use Rattle.threads_errands.specs.Given.ViewsRule.{Holds};
ghost use Rattle.threads_errands.specs.Given.ViewsDeclared.view.SeatWork.TheVariants.{Nothing as NoWork};
ghost use Rattle.seize_words.specs.OneMemory.Word.{block_in};
ghost use Rattle.seize_callers.specs.Kept.{is_home};

use crate::caller::MapCaller;
use crate::showing::Showing;
use map_machines::Lookup;
use map_tables::{Equivalent, Hashes, Node};
use seize_blocks::{Blocks, Errand, ErrandWith, Lesson, Seat, Turn};
use seize_views::Fixed;
use seize_words::Link;
use std::hash::Hash;
use std::sync::Wait;
use threads_errands::{Finds, OfMaps, View, leanings_begin};

/// A seat begins to lean on one that is within its section.
pub struct Resorting;

impl<K, V, S> Lesson<Fixed, View<K, V, S>> for Resorting {
    ghost use Rattle.threads_callers.specs.Passing.{BeginsUnder};

    ghost to = { λ _. BeginsUnder };
}

/// It leans on it no longer.
pub struct MapReturning;

impl<K, V, S> Turn<Fixed, View<K, V, S>> for MapReturning {
    ghost use Rattle.threads_callers.specs.Passing.{LeansNoMore};

    ghost to = { λ _. LeansNoMore };
}

/// A seat that looks keys up under one that is within its section, and that is lent for that: any number of passes may do so at a time. Between two calls it rests.
pub struct MapPassSeat<K: Eq, V, S: Hashes<K>> {
    pub seat: Seat<Node<K, V>, OfMaps<S>>,
    ghost back: { IsBack seat.view },
    ghost home: { is_home seat.away ≡ true },
}

impl<K: Eq, V, S: Hashes<K>> Drop for MapPassSeat<K, V, S> {
    fn drop(self) {
        let MapPassSeat { seat: _ } = self;
    }
}

/// Returns the pair that a seat shows while it leans on the guard's.
fn pair_by<'g, K: Eq, V, S: Hashes<K>>(
    blocks: &'g Blocks<Node<K, V>, OfMaps<S>>,
    seat: &Seat<Node<K, V>, OfMaps<S>>,
    guard: &'g Seat<Node<K, V>, OfMaps<S>>,
    block: u64,
) -> &'g Node<K, V>
    requires own { (seat.now.base ≡ blocks.now.words.id.views_name) × (guard.now.base ≡ blocks.now.words.id.views_name) }
    requires under { (t : ℕ) × (seat.now.view.under ≡ Some (guard.now.id, t)) }
    requires map { guard.now.view.map ≡ seat.now.view.map }
    requires free { seat.now.view.work ≡ NoWork }
    requires shown { IsSome (shown_in seat.now.view.held block) }
    ensures value { IsValueBy (Holds K.eq S.hash blocks.now.words.fixed) seat.now.id seat.now.view guard.now.id guard.now.view guard.now.id guard.now.view block result.now }
    ensures shown { shown_in seat.now.view.held block ≡ Some result.now }
{
    leanings_begin::<K, V, S>();
    blocks.value_by(seat, guard, guard, block)
}

/// Returns the pair of this word, which a seat shows while it leans on the guard's: its key and its value.
fn parts_by<'g, K: Eq, V, S: Hashes<K>>(
    blocks: &'g Blocks<Node<K, V>, OfMaps<S>>,
    seat: &Seat<Node<K, V>, OfMaps<S>>,
    guard: &'g Seat<Node<K, V>, OfMaps<S>>,
    word: u64,
) -> (&'g K, &'g V)
    requires own { (seat.now.base ≡ blocks.now.words.id.views_name) × (guard.now.base ≡ blocks.now.words.id.views_name) }
    requires under { (t : ℕ) × (seat.now.view.under ≡ Some (guard.now.id, t)) }
    requires map { guard.now.view.map ≡ seat.now.view.map }
    requires free { seat.now.view.work ≡ NoWork }
    requires shown { (key : K) × HasLookedAt K.eq key seat.now.view word }
    ensures { IsLentBy K.eq S.hash blocks.now.words.fixed seat.now.id seat.now.view guard.now.id guard.now.view word (result.0.now, result.1.now) }
{
    match pair_by(blocks, seat, guard, Link::block_of(word)) {
        Node::Pair(key, value) => (key, value),
        Node::Table { .. } | Node::Shards => unreachable!(),
    }
}

/// Returns the pair that a seat has found of this key while it leans on the guard's, if it has found one.
fn lent<'g, K: Eq + Hash, V, S: Hashes<K>, Q: Equivalent<K>>(
    blocks: &'g Blocks<Node<K, V>, OfMaps<S>>,
    seat: &Seat<Node<K, V>, OfMaps<S>>,
    guard: &'g Seat<Node<K, V>, OfMaps<S>>,
    _key: &Q,
    found: Option<u64>,
) -> Option<(&'g K, &'g V)>
    requires own { (seat.now.base ≡ blocks.now.words.id.views_name) × (guard.now.base ≡ blocks.now.words.id.views_name) }
    requires under { (t : ℕ) × (seat.now.view.under ≡ Some (guard.now.id, t)) }
    requires map { guard.now.view.map ≡ seat.now.view.map }
    requires looked { HasLooked K.eq (Q.stands_for _key.now) found seat.now.view }
    ensures lent { IfSome result (λ pair. (word : ℕ) × (found ≡ Some word)
        × IsLentBy K.eq S.hash blocks.now.words.fixed seat.now.id seat.now.view guard.now.id guard.now.view word (pair.0.now, pair.1.now)) }
    ensures none { IfNone result (found ≡ None) }
{
    let word = found?;
    Some(parts_by(blocks, seat, guard, word))
}

/// Looks a key up, by this lookup, under the guard's seat, which is within its section. It answers that seat, too: by that it is known that keys and hashers last as long as
/// what is lent.
struct FindsBy<'g, 'f, R, K: Eq, V, S: Hashes<K>, Q> {
    rt: &'f R,
    key: &'f Q,
    lookup: Lookup,
    blocks: &'g Blocks<Node<K, V>, OfMaps<S>>,
    guard: &'g Seat<Node<K, V>, OfMaps<S>>,
}

impl<'g, 'f, R: Wait, K: Eq + Hash, V, S: Hashes<K>, Q: Equivalent<K>> ErrandWith<
    Node<K, V>,
    OfMaps<S>,
> for FindsBy<'g, 'f, R, K, V, S, Q> {
    type Answer = (Option<(&'g K, &'g V)>, &'g Seat<Node<K, V>, OfMaps<S>>);

    ghost asks = { λ f name fixed lent u v. (f.blocks.now.words.id.views_name ≡ name) × (f.blocks.now.words.fixed ≡ fixed) × (f.guard.now.base ≡ name)
        × (f.guard.now.id ≡ lent) × (f.guard.now.view.under ≡ None) × (f.guard.now.view.map ≡ v.map) × MayLook S.hash (Q.stands_for f.key.now) f.lookup f.guard.now.view × IsBack v };

    ghost did = { λ f fixed v answer w. IsBack w
        × IfSome answer.0 (λ pair. HasFoundUnder K.eq S.hash fixed (Q.stands_for f.key.now) f.guard.now.id f.guard.now.view v w (pair.0.now, pair.1.now))
        × IfNone answer.0 (HasRunUnder K.eq S.hash (Get (Q.stands_for f.key.now)) (found_of None) f.guard.now.view v w) };

    fn run(
        self,
        blocks: &Blocks<Node<K, V>, OfMaps<S>>,
        seat: &mut Seat<Node<K, V>, OfMaps<S>>,
    ) -> (Option<(&'g K, &'g V)>, &'g Seat<Node<K, V>, OfMaps<S>>) {
        let FindsBy {
            rt,
            key,
            lookup,
            blocks: lends,
            guard,
        } = self;
        leanings_begin::<K, V, S>();
        blocks.learn::<Resorting>(seat, guard);
        let found = Finds { rt, key, lookup }.run(blocks, seat);
        let pair = lent(lends, seat, guard, key, found);
        blocks.turn::<MapReturning>(seat);
        (pair, guard)
    }
}

/// Sends a seat that has learnt the guard's map to look this key up under the guard's seat.
fn sends<'g, R: Wait, K: Eq + Hash, V, S: Hashes<K>, Q: Equivalent<K>>(
    blocks: &'g Blocks<Node<K, V>, OfMaps<S>>,
    guard: &'g Seat<Node<K, V>, OfMaps<S>>,
    seat: &mut Seat<Node<K, V>, OfMaps<S>>,
    rt: &R,
    lookup: Lookup,
    key: &Q,
) -> Option<(&'g K, &'g V)>
    requires own { (seat.old.base ≡ blocks.now.words.id.views_name) × (guard.now.base ≡ blocks.now.words.id.views_name) }
    requires home { seat.old.away ≡ None }
    requires lone { guard.now.view.under ≡ None }
    requires map { guard.now.view.map ≡ seat.old.view.map }
    requires may { MayLook S.hash (Q.stands_for key.now) lookup guard.now.view }
    requires back { IsBack seat.old.view }
    ensures same { seat.new.base ≡ seat.old.base }
    ensures home { seat.new.away ≡ None }
    ensures back { IsBack seat.new.view }
    ensures found { IfSome result (λ pair. HasFoundUnder K.eq S.hash blocks.now.words.fixed (Q.stands_for key.now) guard.now.id guard.now.view seat.old.view seat.new.view (pair.0.now, pair.1.now)) }
    ensures absent { IfNone result (HasRunUnder K.eq S.hash (Get (Q.stands_for key.now)) (found_of None) guard.now.view seat.old.view seat.new.view) }
{
    let errand = FindsBy {
        rt,
        key,
        lookup,
        blocks,
        guard,
    };
    blocks.errand_with(seat, guard, errand).0
}

impl<'a, K: Eq, V, S: Hashes<K>> MapCaller<'a, K, V, S> {
    /// Makes a seat more of this memory, for passes.
    pub fn pass(&self) -> MapPassSeat<K, V, S>
        ensures own { result.seat.base ≡ self.now.blocks.now.words.id.views_name }
        ensures none { result.seat.view.calls ≡ [] }
    {
        let seat = self.blocks.seat();
        MapPassSeat { seat }
    }
}

impl<'a, K: Eq + Hash, V, S: Hashes<K>> MapCaller<'a, K, V, S> {
    /// Looks this key up by a pass, within its section, by this lookup, in the map that it knows, and returns the pair found: it is lent for as long as the
    /// caller is borrowed, whatever the pass does then. How many steps it takes is up to the others.
    pub fn finds_by<'g, R: Wait, Q: Equivalent<K>>(
        &'g self,
        rt: &R,
        lookup: Lookup,
        key: &Q,
        pass: &mut MapPassSeat<K, V, S>,
    ) -> Option<(&'g K, &'g V)>
        requires own { pass.old.seat.base ≡ self.now.blocks.now.words.id.views_name }
        requires may { MayLook S.hash (Q.stands_for key.now) lookup self.now.seat.view }
        ensures own { pass.new.seat.base ≡ pass.old.seat.base }
        ensures found { IfSome result (λ pair. HasFoundUnder K.eq S.hash self.now.blocks.now.words.fixed (Q.stands_for key.now) self.now.seat.id self.now.seat.view
            pass.old.seat.view pass.new.seat.view (pair.0.now, pair.1.now)) }
        ensures absent { IfNone result (HasRunUnder K.eq S.hash (Get (Q.stands_for key.now)) (found_of None) self.now.seat.view pass.old.seat.view pass.new.seat.view) }
    {
        let guard = &self.seat;
        self.blocks.learn::<Showing>(&mut pass.seat, guard);
        sends(self.blocks, guard, &mut pass.seat, rt, lookup, key)
    }
}

//! A pass does something with the map of an owner, within the section of a guard: both are lent for that, and so are the pairs that the answer names.
ghost use Rattle.std.specs.Prelude.{◌≡◌, ℕ, IsSome, Some, IfSome, option_map};
ghost use Rattle.seize_seats.specs.Seats.Lendings.{IsValueBy};
ghost use Rattle.threads_owners.specs.Loans.{AllEndThere, HasLent, IsLentIf, IsLentOn, IsSentOn, MayDoOn};
ghost use Rattle.threads_callers.specs.Passing.{IsBack};
ghost use Rattle.threads_errands.specs.Given.CallKindsKinds.{PairIsVisible};
ghost use Rattle.threads_errands.specs.Given.ViewsDeclared.view.SeatWork.TheVariants.{Nothing as NoWork};
ghost use Rattle.threads_errands.specs.Given.ViewsLooks.{shown_in};
ghost use Rattle.threads_errands.specs.Given.ViewsRule.{Holds};

use crate::loans::{Borrowing, Restoring};
use crate::naming::Naming;
use map_tables::{Hashes, Node};
use seize_blocks::{Blocks, Errand, ErrandWithTwo, Seat};
use seize_words::Link;
use threads_callers::{MapCaller, MapPassSeat, MapReturning, Resorting};
use threads_errands::{OfMaps, endings_go_on, leanings_begin};

/// What was done with a map: the answer, and the pairs that it names, which are lent for as long as the guard and the owner of the map are.
pub struct Done<'g, 'a, K: Eq, V, S: Hashes<K>, A> {
    /// What was answered.
    pub answer: A,
    /// The pair that the map has no longer, if one is named.
    pub gone: Option<(&'g K, &'g V)>,
    /// The pair that the map has, if one is named.
    pub there: Option<(&'g K, &'g V)>,
    /// By this it is known that keys and hashers last as long as what is lent.
    guard: &'g MapCaller<'a, K, V, S>,
}

/// An errand with the map of an owner, within the section of a guard.
struct OnLoan<'g, 'a, K: Eq, V, S: Hashes<K>, E> {
    guard: &'g MapCaller<'a, K, V, S>,
    owner: &'g MapCaller<'a, K, V, S>,
    errand: E,
}

/// Returns the block that a seat shows while it leans on both.
fn node_on<'g, 'a, K: Eq, V, S: Hashes<K>>(
    seat: &Seat<Node<K, V>, OfMaps<S>>,
    guard: &'g MapCaller<'a, K, V, S>,
    owner: &'g MapCaller<'a, K, V, S>,
    block: u64,
) -> &'g Node<K, V>
    requires own { seat.now.base ≡ guard.now.blocks.now.words.id.views_name }
    requires one { owner.now.seat.base ≡ guard.now.blocks.now.words.id.views_name }
    requires under { (t : ℕ) × (seat.now.view.under ≡ Some (guard.now.seat.id, t)) }
    requires map { owner.now.seat.view.own ≡ seat.now.view.map }
    requires free { seat.now.view.work ≡ NoWork }
    requires shown { IsSome (shown_in seat.now.view.held block) }
    ensures value { IsValueBy (Holds K.eq S.hash guard.now.blocks.now.words.fixed) seat.now.id seat.now.view guard.now.seat.id guard.now.seat.view
        owner.now.seat.id owner.now.seat.view block result.now }
    ensures shown { shown_in seat.now.view.held block ≡ Some result.now }
{
    leanings_begin::<K, V, S>();
    guard.blocks.value_by(seat, &guard.seat, &owner.seat, block)
}

/// Returns the pair of this word, which a seat shows while it leans on both.
fn pair_on<'g, 'a, K: Eq, V, S: Hashes<K>>(
    seat: &Seat<Node<K, V>, OfMaps<S>>,
    guard: &'g MapCaller<'a, K, V, S>,
    owner: &'g MapCaller<'a, K, V, S>,
    word: u64,
) -> (&'g K, &'g V)
    requires own { seat.now.base ≡ guard.now.blocks.now.words.id.views_name }
    requires one { owner.now.seat.base ≡ guard.now.blocks.now.words.id.views_name }
    requires under { (t : ℕ) × (seat.now.view.under ≡ Some (guard.now.seat.id, t)) }
    requires map { owner.now.seat.view.own ≡ seat.now.view.map }
    requires free { seat.now.view.work ≡ NoWork }
    requires shown { PairIsVisible (shown_in seat.now.view.held) word }
    ensures { IsLentOn K.eq S.hash guard.now owner.now seat.now.id seat.now.view word (result.0.now, result.1.now) }
{
    match node_on(seat, guard, owner, Link::block_of(word)) {
        Node::Pair(key, value) => (key, value),
        Node::Table { .. } | Node::Shards => unreachable!(),
    }
}

/// Returns that of the word, if there is one.
fn pair_if<'g, 'a, K: Eq, V, S: Hashes<K>>(
    seat: &Seat<Node<K, V>, OfMaps<S>>,
    guard: &'g MapCaller<'a, K, V, S>,
    owner: &'g MapCaller<'a, K, V, S>,
    named: Option<u64>,
) -> Option<(&'g K, &'g V)>
    requires own { seat.now.base ≡ guard.now.blocks.now.words.id.views_name }
    requires one { owner.now.seat.base ≡ guard.now.blocks.now.words.id.views_name }
    requires under { (t : ℕ) × (seat.now.view.under ≡ Some (guard.now.seat.id, t)) }
    requires map { owner.now.seat.view.own ≡ seat.now.view.map }
    requires free { seat.now.view.work ≡ NoWork }
    requires shown { IfSome named (PairIsVisible (shown_in seat.now.view.held)) }
    ensures { IsLentIf K.eq S.hash guard.now owner.now seat.now.view named (option_map (λ pair. (pair.0.now, pair.1.now)) result) }
{
    let word = named?;
    Some(pair_on(seat, guard, owner, word))
}

impl<
    'g,
    'a,
    K: Eq,
    V,
    S: Hashes<K>,
    A: Naming,
    E: Errand<Node<K, V>, OfMaps<S>, Answer = A>,
> ErrandWithTwo<Node<K, V>, OfMaps<S>> for OnLoan<'g, 'a, K, V, S, E> {
    type Answer = Done<'g, 'a, K, V, S, A>;

    ghost asks = { λ f name fixed n u k o v. IsSentOn (λ x answer y. E.did f.errand fixed x answer y) A.names (λ x. E.asks f.errand fixed x) f.guard.now f.owner.now name n k v };

    ghost did = { λ f fixed v done w. IsBack w
        × HasLent K.eq S.hash f.guard.now f.owner.now (λ x answer y. E.did f.errand fixed x answer y) A.names done.answer
        (option_map (λ pair. (pair.0.now, pair.1.now)) done.gone) (option_map (λ pair. (pair.0.now, pair.1.now)) done.there) v w };

    fn run(
        self,
        blocks: &Blocks<Node<K, V>, OfMaps<S>>,
        seat: &mut Seat<Node<K, V>, OfMaps<S>>,
    ) -> Done<'g, 'a, K, V, S, A> {
        let OnLoan {
            guard,
            owner,
            errand,
        } = self;
        leanings_begin::<K, V, S>();
        endings_go_on::<K, V, S>();
        blocks.learn::<Borrowing>(seat, &owner.seat);
        blocks.learn::<Resorting>(seat, &guard.seat);
        let answer = errand.run(blocks, seat);
        let (left, stays) = answer.named();
        let gone = pair_if(seat, guard, owner, left);
        let there = pair_if(seat, guard, owner, stays);
        blocks.turn::<MapReturning>(seat);
        blocks.turn::<Restoring>(seat);
        Done {
            answer,
            gone,
            there,
            guard,
        }
    }
}

/// Sends a pass on this errand, within the section of the guard, with the map that the owner has as its own. What the answer names is lent for as long as both are borrowed, whatever the
/// pass does then.
pub fn lends<
    'g,
    'a,
    K: Eq,
    V,
    S: Hashes<K>,
    A: Naming,
    E: Errand<Node<K, V>, OfMaps<S>, Answer = A>,
>(
    guard: &'g MapCaller<'a, K, V, S>,
    owner: &'g MapCaller<'a, K, V, S>,
    pass: &mut MapPassSeat<K, V, S>,
    errand: E,
) -> Done<'g, 'a, K, V, S, A>
    requires own { pass.old.seat.base ≡ guard.now.blocks.now.words.id.views_name }
    requires one { owner.now.seat.base ≡ guard.now.blocks.now.words.id.views_name }
    requires may { MayDoOn (λ x. E.asks errand guard.now.blocks.now.words.fixed x) guard.now owner.now pass.old.seat.view }
    requires ends { AllEndThere (λ x answer y. E.did errand guard.now.blocks.now.words.fixed x answer y) A.names }
    ensures own { pass.new.seat.base ≡ pass.old.seat.base }
    ensures lent { HasLent K.eq S.hash guard.now owner.now (λ x answer y. E.did errand guard.now.blocks.now.words.fixed x answer y) A.names result.answer
        (option_map (λ pair. (pair.0.now, pair.1.now)) result.gone) (option_map (λ pair. (pair.0.now, pair.1.now)) result.there) pass.old.seat.view pass.new.seat.view }
{
    guard.blocks.errand_with_two(
        &mut pass.seat,
        &guard.seat,
        &owner.seat,
        OnLoan {
            guard,
            owner,
            errand,
        },
    )
}

impl<'g, 'a, K: Eq, V, S: Hashes<K>, A> Done<'g, 'a, K, V, S, A> {
    /// Returns its parts.
    pub fn parts(self) -> (A, Option<(&'g K, &'g V)>, Option<(&'g K, &'g V)>)
        ensures { result ≡ (self.entry.answer, self.entry.gone, self.entry.there) }
    {
        let Done {
            answer,
            gone,
            there,
            guard: _,
        } = self;
        (answer, gone, there)
    }
}

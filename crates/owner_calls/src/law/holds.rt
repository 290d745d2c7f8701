//! What is promised of the pairs in the memory of a map for one owner.
ghost use Rattle.owner_calls.specs.Holds.Calls.{CallsTakeNoneAway};
ghost use Rattle.owner_calls.specs.Holds.Held.{KeptBalances, LivesHold};
ghost use Rattle.owner_calls.specs.Holds.Lives.{LivesBalance};
ghost use Rattle.owner_calls.specs.Holds.Promises.{AnswersBalance, CallsBegin, CallsStoreAlone, MakingsPutNone, RefreshesPutNone, RepliesPutNone, RoomsPutNone, RowsHandOut, SweepsPutNone, WhatLeavesBalances};
ghost use Rattle.owner_calls.specs.Holds.Sweeps.{SweepsTakeNoneAway};

/// The memory of a map for one owner has the pairs of the map, each in a block of its own, those that a change took out and that wait to be given back,
/// each in the block in which it stood, and no other. A map that is made has none in its memory. A call on one key, of any kind and whatever it is told where
/// it asks, puts no pair there but the one that it tells as stored; one that is refused leaves none there. A reservation, a sweep up to each question and
/// to its end, and a refresh of the section put none there. So what the memory has after any of these, and what was given back meanwhile, are what it had
/// before and what was stored, each pair as often: nothing is lost, and nothing is given back twice. A step of a refresh, or of a retirement, that takes a pair
/// out of the memory hands it out as given back. So over the whole life of a map: all that was ever stored in it is, each pair as often, in the map, or
/// waits in its memory, or was given back, and the memory has nothing else.
pub fn pairs_balance<K, V, Q, S>()
    ensures begins { CallsBegin K V Q }
    ensures calls { CallsStoreAlone K V Q S }
    ensures replies { RepliesPutNone K V Q }
    ensures rooms { RoomsPutNone K V S }
    ensures sweeps { SweepsPutNone K V S }
    ensures refreshes { RefreshesPutNone K V }
    ensures rows { RowsHandOut K V }
    ensures makings { MakingsPutNone K V }
    ensures leaves { WhatLeavesBalances K V }
    ensures answers { AnswersBalance K V }
    ensures lives { LivesBalance K V }
{}

/// No change of a map for one owner gives back what the map had as it began. Wherever a call on one key, of any kind, stops to ask and where it ends, and so
/// with a sweep, each pair that the map had then stands in the block in which it stood; and no pair has come to the memory but the one that the call tells as
/// stored. So what was replaced or removed, by a call on one key, a `clear` or a `retain`, waits there, and is given back by a later change.
pub fn changes_take_nothing_away<K, V, Q, S>()
    ensures calls { CallsTakeNoneAway K V Q S }
    ensures sweeps { SweepsTakeNoneAway K V S }
{}

/// A change that holds on to what its map had balances: what was held before, and what was stored, is held now, or was given back, each as often. Over the whole
/// life of a map, by calls that do so, all that it held at first, and that was ever stored since, is held, or was given back.
pub fn what_is_kept_balances<X>()
    ensures kept { KeptBalances X }
    ensures lives { LivesHold X }
{}

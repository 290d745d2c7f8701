//! What is promised of the waiting sets, whatever memory and whichever rows they tell of.
ghost use Rattle.std.specs.Prelude.{ℕ};
ghost use Rattle.seize_moves.specs.Waiting.Laws.{
  TidyAtStart,
  ChangesKeep,
  AllChangesKeep,
  ChangesFollow,
  DeferredIsHeld,
  ActiveSlotsWait,
  OpenIsHeld,
  OthersAreLeftAlone,
  HandedWaits,
  RoundsTakeAway,
  NothingIsLeft,
  EndsLeave,
};
ghost use Rattle.seize_moves.specs.Waiting.Lists.{ListsAddUp, UncountedIsNotThere, AgreeOnLists, SlotsCome, SlotsGo, KeptAreDeferredOnOthers, EachIsListed};

/// No number is lost and none is doubled, in tidy sets where no number stands twice. Each change but those that put a value behind another,
/// or take it from there, and by which no slot enters that is active, leaves tidy sets, and the slots active that it says. What stood in
/// them, with what it retires, is reclaimed or stands in them, as often as before, in batches and behind others together. And what waits
/// behind others goes on to wait, save what was behind a number that is reclaimed. So do such changes one after another. A number that is
/// put behind another stands in the sets once more. A slot that is active reclaims nothing by what it retires. Before the first change the
/// sets are tidy.
pub fn changes_keep_every_number()
    ensures begins { TidyAtStart }
    ensures keeps { (batch_size : ℕ) → ChangesKeep batch_size }
    ensures all_keep { (batch_size : ℕ) → AllChangesKeep batch_size }
    ensures follow { (batch_size : ℕ) → ChangesFollow batch_size }
    ensures deferred { (batch_size : ℕ) → DeferredIsHeld batch_size }
    ensures quiet { (batch_size : ℕ) → ActiveSlotsWait batch_size }
{}

/// A slot has its open batch for itself: what stands in it stands in the sets, and a change of another slot leaves it alone.
pub fn slots_have_batches_of_their_own()
    ensures held { OpenIsHeld }
    ensures others { (batch_size : ℕ) → OthersAreLeftAlone batch_size }
{}

/// What an active slot retires, and what is put behind others meanwhile, is in the sets then, and nothing was reclaimed.
pub fn what_is_handed_over_waits()
    ensures waits { (batch_size : ℕ) → HandedWaits batch_size }
{}

/// Everything is reclaimed: all slots leave, and then all flush until no open batch has anything in it. With no slot active, one flush of each slot takes away
/// at least as many numbers as stood in open batches, so these rounds terminate, before their bound is met. After them no number stands in a batch: what still
/// waits then is behind a number that was not reclaimed.
pub fn reclaiming_all_leaves_nothing()
    ensures rounds { (batch_size : ℕ) → RoundsTakeAway batch_size }
    ensures empty { (batch_size : ℕ) → NothingIsLeft batch_size }
{}

/// What some numbers were of has ended. Nothing is reclaimed by that: what waited behind them leaves the sets, each number as often as it
/// was there, and nothing waits behind them any more. All else stays as it was.
pub fn ended_numbers_leave_the_sets()
    ensures ends { (batch_size : ℕ) → EndsLeave batch_size }
{}

/// The lists of which the sets are made: how often a number stands in them, whether it is one of them, slots that come and go, and those that
/// are kept and listed behind others.
pub fn lists_are_counted()
    ensures adds_up { ListsAddUp }
    ensures not_there { UncountedIsNotThere }
    ensures agree { AgreeOnLists }
    ensures comes { SlotsCome }
    ensures goes { SlotsGo }
    ensures kept { KeptAreDeferredOnOthers }
    ensures listed { EachIsListed }
{}

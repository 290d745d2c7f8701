//! What is promised of the rule of the collector's rows.
ghost use Rattle.seize_views.specs.Views.Promises.{RulesStart, SeatsCome, RowsContinue, RowsTurn, SettlingsBegin, LookedAreShown};
ghost use Rattle.seize_views.specs.Views.Promises.{BlocksAreMade, MadeAreTaken, MadeAreLinked, MadeAreExchanged, KnownAreShown};
ghost use Rattle.seize_views.specs.Views.Promises.{RootsAreSeen, RootsAreMarked, RootsAreCleared, RootsAreWithdrawn};
ghost use Rattle.seize_views.specs.Views.Notes.{StartsAreNoted, ComingsAreNoted, StepsAreNoted, TurnsAreNoted, SettlingsAreNoted, MeetingsAreNoted, LooksAreNoted};
ghost use Rattle.seize_views.specs.Views.Notes.{WatchesBegin, WatchesEnd, WatchersSee, WatchedAreShown};
ghost use Rattle.seize_views.specs.Views.Notes.{LeaningsBegin, LeaningsSee, LeaningsMark, LeaningsEnd, LeaningsKeep, KeptAreThere};
ghost use Rattle.seize_views.specs.Views.Promises.{OwnAreMade, OwnAreTaken, OwnAreRewritten, OwnAreLinked, OwnAreExchanged, OwnAreShown, BorneAreShown, BorneAreHandedOn};
ghost use Rattle.seize_views.specs.Views.Values.{ValuesAreFound};
ghost use Rattle.seize_views.specs.Views.Stacking.{WaysBegin, JoiningAreMade, LinksAreWritten, JoiningAreTaken, JoiningArePut, JoiningAreShown};
ghost use Rattle.seize_views.specs.Views.Stacking.{ChainsAreSeen, LinksAreSeen, LinksAreCopied};
ghost use Rattle.seize_views.specs.Views.Deferring.{TakingsBegin, BlocksAreTakenOut, PartedAreShown, PartedAreCut, PartedAreDeferred, DeferralsGoOn, DeferralsEnd};

use seize::rows::Defers;

/// The rule may start, and seats may come. Each row of a seat may begin, go on and end at any moment, whatever the other seats do.
pub fn rows_go_on<T: Defers>()
    ensures starts { RulesStart T T.defers }
    ensures come { SeatsCome T T.defers }
    ensures on { RowsContinue T T.defers }
    ensures turn { RowsTurn T T.defers }
    ensures settle { SettlingsBegin T T.defers }
    ensures looked { LookedAreShown T T.defers }
{}

/// Within a section a block may be made, taken away by its maker, put at a root, whatever is there or only in place of a word, seen there, marked there, and
/// taken from there, which may be done outside of a section, too; and a block that is known may be looked at.
pub fn sections_go_on<T: Defers>()
    ensures made { BlocksAreMade T T.defers }
    ensures taken { MadeAreTaken T T.defers }
    ensures linked { MadeAreLinked T T.defers }
    ensures exchanged { MadeAreExchanged T T.defers }
    ensures seen { RootsAreSeen T T.defers }
    ensures marked { RootsAreMarked T T.defers }
    ensures cleared { RootsAreCleared T T.defers }
    ensures withdrawn { RootsAreWithdrawn T T.defers }
    ensures known { KnownAreShown T T.defers }
{}

/// Without a slot a block may be made, looked at, taken away by its maker, given another value by him, and put at a root, whatever is there or only in place of
/// a word; and one that is taken from there so may be looked at, and handed on to who has a slot.
pub fn blocks_have_seats<T: Defers>()
    ensures made { OwnAreMade T T.defers }
    ensures taken { OwnAreTaken T T.defers }
    ensures rewritten { OwnAreRewritten T T.defers }
    ensures linked { OwnAreLinked T T.defers }
    ensures exchanged { OwnAreExchanged T T.defers }
    ensures shown { OwnAreShown T T.defers }
    ensures borne { BorneAreShown T T.defers }
    ensures handed { BorneAreHandedOn T T.defers }
{}

/// Without a slot a block may be made that has a link, that be written, and the block be put at the root of a chain, above the one that its link names, or taken
/// away. Within a section a seat may see with which block a chain begins, go down it by links, and copy the link of the first block to the root, in place of
/// that, which it is to retire.
pub fn chains_are_kept<T: Defers>()
    ensures turn { WaysBegin T T.defers }
    ensures made { JoiningAreMade T T.defers }
    ensures written { LinksAreWritten T T.defers }
    ensures taken { JoiningAreTaken T T.defers }
    ensures put { JoiningArePut T T.defers }
    ensures shown { JoiningAreShown T T.defers }
    ensures seen { ChainsAreSeen T T.defers }
    ensures linked { LinksAreSeen T T.defers }
    ensures copied { LinksAreCopied T T.defers }
{}

/// Within a section that holds a block another one may be taken out of a root, and put behind the first one, if that has a list of further values, and the
/// other one has none; or unlinked, and be retired.
pub fn blocks_are_deferred<T: Defers>()
    ensures begin { TakingsBegin T T.defers }
    ensures taken { BlocksAreTakenOut T T.defers }
    ensures shown { PartedAreShown T T.defers }
    ensures cut { PartedAreCut T T.defers }
    ensures put { PartedAreDeferred T T.defers }
    ensures on { DeferralsGoOn T T.defers }
    ensures end { DeferralsEnd T T.defers }
{}

/// Between any two steps no value is lost: some seat has its block in its hand, or a root names it, or a chain has it, or words lead to it from a slot, from what a seat has at
/// hand in its row, or from a block that is there.
pub fn values_are_found<T: Defers>()
    ensures found { ValuesAreFound T T.defers }
{}

/// A seat notes what it does, and may do whatever it may do by what it knows.
pub fn deeds_are_noted<T: Defers>()
    ensures starts { StartsAreNoted T T.defers }
    ensures come { ComingsAreNoted T T.defers }
    ensures steps { StepsAreNoted T T.defers }
    ensures turns { TurnsAreNoted T T.defers }
    ensures settlings { SettlingsAreNoted T T.defers }
    ensures meetings { MeetingsAreNoted T T.defers }
    ensures looks { LooksAreNoted T T.defers }
{}

/// A seat may begin to watch the section that another one has open, look at roots, is shown what it has seen, and may end; who has the section open knows how
/// many do.
pub fn sections_are_watched<T: Defers>()
    ensures begin { WatchesBegin T T.defers }
    ensures end { WatchesEnd T T.defers }
    ensures see { WatchersSee T T.defers }
    ensures shown { WatchedAreShown T T.defers }
{}

/// A seat may begin to lean on one that has a section open, and is lent for that, look at roots, mark them, and end; what it has seen that one keeps, and what
/// is kept is there.
pub fn sections_are_leaned_on<T: Defers>()
    ensures begin { LeaningsBegin T T.defers }
    ensures see { LeaningsSee T T.defers }
    ensures mark { LeaningsMark T T.defers }
    ensures end { LeaningsEnd T T.defers }
    ensures keep { LeaningsKeep T T.defers }
    ensures there { KeptAreThere T T.defers }
{}

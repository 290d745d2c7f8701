//! What is promised of whole calls for one owner of a map's memory.
ghost use Rattle.std.specs.Prelude.{ℕ, Bool, List};
ghost use Rattle.seize_words.specs.OneMemory.Mem.{Mem};
ghost use Rattle.map_tables.specs.declared.node.Node.{Node};
ghost use Rattle.map_measures.specs.Given.RuleChart.{Chart};
ghost use Rattle.map_measures.specs.Given.RuleWords.{Blocks};
ghost use Rattle.owner_facts.specs.Given.CallersOverAll.{CallOverAll};
ghost use Rattle.map_tables.specs.declared.setting.Setting.{Setting};
ghost use Rattle.owner_whole.specs.Whole.Whole.{MapBeginsQuiescent, RepliesCountNothing, CountsAtEnd, CountsWhereUnchanged, CallsBeginAlone, CallsContinueAlone, RepliesLeadOn, CallsComeToAnEnd};
ghost use Rattle.owner_whole.specs.Whole.Contents.{ContentsAre, RunsBegin, ContentsFollow, AnswersOfPairs};
ghost use Rattle.owner_whole.specs.Whole.AtEnd.{AnswersTellThePairs};
ghost use Rattle.owner_whole.specs.Whole.SweptPairs.{NumbersAre, NumbersGo, PairsAreInIt, SweptBegins, ContentsBetween, ShownIsInIt, AsksOnce, RefusedPreservesAll, SweepsLeave};
ghost use Rattle.owner_whole.specs.Whole.KeptBy.{KeptBegins, KeptReplied, KeptAtEnd, WalksShowAll};
ghost use Rattle.owner_whole.specs.Whole.WholeSweeps.{SweepsBeginAlone, SweepsContinueAlone, SweepsRepliedAlone, SweepsComeToAnEnd, TellingCountsNothing, RepliesPreserveThePurpose, SweptPairsCounted};
ghost use Rattle.owner_whole.specs.Whole.WholeRooms.{RoomsBeginAlone, RoomsContinueAlone, RoomsComeToAnEnd, CountingsBeginAlone, CountingsContinueAlone, CountingsComeTo};

/// A map that has no table yet rests. Where the owner of a map's memory rests, each call on one key may begin, of one that asks, too, and is alone. It may take each of its steps, those of the
/// collector's rows among them, in either mode, and none of them answers that it has to wait. It is alone after each, or it asks, and is alone again whatever
/// it is told, or it has ended: then the owner rests. The pairs that could be looked at can be still, in the same blocks, with the same values, and the removal of what is
/// not there is refused where that was told. Each run of its steps comes to an end, or to a question. Where the shards of the counter said how many pairs
/// the map had as the call began, they say so at its end.
pub fn calls_run_whole<K, V, Q>()
    ensures starts { (same : K → K → Bool) (hash : K → ℕ) (asks : Q → K → Bool) (setting : Setting) (slot : ℕ → ℕ) → MapBeginsQuiescent V same hash asks setting slot }
    ensures begins { (same : K → K → Bool) (hash : K → ℕ) (asks : Q → K → Bool) (setting : Setting) (slot : ℕ → ℕ) → CallsBeginAlone V same hash asks setting slot }
    ensures steps { (same : K → K → Bool) (hash : K → ℕ) (asks : Q → K → Bool) (setting : Setting) (slot : ℕ → ℕ) → CallsContinueAlone V same hash asks setting slot }
    ensures replies { (same : K → K → Bool) (hash : K → ℕ) (asks : Q → K → Bool) (setting : Setting) (slot : ℕ → ℕ) → RepliesLeadOn V same hash asks setting slot }
    ensures ends { (same : K → K → Bool) (hash : K → ℕ) (asks : Q → K → Bool) (setting : Setting) (slot : ℕ → ℕ) → CallsComeToAnEnd V same hash asks setting slot }
    ensures replies_count { (same : K → K → Bool) (hash : K → ℕ) (asks : Q → K → Bool) (setting : Setting) (slot : ℕ → ℕ) → RepliesCountNothing V same hash asks setting slot }
    ensures counted { (same : K → K → Bool) (hash : K → ℕ) (asks : Q → K → Bool) (setting : Setting) (slot : ℕ → ℕ) → CountsAtEnd V same hash asks setting slot }
    ensures unchanged { (same : K → K → Bool) (hash : K → ℕ) (setting : Setting) → CountsWhereUnchanged V same hash setting }
{}

/// So it is with a reservation: it begins where the owner rests, may take each of its steps, those of the collector's rows among them, and none of them has to
/// wait. No pair of the map changes by it, nor what the shards of the counter say. Each run of its steps terminates, and then the owner rests. In incremental
/// mode it looks at the root alone, and copies into the root or a table behind it; at its end the root has the places for as many pairs as the shards say and
/// the further ones (`places` of each step).
pub fn reservations_run_whole<K, V, Q>()
    ensures begins { (same : K → K → Bool) (hash : K → ℕ) (asks : Q → K → Bool) (setting : Setting) (slot : ℕ → ℕ) → RoomsBeginAlone V same hash asks setting slot }
    ensures steps { (same : K → K → Bool) (hash : K → ℕ) (asks : Q → K → Bool) (setting : Setting) (slot : ℕ → ℕ) → RoomsContinueAlone V same hash asks setting slot }
    ensures ends { (same : K → K → Bool) (hash : K → ℕ) (asks : Q → K → Bool) (setting : Setting) (slot : ℕ → ℕ) → RoomsComeToAnEnd V same hash asks setting slot }
{}

/// And with a counting of the pairs: each of its steps leaves the memory as it is, none has to wait or is refused, and at its end the owner rests. Where the
/// shards of the counter say how many pairs the map has, it comes to the length of their list.
pub fn countings_run_whole<K, V, Q>()
    ensures begins { (same : K → K → Bool) (hash : K → ℕ) (asks : Q → K → Bool) (setting : Setting) (slot : ℕ → ℕ) → CountingsBeginAlone V same hash asks setting slot }
    ensures steps { (same : K → K → Bool) (hash : K → ℕ) (asks : Q → K → Bool) (setting : Setting) (slot : ℕ → ℕ) → CountingsContinueAlone V same hash asks setting slot }
    ensures counts { (same : K → K → Bool) (hash : K → ℕ) → CountingsComeTo V same hash }
{}

/// And with a sweep, a walk, a `clear` or a `retain`: it begins where the owner rests, may take each of its steps, those of the collector's rows among them,
/// and none of them has to wait. It is alone after each, and shows a pair that the map has, or asks about one, or is ready for the next one; or it has ended,
/// and the owner rests. Asked for the next pair, or told whether to keep one, it is alone again. The whole sweep terminates, whatever it is told. Where the
/// shards of the counter said how many pairs the map had as it began, they say so at its end.
pub fn sweeps_run_whole<K, V, Q>()
    ensures begins { (same : K → K → Bool) (hash : K → ℕ) (asks : Q → K → Bool) (setting : Setting) (slot : ℕ → ℕ) → SweepsBeginAlone V same hash asks setting slot }
    ensures steps { (same : K → K → Bool) (hash : K → ℕ) (asks : Q → K → Bool) (setting : Setting) (slot : ℕ → ℕ) → SweepsContinueAlone V same hash asks setting slot }
    ensures told { (same : K → K → Bool) (hash : K → ℕ) (asks : Q → K → Bool) (setting : Setting) (slot : ℕ → ℕ) → SweepsRepliedAlone V same hash asks setting slot }
    ensures ends { (same : K → K → Bool) (hash : K → ℕ) (asks : Q → K → Bool) (setting : Setting) (slot : ℕ → ℕ) → SweepsComeToAnEnd V same hash asks setting slot }
    ensures telling_counts { TellingCountsNothing }
    ensures telling_keeps { RepliesPreserveThePurpose }
    ensures counted { SweptPairsCounted K V }
{}

/// What a sweep has run since a state of the map (`runs` of each step above, and of what it is told) tells the list of the pairs, each behind its number. As it
/// begins, it has done nothing. While it goes on, the list is that of the beginning without the pairs that were removed, and each pair that is shown, or asked
/// about, is one of it, with its key and value. At its end a walk has left all pairs, and has shown each once, in some order; a `clear` has left none; a `retain` has left
/// those that it was told to keep, in their order. In incremental mode a `retain` was told about each pair of the list once, and one that is refused leaves
/// the list as it was: it has seen each copying through before it comes to a place, so it meets no mark, and never begins anew. And where it was told to keep just
/// the pairs that pass a test, the list at its end is that of the beginning, filtered by the test.
pub fn sweeps_leave_pairs<K, V>()
    ensures numbers { NumbersAre K V }
    ensures pairs { NumbersGo K V }
    ensures in_it { PairsAreInIt K V }
    ensures begins { SweptBegins K V }
    ensures between { (incremental : Bool) (m0 m : Mem (Node K V)) (c0 c : Chart K) (blocks0 blocks : Blocks) (asked : List ℕ) (o : CallOverAll) → ContentsBetween K V incremental m0 m c0 c blocks0 blocks asked o }
    ensures shown { (incremental : Bool) (m0 m : Mem (Node K V)) (c0 c : Chart K) (blocks0 blocks : Blocks) (asked : List ℕ) (o : CallOverAll) → ShownIsInIt K V incremental m0 m c0 c blocks0 blocks asked o }
    ensures asks_once { (incremental : Bool) (m0 m : Mem (Node K V)) (c0 c : Chart K) (blocks0 blocks : Blocks) (asked : List ℕ) (o : CallOverAll) → AsksOnce K V incremental m0 m c0 c blocks0 blocks asked o }
    ensures refused { (incremental : Bool) (m0 m : Mem (Node K V)) (c0 c : Chart K) (blocks0 blocks : Blocks) (asked : List ℕ) (o : CallOverAll) → RefusedPreservesAll K V incremental m0 m c0 c blocks0 blocks asked o }
    ensures leaves { (incremental : Bool) (m0 m : Mem (Node K V)) (c0 c : Chart K) (blocks0 blocks : Blocks) (asked : List ℕ) (o : CallOverAll) → SweepsLeave K V incremental m0 m c0 c blocks0 blocks asked o }
    ensures kept_begins { (test : K → V → Bool) (m0 : Mem (Node K V)) (blocks0 : Blocks) → KeptBegins test m0 blocks0 }
    ensures kept_told { (test : K → V → Bool) (m0 : Mem (Node K V)) (blocks0 : Blocks) → KeptReplied test m0 blocks0 }
    ensures kept { (test : K → V → Bool) (m0 : Mem (Node K V)) (blocks0 : Blocks) → KeptAtEnd test m0 blocks0 }
    ensures shown_all { (same : K → K → Bool) (hash : K → ℕ) → WalksShowAll V same hash }
{}

/// The pairs of a map are a list, in the order in which they were stored, with no two keys of one class. What runs at keys of one class has changed nothing as
/// it begins, and each of its steps tells what it has changed since, and that it has kept all other pairs with their values (`runs` of each step above). The list
/// at its end follows: it is the same; or it has the stored pair behind all others, where it had none of the class; or it has that pair in place of the one of the
/// class; or it has lost that one. What is answered where nothing was changed is of the list: the word is that of the pair of the class, or there is none. So
/// the answer at the end of a whole call tells the list at its end by that at its beginning: what was stored is what the call was given, or was told, and what
/// was replaced or removed is the pair of the class that the list had.
pub fn contents_follow_the_pairs<K, V, Q>()
    ensures contents { (same : K → K → Bool) (hash : K → ℕ) → ContentsAre V same hash }
    ensures begins { (same : K → K → Bool) (hash : K → ℕ) → RunsBegin V same hash }
    ensures follow { (same : K → K → Bool) (hash : K → ℕ) → ContentsFollow V same hash }
    ensures answers { (same : K → K → Bool) (hash : K → ℕ) → AnswersOfPairs V same hash }
    ensures ends { (same : K → K → Bool) (hash : K → ℕ) (asks : Q → K → Bool) (setting : Setting) (slot : ℕ → ℕ) → AnswersTellThePairs V same hash asks setting slot }
{}

//! What is promised of what has happened to a memory of one owner, between the calls of its collector, and of a call midway.
ghost use Rattle.std.specs.Prelude.{ℕ, Option};
ghost use Rattle.seize_model.specs.Alone.Laws.{
  HistoriesBegin,
  ChoicesAreQuiet,
  InsidesAreActive,
  OutsidesAreNot,
  WaitingWasHanded,
  CarriersAreThere,
  CarriersHaveLists,
  NoListNoWaiting,
  NobodysIsNone,
  RegisteredSlotsSay,
  CallsEndWithMore,
  NewSlotIsFirst,
  NoNewSlotNoneVacant,
  SparedStaysInHand,
  ReclaimedIsNobodys,
  CountsAgree,
};

/// In a memory with roots alone nothing has happened yet, and nothing happens where a number is chosen.
pub fn histories_begin<T>()
    ensures begins { (defers : T → Option ℕ) (batch_size : ℕ) → HistoriesBegin T defers batch_size }
    ensures choices { (defers : T → Option ℕ) (batch_size : ℕ) → ChoicesAreQuiet T defers batch_size }
{}

/// By what has happened: a slot is active where somebody is inside it, and else not. What waits was handed over. What others wait behind is there,
/// and its value has a list. A number that is nobody's names no block.
pub fn histories_tell_the_memory<T>()
    ensures inside { (defers : T → Option ℕ) (batch_size : ℕ) → InsidesAreActive T defers batch_size }
    ensures outside { (defers : T → Option ℕ) (batch_size : ℕ) → OutsidesAreNot T defers batch_size }
    ensures waiting { (defers : T → Option ℕ) (batch_size : ℕ) → WaitingWasHanded T defers batch_size }
    ensures carriers { (defers : T → Option ℕ) (batch_size : ℕ) → CarriersAreThere T defers batch_size }
    ensures lists { (defers : T → Option ℕ) (batch_size : ℕ) → CarriersHaveLists T defers batch_size }
    ensures none { (defers : T → Option ℕ) (batch_size : ℕ) → NoListNoWaiting T defers batch_size }
    ensures nobodys { (defers : T → Option ℕ) (batch_size : ℕ) → NobodysIsNone T defers batch_size }
    ensures registered { (defers : T → Option ℕ) (batch_size : ℕ) → RegisteredSlotsSay T defers batch_size }
{}

/// The slot that a registration takes is the first one that is vacant.
pub fn new_slots_are_the_first()
    ensures first { NewSlotIsFirst }
    ensures none { NoNewSlotNoneVacant }
{}

/// After effects a block is whose it was, if none of them reclaimed it, and else it is nobody's.
pub fn reclaimed_blocks_change_hands()
    ensures spared { SparedStaysInHand }
    ensures reclaimed { ReclaimedIsNobodys }
    ensures counts { CountsAgree }
{}

/// A call midway gives back all that it has to: at its end that is what it has given so far, and what it gives from there on.
pub fn calls_end_with_more<T>()
    ensures more { (defers : T → Option ℕ) (batch_size : ℕ) → CallsEndWithMore T defers batch_size }
{}

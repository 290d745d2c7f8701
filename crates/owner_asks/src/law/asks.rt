//! What is promised of calls that ask, for one owner, once they were told what to do.
ghost use Rattle.owner_asks.specs.Asks.Asking.{RepliedCallsRefuse};

/// A call that was told to store a value is refused memory or capacity alone from then on. One that was told to remove what is not there is refused that,
/// and for no want of room. One that was told to remove a pair, or to change nothing, is not refused.
pub fn told_calls_are_refused_for_a_reason<K, V, Q, S>()
    ensures { RepliedCallsRefuse K V Q S }
{}

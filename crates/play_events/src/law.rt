//! What is promised of what calls take out of their maps, and hand over.
ghost use Rattle.std.specs.Prelude.{ℕ, Bool};
ghost use Rattle.play_events.specs.Folded.Folded.{CallsFold, DeferralsAreRight, EffectsFold, EndedCallsFold};
ghost use Rattle.play_events.specs.Folded.Steps.{CallEventsHandInOrder, StepsHandInOrder};

/// The effects of each step of a call, of whatever kind and whoever steps beside it, hand over what the call owes first; and so do all effects of an event by which a call goes on, from one step to the
/// next.
pub fn calls_hand_in_order<K, V>()
    ensures steps { (same : K → K → Bool) (hash : ℕ → K → ℕ) → StepsHandInOrder K V same hash }
    ensures events { (same : K → K → Bool) (hash : ℕ → K → ℕ) → CallEventsHandInOrder K V same hash }
{}

/// By effects that hand over in order, what a call owed, and behind that what they take out of its map, is what they hand over, and behind that its obligations
/// then. So by a log each of whose events hands over in order, what a call under way has taken out since it began, one thing after another, is what it has
/// handed over, and behind that its obligations, whatever others did meanwhile; and one that has ended with an event that leaves nothing behind, or is ready,
/// has handed over just what it took out, in that order. A pair that it put behind a table was put behind the one just before that in which it lies.
pub fn what_goes_out_is_handed_over<K, V>()
    ensures effects { EffectsFold K V }
    ensures calls { CallsFold K V }
    ensures ended { EndedCallsFold K V }
    ensures deferrals { DeferralsAreRight K V }
{}

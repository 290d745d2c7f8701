//! What a call under way has in hand at a moment of a run, the blocks that it has made, and the words in which pairs of a map are counted.
#![tactic(auto)]

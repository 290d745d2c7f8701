//! The rule of maps as a content: rows of the collector run beside calls.
use crate::maps::OfMaps;
use map_tables::{Hashes, Node};
use seize_views::Content;

impl<K: Eq, V, S: Hashes<K>> Content<Node<K, V>> for OfMaps<S> {
    ghost use Rattle.std.specs.Prelude.{List, Option};
    ghost use Rattle.threads_rule.specs.Views.Notes.{beside_of, notes_of};
    ghost use Rattle.threads_rule.specs.declared.view.Map.{Map};
    ghost use Rattle.threads_rule.specs.declared.view.BegunCall.{BegunCall};

    ghost Beside = { Option (Map S) × List (BegunCall K V) };

    ghost notes = { notes_of };

    ghost beside = { beside_of };

    fn goes_on() {}
}

//! A caller, with its call.
ghost use Rattle.std.specs.Prelude.{◌≡◌, ℕ, List};
ghost use Rattle.run_executor.specs.Named.Seen.{shows, takes};
ghost use Rattle.run_executor.specs.Named.Telling.{value_of};

use crate::kind::CallKind;
use papaya_raw::Node;
use run_names::crowd::HasName;
use run_schedules::call::Reply;
use run_schedules::token::Token;

/// How far a call is.
#[derive(Clone, Copy)]
pub enum Stands {
    /// It goes on.
    Goes,
    /// It asks about this pair, or about none, and there is no reply yet.
    Asks(Option<u64>),
    /// It is a walk that shows pairs.
    Ready,
}

/// A caller, with its call.
#[derive(Drop)]
pub struct NamedCaller<V> {
    /// Its name.
    pub name: Token,
    /// The guard under which it calls.
    pub guard: Token,
    /// The number of the map.
    pub map: u64,
    /// The number that the executor has for it.
    pub number: u64,
    /// What the call is.
    pub kind: CallKind,
    /// How far it is.
    pub stands: Stands,
    /// The value that was not stored, or that its closure aborted with.
    pub value: Option<V>,
}

/// The value of a pair.
pub(crate) fn value_of<K: Drop, V: Drop>(node: Node<K, V>) -> Option<V>
    ensures { result ≡ value_of node }
{
    match node {
        Node::Pair(_, value) => Some(value),
        Node::Table { .. } | Node::Shards => None,
    }
}

impl<V> NamedCaller<V> {
    /// Returns whether its call asks, and a reply is of the kind that it asks for.
    pub fn takes(&self, reply: &Reply<V>) -> bool
        ensures { result ≡ takes self.now reply.now }
    {
        matches!(self.stands, Stands::Asks(_)) && self.kind.fits(reply)
    }

    /// Returns whether its call is a walk that shows pairs.
    pub fn shows(&self) -> bool
        ensures { result ≡ shows self.now.stands }
    {
        matches!(self.stands, Stands::Ready)
    }
}

impl<V: Drop> HasName for NamedCaller<V> {
    ghost name_of = { λ caller. caller.name };

    fn name(&self) -> &Token {
        &self.name
    }
}

//! How calls on one key begin.
ghost use Rattle.std.specs.Prelude.{◌≡◌, None};
ghost use Rattle.papaya_raw.specs.CallPoints.{calling, getting, removing, inserting, trying_to_insert};
ghost use Rattle.papaya_raw.specs.CallAsks.{computing, updating, updating_or_inserting, trying_to_insert_with, removing_if};
ghost use Rattle.papaya_raw.specs.declared.machines.asking.Told.TheVariants.{Nothing, Value};
ghost use Rattle.papaya_raw.specs.declared.machines.call.Calling.TheVariants.{Roots};

use crate::machines::answer::{Missing, There};
use crate::machines::asking::{Replies, Takes, Told};
use crate::machines::call::{Calling, KeyCall};
use map_sweeps::named::{Node, Probe, Setting, Table, Trial};
use map_sweeps::named_sweeps::Lookup;

impl<K, V, Q> KeyCall<K, V, Q> {
    /// Looks for a key with this hash.
    pub fn get(setting: Setting, hash: u64, asked: Q) -> Self
        ensures { result ≡ getting setting hash asked }
    {
        let lookup = Lookup::new(setting.root, setting.mode, hash);
        KeyCall::begin(
            setting,
            hash,
            There::Answers,
            Missing::Answers,
            Some(asked),
            None,
            Replies::silent(),
            Calling::Looks(lookup),
        )
    }

    /// Removes the pair of a key with this hash.
    pub fn remove(setting: Setting, hash: u64, asked: Q) -> Self
        ensures { result ≡ removing setting hash asked }
    {
        KeyCall::begin(
            setting,
            hash,
            There::Removes,
            Missing::Answers,
            Some(asked),
            None,
            Replies::silent(),
            Calling::Roots,
        )
    }

    /// Stores a pair, also in the place of another one of its key. The hash is that of the key.
    pub fn insert(setting: Setting, hash: u64, key: K, value: V) -> Self
        ensures { result ≡ inserting setting hash key value }
    {
        KeyCall::begin(
            setting,
            hash,
            There::Puts,
            Missing::Puts,
            None,
            Some(Node::Pair(key, value)),
            Replies::silent(),
            Calling::Makes,
        )
    }

    /// Stores a pair, if its key is not there yet. The hash is that of the key.
    pub fn try_insert(setting: Setting, hash: u64, key: K, value: V) -> Self
        ensures { result ≡ trying_to_insert setting hash key value }
    {
        KeyCall::begin(
            setting,
            hash,
            There::Answers,
            Missing::Puts,
            None,
            Some(Node::Pair(key, value)),
            Replies::silent(),
            Calling::Makes,
        )
    }

    /// Asks what to do with the pair of a key with this hash, or where there is none: it takes a value, that the pair is to be
    /// removed, or that nothing is to change. The fault `Fault::RemoveNothing` is a removal where there is none. The hash is that of
    /// the key.
    pub fn compute(setting: Setting, hash: u64, key: K) -> Self
        ensures { result ≡ computing setting hash key }
    {
        KeyCall::asking(
            setting,
            hash,
            There::Asks,
            Missing::Asks,
            None,
            Replies::new(Takes::Changes, Some(key), Told::Nothing),
        )
    }

    /// Asks for another value, if the key is there. The hash is that of the key.
    pub fn update(setting: Setting, hash: u64, key: K) -> Self
        ensures { result ≡ updating setting hash key }
    {
        KeyCall::asking(
            setting,
            hash,
            There::Asks,
            Missing::Answers,
            None,
            Replies::new(Takes::Values, Some(key), Told::Nothing),
        )
    }

    /// Asks for another value, if the key is there, and else stores this one. The hash is that of the key.
    pub fn update_or_insert(setting: Setting, hash: u64, key: K, value: V) -> Self
        ensures { result ≡ updating_or_inserting setting hash key (Value value) }
    {
        KeyCall::asking(
            setting,
            hash,
            There::Asks,
            Missing::Asks,
            None,
            Replies::new(Takes::Values, Some(key), Told::Value(value)),
        )
    }

    /// Asks for another value, if the key is there, and else for the one to be stored. The hash is that of the key.
    pub fn update_or_insert_with(setting: Setting, hash: u64, key: K) -> Self
        ensures { result ≡ updating_or_inserting setting hash key Nothing }
    {
        KeyCall::asking(
            setting,
            hash,
            There::Asks,
            Missing::Asks,
            None,
            Replies::new(Takes::Values, Some(key), Told::Nothing),
        )
    }

    /// Asks for a value and stores it, if the key is not there yet. The hash is that of the key.
    pub fn try_insert_with(setting: Setting, hash: u64, key: K) -> Self
        ensures { result ≡ trying_to_insert_with setting hash key }
    {
        KeyCall::asking(
            setting,
            hash,
            There::Answers,
            Missing::Asks,
            None,
            Replies::new(Takes::Values, Some(key), Told::Nothing),
        )
    }

    /// Asks whether to remove the pair of a key with this hash: it takes yes or no. It asks again where it meets another pair, or
    /// that one again.
    pub fn remove_if(setting: Setting, hash: u64, asked: Q) -> Self
        ensures { result ≡ removing_if setting hash asked }
    {
        KeyCall::asking(
            setting,
            hash,
            There::Asks,
            Missing::Answers,
            Some(asked),
            Replies::new(Takes::Choices, None, Told::Nothing),
        )
    }

    /// A call that asks, and has tried nothing yet.
    fn asking(
        setting: Setting,
        hash: u64,
        there: There,
        missing: Missing,
        asked: Option<Q>,
        replies: Replies<K, V>,
    ) -> Self
        ensures { result ≡ calling setting hash there missing asked None replies Roots }
    {
        KeyCall::begin(
            setting,
            hash,
            there,
            missing,
            asked,
            None,
            replies,
            Calling::Roots,
        )
    }

    /// A call that has tried nothing yet.
    fn begin(
        setting: Setting,
        hash: u64,
        there: There,
        missing: Missing,
        asked: Option<Q>,
        unmade: Option<Node<K, V>>,
        replies: Replies<K, V>,
        stands: Calling,
    ) -> Self
        ensures { result ≡ calling setting hash there missing asked unmade replies stands }
    {
        let table = Table {
            link: 0,
            len: 0,
            limit: 0,
            turn: 0,
        };
        KeyCall {
            setting,
            hash,
            there,
            missing,
            asked,
            unmade,
            replies,
            own: 0,
            trial: Trial {
                table,
                probe: Probe { i: 0, len: 0 },
                met: 0,
                most: 0,
            },
            helped: false,
            stands,
        }
    }
}

//! What a call is, without its keys and values: by this its answers are told, and it is known which replies it takes.
ghost use Rattle.std.specs.Prelude.{◌≡◌};
ghost use Rattle.run_executor.specs.Named.Seen.{fits, kind_of, kind_on};

use run_schedules::call::{Call, OneKey, Reply};

/// What a call is, without its keys and values.
#[derive(Clone, Copy)]
pub enum CallKind {
    /// A call on one key that answers with the pair that it finds, stores or removes: a lookup, a removal, `get_or_insert`, and `get_or_insert_with`.
    Finds,
    /// It answers with the pair that was there.
    Inserts,
    /// It answers with the pair that is there, and the value that it has not stored.
    TriesToInsert,
    /// It answers with the pair that is there, which stays.
    TriesToInsertWith,
    /// It answers with the pair that it stores, whether or not in the place of another one.
    Updates,
    /// It tells what it did, or what its closure aborted with.
    Computes,
    /// It answers with a pair that it removes, or that stays.
    RemovesIf,
    /// It makes room.
    Reserves,
    /// It removes all pairs.
    Clears,
    /// It asks of each pair whether it stays.
    Retains,
    /// It counts the pairs.
    Counts,
    /// It shows the pairs.
    Walks,
}

impl CallKind {
    /// That of a call on one key.
    fn on<K, V>(one: &OneKey<K, V>) -> Self
        ensures { result ≡ kind_on one.now }
    {
        match one {
            OneKey::Get(_)
            | OneKey::GetKeyValue(_)
            | OneKey::ContainsKey(_)
            | OneKey::GetOrInsert(..)
            | OneKey::GetOrInsertWith(_)
            | OneKey::Remove(_)
            | OneKey::RemoveEntry(_) => CallKind::Finds,
            OneKey::Insert(..) => CallKind::Inserts,
            OneKey::TryInsert(..) => CallKind::TriesToInsert,
            OneKey::TryInsertWith(_) => CallKind::TriesToInsertWith,
            OneKey::Update(_) | OneKey::UpdateOrInsert(..) | OneKey::UpdateOrInsertWith(_) => {
                CallKind::Updates
            }
            OneKey::Compute(_) => CallKind::Computes,
            OneKey::RemoveIf(_) => CallKind::RemovesIf,
        }
    }

    /// Returns the kind of a call.
    pub fn of<K, V>(call: &Call<K, V>) -> Self
        ensures { result ≡ kind_of call.now }
    {
        match call {
            Call::On(one) => CallKind::on(one),
            Call::Reserve(_) => CallKind::Reserves,
            Call::Clear => CallKind::Clears,
            Call::Retain => CallKind::Retains,
            Call::Len => CallKind::Counts,
            Call::Walk => CallKind::Walks,
        }
    }

    /// Returns whether a reply is of the kind that such a call asks for.
    pub fn fits<V>(self, reply: &Reply<V>) -> bool
        ensures { result ≡ fits self reply.now }
    {
        match self {
            CallKind::Computes => !matches!(reply, Reply::Decides(_)),
            CallKind::RemovesIf | CallKind::Retains => matches!(reply, Reply::Decides(_)),
            CallKind::Finds
            | CallKind::Inserts
            | CallKind::TriesToInsert
            | CallKind::TriesToInsertWith
            | CallKind::Updates => matches!(reply, Reply::Gives(_)),
            CallKind::Reserves | CallKind::Clears | CallKind::Counts | CallKind::Walks => false,
        }
    }
}

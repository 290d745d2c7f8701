//! Copies of calls and of what closures reply, and whether two are the same.
ghost use Rattle.std.specs.Prelude.{◌≡◌, IfOk};
ghost use Rattle.run_effects.specs.Copies.Copies.{ClonesAreSame};
ghost use Rattle.run_effects.specs.Copies.Same.{same_by_key, same_call, same_reply, same_storing};

use run_schedules::call::{Call, OneKey, Reply};
use std::alloc::AllocError;

/// A copy of a call on one key.
fn copy_of_one<K: Clone, V: Clone>(call: &OneKey<K, V>) -> Result<OneKey<K, V>, AllocError>
    requires keys { ClonesAreSame K.is_clone }
    requires values { ClonesAreSame V.is_clone }
    ensures { IfOk result (λ copy. copy ≡ call.now) }
{
    Ok(match call {
        OneKey::Get(key) => OneKey::Get(key.clone()?),
        OneKey::GetKeyValue(key) => OneKey::GetKeyValue(key.clone()?),
        OneKey::ContainsKey(key) => OneKey::ContainsKey(key.clone()?),
        OneKey::Insert(key, value) => OneKey::Insert(key.clone()?, value.clone()?),
        OneKey::TryInsert(key, value) => OneKey::TryInsert(key.clone()?, value.clone()?),
        OneKey::TryInsertWith(key) => OneKey::TryInsertWith(key.clone()?),
        OneKey::GetOrInsert(key, value) => OneKey::GetOrInsert(key.clone()?, value.clone()?),
        OneKey::GetOrInsertWith(key) => OneKey::GetOrInsertWith(key.clone()?),
        OneKey::Update(key) => OneKey::Update(key.clone()?),
        OneKey::UpdateOrInsert(key, value) => OneKey::UpdateOrInsert(key.clone()?, value.clone()?),
        OneKey::UpdateOrInsertWith(key) => OneKey::UpdateOrInsertWith(key.clone()?),
        OneKey::Compute(key) => OneKey::Compute(key.clone()?),
        OneKey::Remove(key) => OneKey::Remove(key.clone()?),
        OneKey::RemoveEntry(key) => OneKey::RemoveEntry(key.clone()?),
        OneKey::RemoveIf(key) => OneKey::RemoveIf(key.clone()?),
    })
}

/// Makes a copy of a call.
pub fn copy_of<K: Clone, V: Clone>(call: &Call<K, V>) -> Result<Call<K, V>, AllocError>
    requires keys { ClonesAreSame K.is_clone }
    requires values { ClonesAreSame V.is_clone }
    ensures { IfOk result (λ copy. copy ≡ call.now) }
{
    Ok(match call {
        Call::On(one) => Call::On(copy_of_one(one)?),
        Call::Reserve(pairs) => Call::Reserve(*pairs),
        Call::Clear => Call::Clear,
        Call::Retain => Call::Retain,
        Call::Len => Call::Len,
        Call::Walk => Call::Walk,
    })
}

/// Makes a copy of a reply.
pub fn copy_of_reply<V: Clone>(reply: &Reply<V>) -> Result<Reply<V>, AllocError>
    requires { ClonesAreSame V.is_clone }
    ensures { IfOk result (λ copy. copy ≡ reply.now) }
{
    Ok(match reply {
        Reply::Gives(value) => Reply::Gives(value.clone()?),
        Reply::Removes => Reply::Removes,
        Reply::Aborts(value) => Reply::Aborts(value.clone()?),
        Reply::Decides(decided) => Reply::Decides(*decided),
    })
}

/// Whether two calls with a value of their own are the same.
fn same_storing<K: PartialEq, V: PartialEq>(one: &OneKey<K, V>, other: &OneKey<K, V>) -> bool
    ensures { result ≡ same_storing K.eq V.eq one.now other.now }
{
    match (one, other) {
        (OneKey::Insert(key, value), OneKey::Insert(k, v)) => key == k && value == v,
        (OneKey::TryInsert(key, value), OneKey::TryInsert(k, v)) => key == k && value == v,
        (OneKey::GetOrInsert(key, value), OneKey::GetOrInsert(k, v)) => key == k && value == v,
        (OneKey::UpdateOrInsert(key, value), OneKey::UpdateOrInsert(k, v)) => {
            key == k && value == v
        }
        _ => false,
    }
}

/// Whether two calls of a key alone are the same.
fn same_by_key<K: PartialEq, V: PartialEq>(one: &OneKey<K, V>, other: &OneKey<K, V>) -> bool
    ensures { result ≡ same_by_key K.eq V.eq one.now other.now }
{
    match (one, other) {
        (OneKey::Get(key), OneKey::Get(k)) => key == k,
        (OneKey::GetKeyValue(key), OneKey::GetKeyValue(k)) => key == k,
        (OneKey::ContainsKey(key), OneKey::ContainsKey(k)) => key == k,
        (OneKey::TryInsertWith(key), OneKey::TryInsertWith(k)) => key == k,
        (OneKey::GetOrInsertWith(key), OneKey::GetOrInsertWith(k)) => key == k,
        (OneKey::Update(key), OneKey::Update(k)) => key == k,
        (OneKey::UpdateOrInsertWith(key), OneKey::UpdateOrInsertWith(k)) => key == k,
        (OneKey::Compute(key), OneKey::Compute(k)) => key == k,
        (OneKey::Remove(key), OneKey::Remove(k)) => key == k,
        (OneKey::RemoveEntry(key), OneKey::RemoveEntry(k)) => key == k,
        (OneKey::RemoveIf(key), OneKey::RemoveIf(k)) => key == k,
        _ => false,
    }
}

/// Returns whether two calls are the same, their keys and values compared by `==`.
pub fn same<K: PartialEq, V: PartialEq>(one: &Call<K, V>, other: &Call<K, V>) -> bool
    ensures { result ≡ same_call K.eq V.eq one.now other.now }
{
    match (one, other) {
        (Call::On(one), Call::On(other)) => same_storing(one, other) || same_by_key(one, other),
        (Call::Reserve(pairs), Call::Reserve(n)) => pairs == n,
        (Call::Clear, Call::Clear) => true,
        (Call::Retain, Call::Retain) => true,
        (Call::Len, Call::Len) => true,
        (Call::Walk, Call::Walk) => true,
        _ => false,
    }
}

/// Returns whether two replies are the same, their values compared by `==`.
pub fn same_reply<V: PartialEq>(one: &Reply<V>, other: &Reply<V>) -> bool
    ensures { result ≡ same_reply V.eq one.now other.now }
{
    match (one, other) {
        (Reply::Gives(value), Reply::Gives(v)) => value == v,
        (Reply::Removes, Reply::Removes) => true,
        (Reply::Aborts(value), Reply::Aborts(v)) => value == v,
        (Reply::Decides(decided), Reply::Decides(d)) => decided == d,
        _ => false,
    }
}

//! The machine of a call.
ghost use Rattle.std.specs.Prelude.{◌≡◌};
ghost use Rattle.run_schedules.specs.Schedules.Sequential.{key_of};
ghost use Rattle.run_executor.specs.Named.Machines.{machine_for, machine_on};

use papaya_raw::machines::{KeyCall, Machine, Reserve, Sum, Sweep};
use papaya_raw::{Hashes, Setting};
use run_schedules::call::{Call, OneKey};

/// The key that is handed in.
fn key_of<K, V>(one: &OneKey<K, V>) -> &K
    ensures { result.now ≡ key_of one.now }
{
    match one {
        OneKey::Get(key)
        | OneKey::GetKeyValue(key)
        | OneKey::ContainsKey(key)
        | OneKey::Insert(key, _)
        | OneKey::TryInsert(key, _)
        | OneKey::TryInsertWith(key)
        | OneKey::GetOrInsert(key, _)
        | OneKey::GetOrInsertWith(key)
        | OneKey::Update(key)
        | OneKey::UpdateOrInsert(key, _)
        | OneKey::UpdateOrInsertWith(key)
        | OneKey::Compute(key)
        | OneKey::Remove(key)
        | OneKey::RemoveEntry(key)
        | OneKey::RemoveIf(key) => key,
    }
}

/// The machine of a call on one key.
fn machine_on<K, V, S: Hashes<K>>(setting: Setting, hasher: &S, one: OneKey<K, V>) -> KeyCall<K, V>
    ensures { result ≡ machine_on setting (S.hash hasher.now) one }
{
    let hash = hasher.hash_of(key_of(&one));
    match one {
        OneKey::Get(key) | OneKey::GetKeyValue(key) | OneKey::ContainsKey(key) => {
            KeyCall::get(setting, hash, key)
        }
        OneKey::Insert(key, value) => KeyCall::insert(setting, hash, key, value),
        OneKey::TryInsert(key, value) | OneKey::GetOrInsert(key, value) => {
            KeyCall::try_insert(setting, hash, key, value)
        }
        OneKey::TryInsertWith(key) | OneKey::GetOrInsertWith(key) => {
            KeyCall::try_insert_with(setting, hash, key)
        }
        OneKey::Update(key) => KeyCall::update(setting, hash, key),
        OneKey::UpdateOrInsert(key, value) => {
            KeyCall::update_or_insert(setting, hash, key, value)
        }
        OneKey::UpdateOrInsertWith(key) => KeyCall::update_or_insert_with(setting, hash, key),
        OneKey::Compute(key) => KeyCall::compute(setting, hash, key),
        OneKey::Remove(key) | OneKey::RemoveEntry(key) => KeyCall::remove(setting, hash, key),
        OneKey::RemoveIf(key) => KeyCall::remove_if(setting, hash, key),
    }
}

/// Returns the machine of a call.
pub fn machine_for<K, V, S: Hashes<K>>(
    setting: Setting,
    hasher: &S,
    call: Call<K, V>,
) -> Machine<K, V>
    ensures { result ≡ machine_for setting (S.hash hasher.now) call }
{
    match call {
        Call::On(one) => Machine::Key(machine_on(setting, hasher, one)),
        Call::Reserve(additional) => Machine::Reserve(Reserve::new(setting, additional)),
        Call::Clear => Machine::Sweep(Sweep::clear(setting)),
        Call::Retain => Machine::Sweep(Sweep::retain(setting)),
        Call::Len => Machine::Count(Sum::new(setting)),
        Call::Walk => Machine::Sweep(Sweep::walk(setting)),
    }
}

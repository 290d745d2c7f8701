//! Copies of events, and whether two are the same.
ghost use Rattle.std.specs.Prelude.{◌≡◌, IfOk};
ghost use Rattle.run_effects.specs.Copies.Copies.{ClonesAreSame};
ghost use Rattle.run_effects.specs.Copies.Same.{same_event, same_hash, same_mode, same_of_calls, same_of_guards, same_of_maps, same_setup};

use crate::calls;
use run_schedules::ResizeMode;
use run_schedules::event::Event;
use run_schedules::key_hash::KeyHash;
use run_schedules::setup::Setup;
use run_schedules::token::Token;
use std::alloc::{AllocError, Global};

/// A copy of a name.
fn name(alloc: Global, name: &Token) -> Result<Token, AllocError>
    ensures { IfOk result (λ copy. copy ≡ name.now) }
{
    Token::copy_of(alloc, name.as_bytes())
}

/// Makes a copy of an event.
pub fn copy_of<K: Clone, V: Clone>(
    alloc: Global,
    event: &Event<K, V>,
) -> Result<Event<K, V>, AllocError>
    requires keys { ClonesAreSame K.is_clone }
    requires values { ClonesAreSame V.is_clone }
    ensures { IfOk result (λ copy. copy ≡ event.now) }
{
    Ok(match event {
        Event::Collector(setup) => Event::Collector(*setup),
        Event::Hash(by) => Event::Hash(*by),
        Event::Choose(choice) => Event::Choose(*choice),
        Event::Register { registration } => Event::Register {
            registration: name(alloc, registration)?,
        },
        Event::Unregister { registration } => Event::Unregister {
            registration: name(alloc, registration)?,
        },
        Event::Enter {
            guard,
            registration,
        } => Event::Enter {
            guard: name(alloc, guard)?,
            registration: name(alloc, registration)?,
        },
        Event::Own { guard } => Event::Own {
            guard: name(alloc, guard)?,
        },
        Event::Refresh { guard } => Event::Refresh {
            guard: name(alloc, guard)?,
        },
        Event::Flush { guard } => Event::Flush {
            guard: name(alloc, guard)?,
        },
        Event::DropGuard { guard } => Event::DropGuard {
            guard: name(alloc, guard)?,
        },
        Event::Forget { guard } => Event::Forget {
            guard: name(alloc, guard)?,
        },
        Event::ReclaimAll => Event::ReclaimAll,
        Event::Close => Event::Close,
        Event::MakeMap {
            map,
            mode,
            capacity,
        } => Event::MakeMap {
            map: name(alloc, map)?,
            mode: *mode,
            capacity: *capacity,
        },
        Event::EndMap { map } => Event::EndMap {
            map: name(alloc, map)?,
        },
        Event::ShowShape { map } => Event::ShowShape {
            map: name(alloc, map)?,
        },
        Event::Begin {
            caller,
            guard,
            map,
            call,
        } => Event::Begin {
            caller: name(alloc, caller)?,
            guard: name(alloc, guard)?,
            map: name(alloc, map)?,
            call: calls::copy_of(call)?,
        },
        Event::Step { caller, refuse } => Event::Step {
            caller: name(alloc, caller)?,
            refuse: *refuse,
        },
        Event::Go { caller, refuse } => Event::Go {
            caller: name(alloc, caller)?,
            refuse: *refuse,
        },
        Event::Replied { caller, reply } => Event::Replied {
            caller: name(alloc, caller)?,
            reply: calls::copy_of_reply(reply)?,
        },
        Event::OneCall { guard, map, call } => Event::OneCall {
            guard: name(alloc, guard)?,
            map: name(alloc, map)?,
            call: calls::copy_of(call)?,
        },
        Event::Next { caller } => Event::Next {
            caller: name(alloc, caller)?,
        },
        Event::Stop { caller } => Event::Stop {
            caller: name(alloc, caller)?,
        },
    })
}

/// Whether two setups are the same.
fn same_setup(one: Setup, other: Setup) -> bool
    ensures { result ≡ same_setup one other }
{
    one.batch_size == other.batch_size
        && one.processors == other.processors
        && one.roots == other.roots
}

/// Whether two kinds of hashes are the same.
fn same_hash(one: KeyHash, other: KeyHash) -> bool
    ensures { result ≡ same_hash one other }
{
    matches!(
        (one, other),
        (KeyHash::Key, KeyHash::Key) | (KeyHash::Zero, KeyHash::Zero)
    )
}

/// Whether two maps come to their next tables in the same way.
fn same_mode(one: ResizeMode, other: ResizeMode) -> bool
    ensures { result ≡ same_mode one other }
{
    match (one, other) {
        (ResizeMode::Incremental(chunk), ResizeMode::Incremental(n)) => chunk == n,
        (ResizeMode::Blocking, ResizeMode::Blocking) => true,
        _ => false,
    }
}

/// Whether two events of calls are the same.
fn same_of_calls<K: PartialEq, V: PartialEq>(one: &Event<K, V>, other: &Event<K, V>) -> bool
    ensures { result ≡ same_of_calls K.eq V.eq one.now other.now }
{
    match (one, other) {
        (
            Event::Begin {
                caller,
                guard,
                map,
                call,
            },
            Event::Begin {
                caller: its_caller,
                guard: its_guard,
                map: its_map,
                call: its_call,
            },
        ) => {
            caller.is(its_caller)
                && guard.is(its_guard)
                && map.is(its_map)
                && calls::same(call, its_call)
        }
        (
            Event::Step { caller, refuse },
            Event::Step {
                caller: its_caller,
                refuse: its_refuse,
            },
        ) => caller.is(its_caller) && refuse == its_refuse,
        (
            Event::Go { caller, refuse },
            Event::Go {
                caller: its_caller,
                refuse: its_refuse,
            },
        ) => caller.is(its_caller) && refuse == its_refuse,
        (
            Event::Replied { caller, reply },
            Event::Replied {
                caller: its_caller,
                reply: its_reply,
            },
        ) => caller.is(its_caller) && calls::same_reply(reply, its_reply),
        (
            Event::OneCall { guard, map, call },
            Event::OneCall {
                guard: its_guard,
                map: its_map,
                call: its_call,
            },
        ) => guard.is(its_guard) && map.is(its_map) && calls::same(call, its_call),
        (Event::Next { caller }, Event::Next { caller: its_caller }) => caller.is(its_caller),
        (Event::Stop { caller }, Event::Stop { caller: its_caller }) => caller.is(its_caller),
        _ => false,
    }
}

/// Whether two events of maps, or of the whole collector, are the same.
fn same_of_maps<K, V>(one: &Event<K, V>, other: &Event<K, V>) -> bool
    ensures { result ≡ same_of_maps one.now other.now }
{
    match (one, other) {
        (Event::Collector(setup), Event::Collector(its_setup)) => same_setup(*setup, *its_setup),
        (Event::Hash(by), Event::Hash(its_way)) => same_hash(*by, *its_way),
        (Event::Choose(choice), Event::Choose(its_choice)) => choice == its_choice,
        (Event::ReclaimAll, Event::ReclaimAll) => true,
        (Event::Close, Event::Close) => true,
        (
            Event::MakeMap {
                map,
                mode,
                capacity,
            },
            Event::MakeMap {
                map: its_map,
                mode: its_mode,
                capacity: its_capacity,
            },
        ) => map.is(its_map) && same_mode(*mode, *its_mode) && capacity == its_capacity,
        (Event::EndMap { map }, Event::EndMap { map: its_map }) => map.is(its_map),
        (Event::ShowShape { map }, Event::ShowShape { map: its_map }) => map.is(its_map),
        _ => false,
    }
}

/// Whether two events of registrations or guards are the same.
fn same_of_guards<K, V>(one: &Event<K, V>, other: &Event<K, V>) -> bool
    ensures { result ≡ same_of_guards one.now other.now }
{
    match (one, other) {
        (Event::Register { registration }, Event::Register { registration: its }) => {
            registration.is(its)
        }
        (Event::Unregister { registration }, Event::Unregister { registration: its }) => {
            registration.is(its)
        }
        (
            Event::Enter {
                guard,
                registration,
            },
            Event::Enter {
                guard: its_guard,
                registration: its,
            },
        ) => guard.is(its_guard) && registration.is(its),
        (Event::Own { guard }, Event::Own { guard: its }) => guard.is(its),
        (Event::Refresh { guard }, Event::Refresh { guard: its }) => guard.is(its),
        (Event::Flush { guard }, Event::Flush { guard: its }) => guard.is(its),
        (Event::DropGuard { guard }, Event::DropGuard { guard: its }) => guard.is(its),
        (Event::Forget { guard }, Event::Forget { guard: its }) => guard.is(its),
        _ => false,
    }
}

/// Returns whether two events are the same, their keys and values compared by `==`.
pub fn same<K: PartialEq, V: PartialEq>(one: &Event<K, V>, other: &Event<K, V>) -> bool
    ensures { result ≡ same_event K.eq V.eq one.now other.now }
{
    same_of_calls(one, other) || same_of_guards(one, other) || same_of_maps(one, other)
}

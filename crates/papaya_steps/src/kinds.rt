//! Events by what they are of: a call, maps, or slots.
ghost use Rattle.std.specs.Prelude.{◌≡◌};
ghost use Rattle.papaya_steps.specs.WholeRuns.Kinds.{event_of};

use papaya_raw::ResizeMode;
use run_schedules::call::{Call, Reply};
use run_schedules::event::Event;
use run_schedules::key_hash::KeyHash;
use run_schedules::setup::Setup;
use run_schedules::token::Token;

/// An event of a call.
#[derive(Drop)]
pub(crate) enum CallEvent<K, V> {
    Begin(Token, Token, Token, Call<K, V>),
    Step(Token, bool),
    Go(Token, bool),
    Replied(Token, Reply<V>),
    OneCall(Token, Token, Call<K, V>),
    Next(Token),
    Stop(Token),
}

/// An event of maps, or one that reclaims everything.
#[derive(Drop)]
pub(crate) enum MapEvent {
    MakeMap(Token, ResizeMode, u64),
    EndMap(Token),
    ShowShape(Token),
    ReclaimAll,
    Close,
}

/// An event of the setup, of registrations or of guards.
#[derive(Drop)]
pub(crate) enum SlotEvent {
    Collector(Setup),
    Hash(KeyHash),
    Choose(u64),
    Register(Token),
    Unregister(Token),
    Enter(Token, Token),
    Own(Token),
    Refresh(Token),
    Flush(Token),
    DropGuard(Token),
    Forget(Token),
}

/// What an event is of.
#[derive(Drop)]
pub(crate) enum Kind<K, V> {
    OfCall(CallEvent<K, V>),
    OfMaps(MapEvent),
    OfSlots(SlotEvent),
}

/// What this event is of.
pub(crate) fn kind_of<K, V>(event: Event<K, V>) -> Kind<K, V>
    ensures { event_of result ≡ event }
{
    match event {
        Event::Collector(setup) => Kind::OfSlots(SlotEvent::Collector(setup)),
        Event::Hash(by) => Kind::OfSlots(SlotEvent::Hash(by)),
        Event::Choose(choice) => Kind::OfSlots(SlotEvent::Choose(choice)),
        Event::Register { registration } => Kind::OfSlots(SlotEvent::Register(registration)),
        Event::Unregister { registration } => Kind::OfSlots(SlotEvent::Unregister(registration)),
        Event::Enter {
            guard,
            registration,
        } => Kind::OfSlots(SlotEvent::Enter(guard, registration)),
        Event::Own { guard } => Kind::OfSlots(SlotEvent::Own(guard)),
        Event::Refresh { guard } => Kind::OfSlots(SlotEvent::Refresh(guard)),
        Event::Flush { guard } => Kind::OfSlots(SlotEvent::Flush(guard)),
        Event::DropGuard { guard } => Kind::OfSlots(SlotEvent::DropGuard(guard)),
        Event::Forget { guard } => Kind::OfSlots(SlotEvent::Forget(guard)),
        Event::MakeMap {
            map,
            mode,
            capacity,
        } => Kind::OfMaps(MapEvent::MakeMap(map, mode, capacity)),
        Event::EndMap { map } => Kind::OfMaps(MapEvent::EndMap(map)),
        Event::ShowShape { map } => Kind::OfMaps(MapEvent::ShowShape(map)),
        Event::ReclaimAll => Kind::OfMaps(MapEvent::ReclaimAll),
        Event::Close => Kind::OfMaps(MapEvent::Close),
        Event::Begin {
            caller,
            guard,
            map,
            call,
        } => Kind::OfCall(CallEvent::Begin(caller, guard, map, call)),
        Event::Step { caller, refuse } => Kind::OfCall(CallEvent::Step(caller, refuse)),
        Event::Go { caller, refuse } => Kind::OfCall(CallEvent::Go(caller, refuse)),
        Event::Replied { caller, reply } => Kind::OfCall(CallEvent::Replied(caller, reply)),
        Event::OneCall { guard, map, call } => Kind::OfCall(CallEvent::OneCall(guard, map, call)),
        Event::Next { caller } => Kind::OfCall(CallEvent::Next(caller)),
        Event::Stop { caller } => Kind::OfCall(CallEvent::Stop(caller)),
    }
}

//! An event of a schedule happens.
ghost use Rattle.std.specs.Prelude.{◌≡◌, length, IfOk};
ghost use Rattle.play_events.specs.Events.Asked.{HappensAt, HappensDue, HoldsThen, MayHappen, MayHappenDue, numbers_on};
ghost use Rattle.papaya_steps.specs.WholeRuns.Back.{GivesAt, GivesDue};
ghost use Rattle.papaya_steps.specs.WholeRuns.GoingOn.{ContinuesAt, ContinuesInTurn};
ghost use Rattle.papaya_steps.specs.WholeRuns.Kinds.{event_of_call, event_of_maps, event_of_slots};
ghost use Rattle.play_events.specs.Events.OfAll.{PreservesAll};
ghost use Rattle.play_events.specs.Events.OfCalls.{PreservesAt, PreservesInTurn};
ghost use Rattle.play_events.specs.Events.OfRows.{PreservesRun, PreservesRunAt};
ghost use Rattle.play_events.specs.Events.OfSetups.{PreservesSetup};
ghost use Rattle.play_events.specs.Given.ExecutorIsThere.{PreservesSettings, StaysGiven};

use crate::kinds::{CallEvent, Kind, MapEvent, SlotEvent, kind_of};
use crate::{Played, Scheduler, close, end_map, go, make_map, next, one_call, reclaim_all, step};
use papaya_raw::Hashes;
use run_schedules::ended::Pair;
use run_schedules::event::Event;
use std::alloc::AllocError;
use std::hash::Hash;

/// Lets an event of maps happen that is in turn, or one that reclaims everything.
fn of_maps<K: Eq + Hash + Drop, V: Drop, S: Hashes<K>>(
    scheduler: &mut Scheduler<K, V, S>,
    is_first: bool,
    event: MapEvent,
    back: &mut Vec<Pair<K, V>>,
) -> Result<Played<V>, AllocError>
    requires { MayHappenDue K.eq (S.hash scheduler.old.logged.executor.hasher) (event_of_maps event) scheduler.old }
    ensures happens { IfOk result (λ played. HappensDue K.eq (S.hash scheduler.old.logged.executor.hasher) is_first (event_of_maps event) played scheduler.old scheduler.new) }
    ensures back { IfOk result (λ played. GivesDue K.eq (S.hash scheduler.old.logged.executor.hasher) (event_of_maps event) played scheduler.old back.old.items back.new.items) }
    ensures count { IfOk result (λ played. length scheduler.new.logged.executor.maps.items ≡ numbers_on (event_of_maps {K = K} {V = V} event) played.outcome (length scheduler.old.logged.executor.maps.items)) }
    ensures rows { IfOk result (λ played. PreservesRun K.eq (S.hash scheduler.old.logged.executor.hasher) (event_of_maps event) played scheduler.old scheduler.new) }
    ensures setups { IfOk result (λ played. PreservesSetup K.eq (S.hash scheduler.old.logged.executor.hasher) (event_of_maps event) played scheduler.old scheduler.new) }
    ensures all { IfOk result (λ played. PreservesAll K.eq (S.hash scheduler.old.logged.executor.hasher) (event_of_maps event) played scheduler.old scheduler.new) }
    ensures acts { IfOk result (λ played. ContinuesInTurn K.eq S.hash (event_of_maps event) played scheduler.old scheduler.new) }
    ensures given { StaysGiven scheduler.old.logged.executor scheduler.new.logged.executor }
{
    match event {
        MapEvent::MakeMap(map, mode, capacity) => make_map(scheduler, map, mode, capacity),
        MapEvent::EndMap(map) => end_map(scheduler, &map, back),
        MapEvent::ShowShape(map) => scheduler.show_shape(&map),
        MapEvent::ReclaimAll => reclaim_all(scheduler, back),
        MapEvent::Close => close(scheduler, back),
    }
}

/// Lets an event of the setup happen that is in turn, or one of registrations or guards.
fn of_slots<K: Eq + Hash + Drop, V: Drop, S: Hashes<K>>(
    scheduler: &mut Scheduler<K, V, S>,
    is_first: bool,
    event: SlotEvent,
    back: &mut Vec<Pair<K, V>>,
) -> Result<Played<V>, AllocError>
    requires { MayHappenDue K.eq (S.hash scheduler.old.logged.executor.hasher) (event_of_slots event) scheduler.old }
    ensures happens { IfOk result (λ played. HappensDue K.eq (S.hash scheduler.old.logged.executor.hasher) is_first (event_of_slots event) played scheduler.old scheduler.new) }
    ensures back { IfOk result (λ played. GivesDue K.eq (S.hash scheduler.old.logged.executor.hasher) (event_of_slots event) played scheduler.old back.old.items back.new.items) }
    ensures rows { IfOk result (λ played. PreservesRun K.eq (S.hash scheduler.old.logged.executor.hasher) (event_of_slots event) played scheduler.old scheduler.new) }
    ensures setups { IfOk result (λ played. PreservesSetup K.eq (S.hash scheduler.old.logged.executor.hasher) (event_of_slots event) played scheduler.old scheduler.new) }
    ensures acts { IfOk result (λ played. ContinuesInTurn K.eq S.hash (event_of_slots event) played scheduler.old scheduler.new) }
    ensures given { PreservesSettings scheduler.old.logged.executor scheduler.new.logged.executor }
{
    match event {
        SlotEvent::Collector(setup) => Ok(scheduler.collector(setup, is_first)),
        SlotEvent::Hash(by) => Ok(scheduler.hash(by)),
        SlotEvent::Choose(choice) => scheduler.choose(choice),
        SlotEvent::Register(registration) => scheduler.register(registration, back),
        SlotEvent::Unregister(registration) => scheduler.unregister(&registration, back),
        SlotEvent::Enter(guard, registration) => scheduler.enter(guard, &registration, back),
        SlotEvent::Own(guard) => scheduler.own(guard, back),
        SlotEvent::Refresh(guard) => scheduler.refresh(&guard, back),
        SlotEvent::Flush(guard) => scheduler.flush(&guard, back),
        SlotEvent::DropGuard(guard) => scheduler.drop_guard(&guard, back),
        SlotEvent::Forget(guard) => Ok(scheduler.forget(&guard)),
    }
}

/// Lets an event of a call happen that is in turn.
fn of_calls<K: Eq + Hash + Drop, V: Drop, S: Hashes<K>>(
    scheduler: &mut Scheduler<K, V, S>,
    is_first: bool,
    event: CallEvent<K, V>,
) -> Result<Played<V>, AllocError>
    requires { MayHappenDue K.eq (S.hash scheduler.old.logged.executor.hasher) (event_of_call event) scheduler.old }
    ensures happens { IfOk result (λ played. HappensDue K.eq (S.hash scheduler.old.logged.executor.hasher) is_first (event_of_call event) played scheduler.old scheduler.new) }
    ensures keeps { IfOk result (λ played. PreservesInTurn K.eq (S.hash scheduler.old.logged.executor.hasher) (event_of_call event) played scheduler.old scheduler.new) }
    ensures acts { IfOk result (λ played. ContinuesInTurn K.eq S.hash (event_of_call event) played scheduler.old scheduler.new) }
    ensures given { PreservesSettings scheduler.old.logged.executor scheduler.new.logged.executor }
{
    match event {
        CallEvent::Begin(caller, guard, map, call) => scheduler.begin(caller, guard, &map, call),
        CallEvent::Step(caller, refuse) => step(scheduler, &caller, refuse),
        CallEvent::Go(caller, refuse) => go(scheduler, &caller, refuse),
        CallEvent::Replied(caller, reply) => Ok(scheduler.replied(&caller, reply)),
        CallEvent::OneCall(guard, map, call) => one_call(scheduler, guard, &map, call),
        CallEvent::Next(caller) => next(scheduler, &caller),
        CallEvent::Stop(caller) => Ok(scheduler.stop(&caller)),
    }
}

/// Lets an event happen. Whether it is the first one of the schedule, the caller says. On an error nothing is said of the state after it: lists or notes of the run found no
/// memory.
pub fn happen<K: Eq + Hash + Drop, V: Drop, S: Hashes<K>>(
    scheduler: &mut Scheduler<K, V, S>,
    is_first: bool,
    event: Event<K, V>,
    back: &mut Vec<Pair<K, V>>,
) -> Result<Played<V>, AllocError>
    requires { MayHappen K.eq (S.hash scheduler.old.logged.executor.hasher) scheduler.old }
    ensures happens { IfOk result (λ played. HappensAt K.eq (S.hash scheduler.old.logged.executor.hasher) is_first event played scheduler.old scheduler.new) }
    ensures holds { IfOk result (λ played. HoldsThen K.eq (S.hash scheduler.old.logged.executor.hasher) is_first event played scheduler.old scheduler.new) }
    ensures back { IfOk result (λ played. GivesAt K.eq (S.hash scheduler.old.logged.executor.hasher) event played scheduler.old back.old.items back.new.items) }
    ensures rows { IfOk result (λ played. PreservesRunAt K.eq (S.hash scheduler.old.logged.executor.hasher) event played scheduler.old scheduler.new) }
    ensures setups { IfOk result (λ played. PreservesSetup K.eq (S.hash scheduler.old.logged.executor.hasher) event played scheduler.old scheduler.new) }
    ensures all { IfOk result (λ played. PreservesAll K.eq (S.hash scheduler.old.logged.executor.hasher) event played scheduler.old scheduler.new) }
    ensures keeps { IfOk result (λ played. PreservesAt K.eq (S.hash scheduler.old.logged.executor.hasher) event played scheduler.old scheduler.new) }
    ensures acts { IfOk result (λ played. ContinuesAt K.eq S.hash event played scheduler.old scheduler.new) }
    ensures given { StaysGiven scheduler.old.logged.executor scheduler.new.logged.executor }
{
    if scheduler.is_closed {
        return Ok(scheduler.refuse(event));
    }
    match kind_of(event) {
        Kind::OfCall(event) => of_calls(scheduler, is_first, event),
        Kind::OfMaps(event) => of_maps(scheduler, is_first, event, back),
        Kind::OfSlots(event) => of_slots(scheduler, is_first, event, back),
    }
}

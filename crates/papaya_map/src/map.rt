//! A hash map that threads share, as one has it who owns it.
ghost use Rattle.std.specs.Prelude.{◌≡◌, ◌^◌, [], Some, None, true, IfOk, nat_lt};
ghost use Rattle.papaya_sessions.specs.Given.SeizeCallersKept.{is_home};
ghost use Rattle.papaya_sessions.specs.Given.SeizeViewsDeclared.view.SlotView.TheVariants.{Rests};
ghost use Rattle.papaya_sessions.specs.Given.ViewsDeclared.view.SeatWork.TheVariants.{Nothing as NoWork};
ghost use Rattle.papaya_sessions.specs.Given.CallersStanding.{known_by};

use crate::shared::SharedMap;
use map_tables::{Hashes, Node, Setting};
use papaya_sessions::{OfMaps, Registration, Session, Sleepers};
use seize::Collector;
use seize_blocks::{Home, Seat};
use seize_words::Fault;
use std::hash::{Hash, RandomState};

/// A hash map that threads share. It owns its memory, its collector and its hasher, and comes to its next table as was chosen: bit by bit, or at once.
///
/// Who owns it begins a session, and gives each thread one: `session`, and `Session::another`. Once the sessions have ended, the map has what they have left there, and
/// others may begin. With the map its pairs are dropped.
#[derive(Drop)]
pub struct HashMap<K: Eq + Hash + Drop, V: Drop, S: Hashes<K> = RandomState> {
    pub(crate) collector: Collector,
    pub(crate) home: Home<Node<K, V>, OfMaps<S>>,
    /// Those of its sessions that sleep until another one has taken a step.
    pub(crate) sleepers: Sleepers,
    pub(crate) hasher: S,
    pub(crate) setting: Setting,
    /// It knows the map, and holds no slot. It hands the map on to each session that begins.
    pub(crate) seat: Seat<Node<K, V>, OfMaps<S>>,
    pub(crate) ghost own: { seat.base ≡ home.blocks.words.id.views_name },
    pub(crate) ghost stays: { is_home seat.away ≡ true },
    pub(crate) ghost rests: { seat.view.slot ≡ Rests },
    pub(crate) ghost free: { seat.view.work ≡ NoWork },
    pub(crate) ghost lone: { seat.view.under ≡ None },
    pub(crate) ghost good: { seat.view.by ≡ None },
    pub(crate) ghost knows: { known_by seat.view ≡ Some (setting, hasher) },
    pub(crate) ghost sized: { home.blocks.words.fixed.batch_size ≡ setting.batch_size },
    pub(crate) ghost only: { (home.blocks.words.fixed.roots ≡ 1) × (home.blocks.words.fixed.chains ≡ 0) },
    pub(crate) ghost small: { nat_lt home.blocks.words.fixed.batch_size (2 ^ 64) ≡ true },
}

impl<K: Eq + Hash + Drop, V: Drop, S: Hashes<K>> HashMap<K, V, S> {
    /// Lends the same map to threads: they may begin sessions of their own.
    pub fn shared(&self) -> SharedMap<'_, K, V, S>
        ensures memory { result.blocks.now ≡ self.now.home.blocks }
        ensures map { result.seat.now.view.map ≡ self.now.seat.view.map }
        ensures number { result.number ≡ self.now.collector.number }
    {
        SharedMap {
            blocks: &self.home.blocks,
            sleepers: &self.sleepers,
            hasher: &self.hasher,
            setting: self.setting,
            seat: &self.seat,
            number: self.collector.number(),
        }
    }

    /// Takes a slot of the map, and opens no section of it yet: a thread that comes and goes may keep it. The faults are `Fault::SlotsUsedUp` and `Fault::Memory`.
    pub fn register(&self) -> Result<Registration<'_, K, V, S>, Fault>
        ensures memory { IfOk result (λ other. other.base.caller.blocks.now ≡ self.now.home.blocks) }
        ensures map { IfOk result (λ other. other.base.caller.seat.view.map ≡ self.now.seat.view.map) }
        ensures none { IfOk result (λ other. other.base.caller.seat.view.calls ≡ []) }
        ensures number { IfOk result (λ other. other.number ≡ self.now.collector.number) }
    {
        self.shared().register()
    }

    /// Begins a session on the map, which may be sent to a thread, and from which others are made. The faults are `Fault::SlotsUsedUp` and `Fault::Memory`.
    pub fn session(&self) -> Result<Session<'_, K, V, S>, Fault>
        ensures memory { IfOk result (λ session. session.base.caller.blocks.now ≡ self.now.home.blocks) }
        ensures map { IfOk result (λ session. session.base.caller.seat.view.map ≡ self.now.seat.view.map) }
        ensures none { IfOk result (λ session. session.base.caller.seat.view.calls ≡ []) }
        ensures number { IfOk result (λ session. session.number ≡ self.now.collector.number) }
    {
        self.shared().session()
    }
}

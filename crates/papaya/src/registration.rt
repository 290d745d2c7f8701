//! A set, as one of those has it who share it: with a slot of its own, and no section.
ghost use Rattle.std.specs.Prelude.{◌≡◌};
ghost use Rattle.papaya_map.specs.Given.SessionsSessions.{HasMadeNone};

use crate::session::SetSession;
use map_tables::Hashes;
use papaya_map::Registration;
use std::hash::{Hash, RandomState};

/// A set, as one of those has it who share it, between sections: a registration of the map whose keys are its elements.
#[derive(Drop)]
pub struct SetRegistration<'m, K: Eq + Hash + Drop, S: Hashes<K> = RandomState> {
    registration: Registration<'m, K, (), S>,
}

impl<'m, K: Eq + Hash + Drop, S: Hashes<K>> SetRegistration<'m, K, S> {
    /// The one of this registration of its map.
    pub(crate) fn of(registration: Registration<'m, K, (), S>) -> Self
        ensures caller { result.registration.base.caller ≡ registration.entry.base.caller }
        ensures number { result.registration.number ≡ registration.entry.number }
    {
        SetRegistration { registration }
    }

    /// Opens a section of its slot: it is a session from then on.
    pub fn enter(self) -> SetSession<'m, K, S>
        ensures same { HasMadeNone self.entry.registration.base.caller result.session.base.caller }
        ensures number { result.session.number ≡ self.entry.registration.number }
    {
        let SetRegistration { registration } = self;
        SetSession::of(registration.enter())
    }
}

impl<'m, K: Eq + Hash + Drop, S: Hashes<K>> SetSession<'m, K, S> {
    /// Ends its section, and keeps its slot.
    pub fn leave(self) -> SetRegistration<'m, K, S>
        ensures same { HasMadeNone self.entry.session.base.caller result.registration.base.caller }
        ensures number { result.registration.number ≡ self.entry.session.number }
    {
        let SetSession { session } = self;
        SetRegistration::of(session.leave())
    }
}

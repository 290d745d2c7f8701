//! Maps by name.

use run_names::crowd::HasName;
use run_schedules::token::Token;

/// A map that is there.
#[derive(Drop)]
pub struct NamedMap {
    /// Its name.
    pub name: Token,
    /// Its number.
    pub number: u64,
}

impl HasName for NamedMap {
    ghost name_of = { λ map. map.name };

    fn name(&self) -> &Token {
        &self.name
    }
}

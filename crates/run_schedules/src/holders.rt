//! Who holds a slot of the collector.
use crate::token::Token;

/// A registration.
#[derive(Drop)]
pub struct NamedRegistration {
    pub name: Token,
    pub slot: u64,
}

/// A guard of a registration. One that was forgotten stays until everything is reclaimed.
#[derive(Drop)]
pub struct NamedGuard {
    pub name: Token,
    pub slot: u64,
    pub forgotten: bool,
}

//! How far a machine is.

use map_tables::named::Fault;

/// How far a machine is that may reclaim blocks before it answers.
#[derive(Drop)]
pub enum Yielding<T, A> {
    /// Further steps are needed.
    Goes,
    /// Nothing changed: another call is to go on first. The same step is taken again.
    Waits,
    /// Further steps are needed, and this value was reclaimed.
    Gave(T),
    /// It has ended, with this answer.
    Done(A),
    /// It has ended without one.
    Refused(Fault),
}

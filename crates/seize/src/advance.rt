//! How far a machine is.
use seize_words::Fault;

/// How far a machine is.
#[derive(Clone, Copy, Debug, PartialEq, Eq)]
pub enum Advance<A> {
    /// Further steps are needed.
    Goes,
    /// Nothing changed: another row holds what it needs. The same step is taken again.
    Waits,
    /// It has ended, with this answer.
    Done(A),
    /// It has ended without one.
    Refused(Fault),
}

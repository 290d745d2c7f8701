//! What an event comes to.
use crate::call::Response;
use crate::shapes::TableShape;
use seize_words::Fault;

/// What an event came to.
#[derive(Drop)]
pub enum Outcome<V> {
    /// It was done.
    Done,
    /// A registration or an owned guard got this slot.
    Slot(u64),
    /// The call goes on: it began, got a reply, made one step, or as many as it may at once.
    Goes,
    /// The call asks about this pair, or about none.
    Asks(Option<u64>),
    /// The call waits for another caller.
    Waits,
    /// The walk is ready to show pairs.
    Ready,
    /// The walk shows this pair.
    Shows(u64),
    /// The call was answered.
    Answered(Response<V>),
    /// The tables of a map, from its root on.
    Shape(Vec<TableShape>),
    /// It was refused.
    Refused(Fault),
}

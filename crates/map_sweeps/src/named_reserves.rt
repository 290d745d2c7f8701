//! What those above name of the crates below.
pub use map_machines::named::{
    At, Fault, Hashes, Link, Memory, Node, Setting, Settled, StepMachine, Table, marks, table_words,
};
pub use map_machines::{
    Copier, Copying, Dispose, Disposing, Looking, Lookup, Making, NewMap, NewTable, Opening, Sum,
    Summing, Yielding, asks_for, count,
};

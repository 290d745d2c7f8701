//! What those above name of the crates below.
pub use crate::named_reserves::{
    Copier, Copying, Dispose, Disposing, Looking, Lookup, Making, NewMap, NewTable, Opening, Sum,
    Summing, Yielding, asks_for, count,
};
pub use crate::{Reserve, Reserving};

//! What calls of a map do, as machines of single operations.

mod answer;
mod asking;
mod call;
mod end_map;
mod machine;
mod progress;

pub use answer::{Called, End, KeyAnswer, Missing, There};
pub use asking::{Asking, Gap, MachineReply, Replies, Takes, Told};
pub use call::{Calling, KeyCall, is_same_key, link_to};
pub use end_map::{EndMap, Ending};
pub use machine::Machine;
pub use map_sweeps::named::{Aim, Finding, Trial, may_be, seen};
pub use map_sweeps::named_sweeps::{
    Copier, Copying, Dispose, Disposing, Looking, Lookup, Making, NewMap, NewTable, Opening,
    Reserve, Reserving, Sum, Summing,
};
pub use map_sweeps::{Purpose, Sweep, Sweeping, Swept};
pub use progress::{Answer, Progress};

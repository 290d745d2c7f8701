//! Programs to learn from, one after the other: threads share a cache, route requests while routes move, keep the logins of a service, and apply events to one run. Each says what
//! it came to, and those over a map whether its threads have met one another's work.
#![tactic(auto)]

mod crew;
mod live_router;
mod shared_cache;
mod shared_sessions;

use std::hash::{BuildHasherDefault, DefaultHasher};
use std::io;

type Hashing = BuildHasherDefault<DefaultHasher>;

/// How often a thread looks for what another one does, a millisecond apart.
const LOOKS: u64 = 20_000;

fn main(rt: HostRuntime) -> io::Result<()> {
    shared_cache::run(&rt, rt.alloc())?;
    live_router::run(&rt, rt.alloc())?;
    shared_sessions::run(&rt, rt.alloc())?;
    crew::run(&rt, rt.alloc())
}

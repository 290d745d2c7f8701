//! Two readers route requests under one guard, each by a pin, while a third thread leads all routes to one server after another: no request is led back. The routes are read of
//! JSON, and written as it in the end.
use crate::{Hashing, LOOKS};
use papaya_json::{Fault, FromJson, HashMap, IdSource, Session, SharedMap, ToJson};
use serde_json::Value;
use std::alloc::Global;
use std::io;
use std::sync::Wait;
use std::thread::{self, Threads};
use std::time::{Clock, Duration};

/// The routes as the program begins: each leads to a server.
const FIRST: &str = r#"{"0":0,"1":0,"2":0,"3":0,"4":0,"5":0,"6":0,"7":0}"#;

/// How many routes there are.
const ROUTES: u64 = 8;

/// The last server.
const LAST: u64 = 200;

/// The routes, as threads share them.
type Routes<'m> = SharedMap<'m, u64, u64, Hashing>;

/// Leads all routes to one server after another.
fn moves<R: Wait>(rt: &R, routes: &Routes<'_>) -> Result<(), Fault> {
    let mut session = routes.session()?;
    for server in 1..=LAST {
        for route in 0..ROUTES {
            session.insert(rt, route, server)?;
        }
        session.refresh();
    }
    Ok(())
}

/// Asks where a route leads, until that is the last server: whether it was never led back, and whether it came to lead there.
fn reads<R: Wait + Clock>(
    rt: &R,
    guard: &Session<'_, u64, u64, Hashing>,
    route: u64,
) -> (bool, bool) {
    let mut pin = guard.pin();
    let (mut last, mut never_back) = (0u64, true);
    for _ in 0..LOOKS {
        let server = pin.get(rt, &route).copied().unwrap_or(0);
        never_back = never_back && last <= server;
        last = server;
        if server == LAST {
            break;
        }
        thread::sleep(rt, Duration::from_millis(1));
    }
    (never_back, last == LAST)
}

/// Two readers and one who moves the routes: whether no request was led back, and whether both readers have met the last server.
fn serve<R: Threads + Wait + Clock + Sync>(
    rt: &R,
    routes: &Routes<'_>,
) -> Result<(bool, bool), Fault> {
    let guard = routes.session()?;
    let (moved, (one, other)) = thread::join(
        rt,
        || moves(rt, routes),
        || { thread::join(rt, || reads(rt, &guard, 0), || reads(rt, &guard, 7)) },
    );
    moved?;
    Ok((one.0 && other.0, one.1 && other.1))
}

/// Routes are moved while they are read, and it is told what came of it.
pub(crate) fn run<R: Threads + Wait + Clock + Sync + Print>(
    rt: &R,
    alloc: Global,
) -> io::Result<()> {
    let mut ids = IdSource::new();
    let first = Value::from_str(alloc, FIRST).map_err(|_| io::Error::other("this is no JSON"))?;
    let map = HashMap::from_value(rt, alloc, &mut ids, Hashing::default(), &first).map_err(
        |_| io::Error::other("these are no routes"),
    )?;
    let (never_back, met) = serve(rt, &map.shared())?;
    println!(rt; "no request was led back: {never_back}")?;
    println!(rt; "each reader has met the last server: {met}")?;
    println!(rt; "{}", map.session()?.to_value(rt, alloc)?.to_string(alloc)?)
}

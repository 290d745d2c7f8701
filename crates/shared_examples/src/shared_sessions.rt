//! Two doors of a service open logins, and end some of them again, in one table of all, while a third thread ends those that have lasted long enough.
use crate::{Hashing, LOOKS};
use papaya_json::{Fault, HashMap, IdSource, Session};
use std::alloc::Global;
use std::io;
use std::sync::Wait;
use std::thread::{self, Threads};
use std::time::{Clock, Duration};

/// How many logins each door opens. It ends every third of them.
const LOGINS: u64 = 300;

/// The moment past which logins last in the end. The n-th login of a door lasts until moment n.
const NOW: u64 = 200;

/// Through which door somebody came, and until when that lasts.
#[derive(Clone, Copy, Drop)]
struct Login {
    door: u64,
    until: u64,
}

/// The logins by their tokens, as one thread has them.
type Logins<'m> = Session<'m, u64, Login, Hashing>;

/// Opens logins at one door of two, and ends every third at once.
fn opens<R: Wait>(rt: &R, logins: Logins<'_>, door: u64) -> Result<(), Fault> {
    let mut logins = logins;
    for until in 0..LOGINS {
        let token = until.wrapping_mul(2).wrapping_add(door);
        logins.insert(rt, token, Login { door, until })?;
        if until % 3 == 0 {
            logins.remove(rt, &token)?;
        }
        logins.refresh();
    }
    Ok(())
}

/// Ends what lasts no longer than until this moment.
fn expires<R: Wait>(rt: &R, logins: &mut Logins<'_>, now: u64) -> Result<(), Fault> {
    logins.retain(rt, |_, login| login.until >= now)
}

/// Ends what has lasted long enough, moment after moment, until each door has opened its last login: whether it has met these.
fn cleans<R: Wait + Clock>(rt: &R, logins: Logins<'_>) -> Result<bool, Fault> {
    let mut logins = logins;
    let last = LOGINS.wrapping_mul(2);
    for look in 0..LOOKS {
        expires(rt, &mut logins, u64::min(look, NOW))?;
        let one = logins
            .get(rt, &last.wrapping_sub(2))
            .is_some_and(|login| login.door == 0);
        let other = logins
            .get(rt, &last.wrapping_sub(1))
            .is_some_and(|login| login.door == 1);
        if one && other {
            return Ok(true);
        }
        logins.refresh();
        thread::sleep(rt, Duration::from_millis(1));
    }
    Ok(false)
}

/// Three threads keep the logins, and it is told how many last, and whether the third has met what the others opened.
pub(crate) fn run<R: Threads + Wait + Clock + Sync + Print>(
    rt: &R,
    alloc: Global,
) -> io::Result<()> {
    let mut ids = IdSource::new();
    let map = HashMap::with_hasher(alloc, &mut ids, Hashing::default())?;
    let mut own = map.session()?;
    let (one, other, third) = (own.another()?, own.another()?, own.another()?);
    let (met, (opened, also)) = thread::join(
        rt,
        || cleans(rt, third),
        || { thread::join(rt, || opens(rt, one, 0), || opens(rt, other, 1)) },
    );
    let (met, _, _) = (met?, opened?, also?);
    expires(rt, &mut own, NOW)?;
    println!(rt; "{} logins last", own.len())?;
    println!(rt; "both doors were met: {met}")
}

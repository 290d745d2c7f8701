//! A struct of one's own that holds a registration, and a helper that takes a guard of any content.
ghost use Rattle.std.specs.Prelude.{◌≡◌, true};

use crate::{Counted, DropCounts, Told, all_are, dropped, opened, table};
use seize::rows::Defers;
use seize_collector::{Content, Guard, OfRows, Registration, RootGuard, Shared};
use std::alloc::Global;
use std::sync::Arc;

/// Who puts values, by a registration of its own.
#[derive(Drop)]
struct Writer<'a>
where
    OfRows: Content<Counted>,
{
    registration: Registration<'a, Counted>,
    drops: DropCounts,
}

/// Begins the section of a guard anew, whatever else there is in its memory.
fn refreshes<T: Defers, C: Content<T>, G: Guard<T, Content = C>>(guard: &mut G)
    ensures inside { G.inside guard.new ≡ true }
    ensures slot { G.slot guard.new ≡ G.slot guard.old }
{
    guard.refresh();
}

impl<'a> Writer<'a> {
    /// Puts the value of a place, within a section that was begun anew, and tries the batch then.
    fn puts(&mut self, place: usize) -> bool {
        let Some(value) = Counted::of(&self.drops, place) else {
            return false;
        };
        let registration = &mut self.registration;
        let mut guard = registration.enter();
        refreshes(&mut guard);
        let is_there = guard.put(0, value).is_ok();
        drop(guard);
        registration.flush();
        is_there
    }
}

/// Puts two values, one in the place of the other, and answers how often each was dropped by then.
fn two(collector: &Shared<'_, Counted>, drops: &DropCounts, own: DropCounts) -> Option<(u64, u64)> {
    let registration = collector.register().ok()?;
    let mut writer = Writer {
        registration,
        drops: own,
    };
    let put = writer.puts(0) && writer.puts(1);
    let times = (dropped(drops, 0), dropped(drops, 1));
    if put { Some(times) } else { None }
}

/// Tells whether a struct that holds a registration puts values, and drops what they replace.
pub(crate) fn hold(alloc: Global) -> Told {
    let drops = table(alloc, 2)?;
    let Ok(own) = Arc::try_clone(&drops) else {
        return Ok(false);
    };
    let collector = opened(alloc)?;
    let times = two(&collector.shared(), &drops, own);
    drop(collector);
    Ok(all_are(&drops, 2, 1) && times == Some((1, 0)))
}

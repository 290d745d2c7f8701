//! What a call on a key does by straight code where it stands between steps: it copies places of the chunk that it helps with, or tries a full batch.
ghost use Rattle.std.specs.Prelude.{◌≡◌};
ghost use Rattle.map_straight.specs.Straight.Going.{CallLeads, DisposeLeads, MayCall, MayDispose};
ghost use Rattle.threads_errands.specs.Tries.{tries_batch};

use map_machines::{Dispose, Disposing};
use map_straight::copy_places;
use map_tables::{Equivalent, Hashes, Node};
use papaya_raw::machines::{Calling, KeyCall};
use seize::StepMachine;
use seize::rows::Settling;
use seize_words::Memory;
use std::hash::Hash;

/// How many steps of a try are taken at once at most.
const MANY: u64 = 1_000;

/// Whether the next step of a disposal is one of the try of a batch.
#[inline(always)]
fn is_trying(dispose: &Dispose) -> bool
    ensures { result ≡ tries_batch dispose.now.stands }
{
    match &dispose.stands {
        Disposing::Settles(settle) => match &settle.stands {
            Settling::Scans { .. }
            | Settling::Marks { .. }
            | Settling::Marked { .. }
            | Settling::Closes { .. }
            | Settling::Reads { .. }
            | Settling::Links { .. }
            | Settling::Pushes { .. }
            | Settling::Pushed { .. }
            | Settling::Sums { .. }
            | Settling::Gives => true,
            _ => false,
        },
        _ => false,
    }
}

/// Takes the steps of a disposal that tries its slot's batch, one after another. Nobody waits for one of them.
#[inline(always)]
fn try_batch<K: Drop, V: Drop, M: Memory<Node<K, V>>>(dispose: &mut Dispose, memory: &mut M)
    requires { MayDispose M.took M.shown M.can dispose.old memory.old }
    ensures { DisposeLeads M.took M.shown dispose.old memory.old dispose.new memory.new }
{
    for _ in 0..MANY {
        if !is_trying(dispose) {
            return;
        }
        dispose.step(memory);
    }
}

/// Copies places of the chunk that a call helps with, or tries the batch that its disposal has filled, where it stands at one.
#[inline(always)]
pub(crate) fn help<
    K: Eq + Hash + Drop,
    V: Drop,
    Q: Equivalent<K>,
    S: Hashes<K>,
    M: Memory<Node<K, V>>,
>(call: &mut KeyCall<K, V, Q>, memory: &mut M, hasher: &S)
    requires { MayCall Q.Equivalent.equivalent K.eq (S.hash hasher.now) M.took M.shown M.can call.old memory.old }
    ensures { CallLeads Q.Equivalent.equivalent K.eq (S.hash hasher.now) M.took M.shown call.old memory.old call.new memory.new }
{
    match &mut call.stands {
        Calling::Helps { copier, .. } => copy_places::<K, V, S, M>(copier, memory, hasher),
        Calling::Disposes { dispose, .. } => try_batch(dispose, memory),
        _ => {}
    }
}

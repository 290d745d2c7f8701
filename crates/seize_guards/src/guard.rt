//! What guards do at the roots of chains.
ghost use Rattle.std.specs.Prelude.{◌≡◌, true, false};
ghost use Rattle.seize_guards.specs.Taking.{IsTaken, IsLookedBelow};
ghost use Rattle.seize_views.specs.Views.Chains.{IsChainRoot};
ghost use Rattle.seize_views.specs.declared.view.Fixed.{Fixed};

use crate::walking::{copies_link, goes_down, met, sees_first, sees_link, stops, walks};
use seize::rows::Defers;
use seize_callers::named;
use seize_shared::{LocalGuard, OfRows, OwnedGuard, Receiver, RootGuard, Stay};

/// What came of taking the first block from a chain.
pub enum Unstacked<X> {
    /// The chain had none.
    Empty,
    /// Somebody else was faster.
    Missed,
    /// It was taken, and this was told of its value.
    Took(X),
}

/// A guard that takes blocks from chains.
pub trait ChainGuard<T: Defers>: RootGuard<T> {
    /// What was chosen for its memory, of which it is which roots chains stand at.
    ghost chosen: { Self → Fixed };

    /// Takes the first block from the chain at this root, if there is one, and retires it: what stood below it stands at the root then, and what `looks` tells
    /// of its value comes back. Where somebody else was faster it says so. What the guard has seen it doesn't know any more.
    fn unstack<X, F: FnOnce(&T) -> X>(&mut self, root: u64, looks: F) -> Unstacked<X>
        requires callable { F.IsAlwaysCallable looks }
        ensures home { Self.home self.new ≡ Self.home self.old }
        ensures chosen { chosen self.new ≡ chosen self.old }
        ensures slot { Self.slot self.new ≡ Self.slot self.old }
        ensures inside { Self.inside self.new ≡ true }
        ensures fresh { Self.seen self.new ≡ 0 }
        ensures taken { IsTaken (chosen self.old) root (Self.did self.new) result };

    /// Looks through the link of the first block of the chain at this root: what `looks` tells of the value that stands below it comes back, if one does,
    /// whoever has taken either of them out meanwhile. What the guard has seen it doesn't know any more.
    fn below<X, F: FnOnce(&T) -> X>(&mut self, root: u64, looks: F) -> Option<X>
        requires callable { F.IsAlwaysCallable looks }
        ensures home { Self.home self.new ≡ Self.home self.old }
        ensures chosen { chosen self.new ≡ chosen self.old }
        ensures slot { Self.slot self.new ≡ Self.slot self.old }
        ensures inside { Self.inside self.new ≡ true }
        ensures fresh { Self.seen self.new ≡ 0 }
        ensures looked { IsLookedBelow (chosen self.old) root (Self.did self.new) result };
}

/// Tells whether this is the root of a chain.
fn has_chain<T: Defers + Drop>(stay: &Stay<'_, T>, root: u64) -> bool
    ensures is { result ≡ true → IsChainRoot stay.now.caller.blocks.now.words.fixed root }
    ensures not { result ≡ false → IsChainRoot stay.now.caller.blocks.now.words.fixed root → ⊥ }
{
    root >= stay.roots && root - stay.roots < stay.chains
}

/// Does so for who has a slot.
fn unstacks<T: Defers + Drop, X, F: FnOnce(&T) -> X>(
    stay: &mut Stay<'_, T>,
    root: u64,
    looks: F,
) -> Unstacked<X>
    requires callable { F.IsAlwaysCallable looks }
    ensures home { stay.new.caller.blocks ≡ stay.old.caller.blocks }
    ensures slot { stay.new.slot ≡ stay.old.slot }
    ensures guards { stay.new.guards ≡ stay.old.guards }
    ensures inside { stay.new.inside ≡ true }
    ensures fresh { stay.new.seen ≡ 0 }
    ensures taken { IsTaken stay.old.caller.blocks.now.words.fixed root stay.new.caller.seat.view.did result }
{
    stay.opens();
    if !has_chain(stay, root) {
        return Unstacked::Empty;
    }
    let slot = stay.slot;
    let caller = &mut stay.caller;
    let blocks = caller.blocks();
    walks(blocks, &mut caller.seat, slot);
    let first = sees_first(blocks, &mut caller.seat, slot, root);
    let Some(block) = named(first) else {
        stops(blocks, &mut caller.seat, slot);
        return Unstacked::Empty;
    };
    let link = sees_link(blocks, &mut caller.seat, slot, block);
    match copies_link(blocks, &mut caller.seat, slot, root, first, link) {
        Ok(()) => {
            let told = looks(caller.unlinked(slot, block));
            caller.retire(slot, block);
            Unstacked::Took(told)
        }
        Err(_) => {
            stops(blocks, &mut caller.seat, slot);
            Unstacked::Missed
        }
    }
}

/// Looks through the link of the first block for who has a slot.
fn looks_below<T: Defers + Drop, X, F: FnOnce(&T) -> X>(
    stay: &mut Stay<'_, T>,
    root: u64,
    looks: F,
) -> Option<X>
    requires callable { F.IsAlwaysCallable looks }
    ensures home { stay.new.caller.blocks ≡ stay.old.caller.blocks }
    ensures slot { stay.new.slot ≡ stay.old.slot }
    ensures guards { stay.new.guards ≡ stay.old.guards }
    ensures inside { stay.new.inside ≡ true }
    ensures fresh { stay.new.seen ≡ 0 }
    ensures looked { IsLookedBelow stay.old.caller.blocks.now.words.fixed root stay.new.caller.seat.view.did result }
{
    stay.opens();
    if !has_chain(stay, root) {
        return None;
    }
    let slot = stay.slot;
    let caller = &mut stay.caller;
    let blocks = caller.blocks();
    walks(blocks, &mut caller.seat, slot);
    let first = sees_first(blocks, &mut caller.seat, slot, root);
    let Some(block) = named(first) else {
        stops(blocks, &mut caller.seat, slot);
        return None;
    };
    let link = sees_link(blocks, &mut caller.seat, slot, block);
    let Some(next) = named(link) else {
        stops(blocks, &mut caller.seat, slot);
        return None;
    };
    goes_down(blocks, &mut caller.seat, slot, block, next);
    let told = looks(met(blocks, &caller.seat, slot, next));
    stops(blocks, &mut caller.seat, slot);
    Some(told)
}

impl<'r, 'a, T: Defers + Drop, R: Receiver<T>> ChainGuard<T> for LocalGuard<'r, 'a, T, OfRows, R> {
    ghost chosen = { λ g. g.registration.now.stay.caller.blocks.now.words.fixed };

    fn unstack<X, F: FnOnce(&T) -> X>(&mut self, root: u64, looks: F) -> Unstacked<X> {
        let registration = &mut *self.registration;
        unstacks(&mut registration.stay, root, looks)
    }

    fn below<X, F: FnOnce(&T) -> X>(&mut self, root: u64, looks: F) -> Option<X> {
        let registration = &mut *self.registration;
        looks_below(&mut registration.stay, root, looks)
    }
}

impl<'a, T: Defers + Drop, R: Receiver<T>> ChainGuard<T> for OwnedGuard<'a, T, OfRows, R> {
    ghost chosen = { λ g. g.stay.caller.blocks.now.words.fixed };

    fn unstack<X, F: FnOnce(&T) -> X>(&mut self, root: u64, looks: F) -> Unstacked<X> {
        unstacks(&mut self.stay, root, looks)
    }

    fn below<X, F: FnOnce(&T) -> X>(&mut self, root: u64, looks: F) -> Option<X> {
        looks_below(&mut self.stay, root, looks)
    }
}

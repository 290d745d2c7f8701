//! What is pushed on a stack, and popped from it, under a guard.
ghost use Rattle.std.specs.Prelude.{◌≡◌, ◌≢◌, ◌∷◌, [], true, IfOk};
ghost use Rattle.std.specs.Arc.{arc_value};
ghost use Rattle.shared_stack.specs.Stacks.{Found, Replaces, IfValue, IfEmpty};

use crate::pile::Pile;
use seize_shared::RootGuard;
use std::alloc::{AllocError, Global};
use std::sync::Arc;

/// What a pop comes to.
#[derive(Drop)]
pub enum Popped<V> {
    /// This value, which stood on top.
    Value(Arc<V>),
    /// There was none.
    Empty,
    /// Another one was faster, or memory was refused: what stood there is as it was, or as that one has left it.
    Missed,
}

/// Pushes a value on the stack at a root, and tells whether it did. It did not where another one was faster, there is no such root, or memory was refused.
pub fn push<V: Drop, G: RootGuard<Pile<V>>>(
    guard: &mut G,
    root: u64,
    alloc: Global,
    value: &Arc<V>,
) -> Result<bool, AllocError>
    ensures home { G.home guard.new ≡ G.home guard.old }
    ensures slot { G.slot guard.new ≡ G.slot guard.old }
    ensures inside { G.inside guard.new ≡ G.inside guard.old }
    ensures pushed { IfOk result (λ done. done ≡ true
        → Replaces G.seen G.did G.lends guard.new root (λ old new. new ≡ arc_value value.now ∷ old)) }
{
    guard.see(root);
    let pile = Pile::over(alloc, value, guard.value())?;
    Ok(guard.exchange(root, pile).is_ok())
}

/// Pops the value on top of the stack at a root.
pub fn pop<V: Drop, G: RootGuard<Pile<V>>>(
    guard: &mut G,
    root: u64,
) -> Result<Popped<V>, AllocError>
    ensures home { G.home guard.new ≡ G.home guard.old }
    ensures slot { G.slot guard.new ≡ G.slot guard.old }
    ensures inside { G.inside guard.new ≡ G.inside guard.old }
    ensures popped { IfOk result (λ popped. IfValue popped (λ value.
        Replaces G.seen G.did G.lends guard.new root (λ old new. old ≡ arc_value value ∷ new))) }
    ensures empty { IfOk result (λ popped. IfEmpty popped (Found G.seen G.did G.lends guard.new root [])) }
{
    guard.see(root);
    let Some(pile) = guard.value() else {
        return Ok(Popped::Empty);
    };
    let Some((value, rest)) = pile.parted()? else {
        return Ok(Popped::Empty);
    };
    if guard.exchange(root, rest).is_ok() {
        Ok(Popped::Value(value))
    } else {
        Ok(Popped::Missed)
    }
}

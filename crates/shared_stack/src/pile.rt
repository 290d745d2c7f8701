//! Values that stand one above the other, as they do at a moment.
ghost use Rattle.std.specs.Prelude.{◌≡◌, ◌∷◌, [], None, IfOk, IfSome, IfNone};
ghost use Rattle.std.specs.Arc.{arc_value};
ghost use Rattle.shared_stack.specs.Piles.{values, values_at};

use seize::rows::Defers;
use std::alloc::{AllocError, Global};
use std::sync::Arc;

/// A value, and what stands below it.
struct Layer<V> {
    value: Arc<V>,
    below: Option<Arc<Layer<V>>>,
}

/// Layers that nobody else has go one after another, however many they are.
impl<V: Drop> Drop for Layer<V> {
    fn drop(mut self) {
        loop {
            let Layer { value, below } = self;
            drop(value);
            let Some(below) = below else {
                return;
            };
            match Arc::into_inner(below) {
                Some(layer) => self = layer,
                None => return,
            }
        }
    }
}

/// Values that stand one above the other. Two piles share what they have in common.
#[derive(Drop)]
pub struct Pile<V> {
    top: Option<Arc<Layer<V>>>,
}

impl<V> Defers for Pile<V> {
    ghost defers = { λ _. None };

    fn deferred(&self) -> Option<u64> {
        None
    }
}

/// The same layer once more, if there is one.
fn again<V>(layer: &Option<Arc<Layer<V>>>) -> Result<Option<Arc<Layer<V>>>, AllocError>
    ensures { IfOk result (λ again. values_at again ≡ values_at layer.now) }
{
    match layer {
        Some(layer) => Ok(Some(Arc::try_clone(layer)?)),
        None => Ok(None),
    }
}

impl<V: Drop> Pile<V> {
    /// This value, on top of that pile, if there is one.
    pub fn over(alloc: Global, value: &Arc<V>, below: Option<&Pile<V>>) -> Result<Self, AllocError>
        ensures over { IfOk result (λ pile. IfSome below.entry (λ under. values pile ≡ arc_value value.now ∷ values under.now)) }
        ensures alone { IfOk result (λ pile. IfNone below.entry (values pile ≡ arc_value value.now ∷ [])) }
    {
        let below = match below {
            Some(pile) => again(&pile.top)?,
            None => None,
        };
        let value = Arc::try_clone(value)?;
        let top = Arc::new(alloc, Layer { value, below })?;
        Ok(Pile { top: Some(top) })
    }

    /// Returns the value on top, and what stands below it, if there is one.
    pub fn parted(&self) -> Result<Option<(Arc<V>, Pile<V>)>, AllocError>
        ensures some { IfOk result (λ parts. IfSome parts (λ p. values self.now ≡ arc_value p.0 ∷ values p.1)) }
        ensures none { IfOk result (λ parts. IfNone parts (values self.now ≡ [])) }
    {
        let Some(layer) = &self.top else {
            return Ok(None);
        };
        let value = Arc::try_clone(&layer.value)?;
        let top = again(&layer.below)?;
        Ok(Some((value, Pile { top })))
    }
}

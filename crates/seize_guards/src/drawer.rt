//! Drawers, cells that hold a value or nothing, where one number is known of whatever value that is.
ghost use Rattle.std.specs.Prelude.{◌≡◌, ℕ, IfSome};
ghost use base.Fml.{fex, fsep, ftrue};
ghost use Rattle.seize_guards.specs.Drawers.{lies_behind};

use std::marker::{Move, Owns};

/// A type each value of which has a number, its label.
pub(crate) trait Labelled {
    ghost label: { Self → ℕ };
}

/// A cell that holds a value of one label, or nothing. In clauses it is that label, whatever lies in it.
pub(crate) struct Drawer<T: Labelled> {
    value: Option<T>,
}

impl<T: Labelled> Owns for Drawer<T> {
    ghost Value = { ℕ };

    ghost shr_at = { λ n. lies_behind Fields (λ i. IfSome i.value (λ value. T.label value ≡ n)) };
}

impl<T: Labelled> Move for Drawer<T> {
    ghost own_val = { λ n vs. fex Inside (λ i. fsep (Fields.own_val i vs) (fex (IfSome i.value (λ value. T.label value ≡ n)) (λ _. ftrue))) };
}

unsafe impl<T: Labelled + Send> Send for Drawer<T> {}

impl<T: Labelled> Drawer<T> {
    /// Makes one that holds this value.
    pub(crate) fn new(value: T) -> Self
        ensures { result ≡ T.label value }
    {
        Drawer { value: Some(value) }
    }

    /// Puts a value of its label in, or none, and answers what was there.
    pub(crate) fn replace(&self, value: Option<T>) -> Option<T>
        requires { IfSome value (λ value. T.label value ≡ self.now) }
        ensures { IfSome result (λ was. T.label was ≡ self.now) }
    {
        let place = &raw const self.value as *mut Option<T>;
        unsafe {
            let was = place.read();
            place.write(value);
            was
        }
    }

    /// Returns what lies in it.
    pub(crate) fn into_inner(self) -> Option<T>
        ensures { IfSome result (λ value. T.label value ≡ self) }
    {
        let Drawer { value } = self;
        value
    }
}

//! What takes one thing after another.
ghost use Rattle.std.specs.Prelude.{OnOk};

use seize_words::Fault;

/// What one thing after another is put into.
pub trait Puts<X> {
    // This was put there: what it was before, and what it is then.
    ghost has_put: { Self → X → Self → Type 0 };

    /// Puts one there, or is refused.
    fn put(&mut self, x: X) -> Result<(), Fault>
        ensures { OnOk result (has_put self.old x self.new) };
}

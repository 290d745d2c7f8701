//! What a rule over a shared memory says, and what a seat of it may do without an operation.
ghost use Rattle.std.specs.Prelude.{ℕ};
ghost use Rattle.seize_words.specs.OneMemory.Op.{Op, Out};
ghost use Rattle.seize_seats.specs.Seats.State.{State};

/// What holds of a memory that seats share between any two steps, whoever takes them.
pub trait Rule<T> {
    /// What a seat knows. No value of it is made: it is plain data of the proofs.
    type View;

    /// What is chosen as the memory is opened, and stays.
    type Fixed;

    /// What the rule keeps beside the memory and the views.
    ghost World: { Type 0 };

    /// What holds between any two steps.
    ghost holds: { Self.Fixed → State T Self.View World → Type 0 };

    /// The view of one seat, as long as what another owns lasts, keeps the block of a number in this world.
    ghost keeps: { Self.View → Self.View → World → ℕ → Type 0 };

    /// What an operation tells its seat: its view before it, the operation, the answer, and its view after it.
    ghost then: { Self.View → Op T → Out T → Self.View → Type 0 };

    /// What a seat knows that has just come.
    ghost newcomer: { Self.Fixed → Self.View };

    /// A seat that knows this is in the midst of nothing: under `&mut` all seats do.
    ghost rests: { Self.View → Type 0 };

    /// One that has just come rests.
    ghost newcomers_rest: { (fixed : Self.Fixed) → rests (newcomer fixed) };

    /// An operation leaves one at rest that rests.
    ghost resting_stay: { (v : Self.View) (op : Op T) (out : Out T) (w : Self.View) → then v op out w → rests v → rests w };

    /// A seat that knows this relies on the seat of a number to stay as it is, which its errand is lent.
    ghost leans: { Self.View → ℕ → Type 0 };

    /// One at rest leans on nobody.
    ghost upright: { (v : Self.View) (n : ℕ) → rests v → leans v n → ⊥ };

    /// By an operation a seat comes to lean on nobody more.
    ghost leaning_stay: { (v : Self.View) (op : Op T) (out : Out T) (w : Self.View) → then v op out w → (n : ℕ) → leans w n → leans v n };
}

/// What a step without an operation makes of a view, by what was chosen as the memory was opened.
pub trait Turn<F, V> {
    ghost to: { F → V → V → Type 0 };
}

/// What a seat comes to know by another one: what was chosen, its view, the number and the view of the other one, and its view then.
pub trait Lesson<F, V> {
    ghost to: { F → V → ℕ → V → V → Type 0 };
}

/// What a meeting of two seats makes of both views: what was chosen, the one view and the other before it, and after it.
pub trait Meeting<F, V> {
    ghost to: { F → V → V → V → V → Type 0 };
}

/// What becomes of views as a memory goes under another rule with the same seats: by what is chosen then, of the view of the seat that is handed on, and of
/// each other one, which nobody has from then on.
pub trait Bequest<F, V, W> {
    ghost heir: { F → V → W };

    ghost left: { F → V → W };
}

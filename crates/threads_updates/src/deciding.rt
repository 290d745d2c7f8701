//! What is to be done with a key, by the pair that is there, or where there is none: any number of calls may ask.
ghost use Rattle.std.specs.Prelude.{Option, option_map};
ghost use Rattle.std.specs.Fn.{FnReturns, FnReturnsAt};
ghost use Rattle.seize_words.specs.declared.operation.Operation.{Operation as AnOperation};
ghost use Rattle.threads_updates.specs.Deciding.{MayDecide, NewOld, NewOldOr, NewOldOrStop};

use seize_words::Operation;

/// Says what is to be done with a key.
pub(crate) trait Decides<K, V> {
    /// With what it says that nothing is to change.
    type End: Drop;

    /// It may be asked, any number of times.
    ghost may: { Self → Type 0 };

    /// What it may say of a pair, or of none.
    ghost gives: { Self → Option (K × V) → AnOperation V Self.End → Type 0 };

    /// Says what is to be done with the key of this pair, or where there is none.
    fn decide<'p>(&self, pair: Option<(&'p K, &'p V)>) -> Operation<V, Self::End>
        requires { may self.now }
        ensures { gives self.now (option_map (λ x. (x.0.now, x.1.now)) pair.entry) result };
}

/// A value that is there gives way to one that is made of it.
#[derive(Drop)]
pub(crate) struct NewOfOld<'n, F> {
    pub(crate) make: &'n F,
}

impl<'n, K, V, F: Fn(&V) -> V> Decides<K, V> for NewOfOld<'n, F> {
    type End = ();

    ghost may = { λ d. F.IsAlwaysCallable d.make.now };

    ghost gives = { λ d. NewOld (FnReturnsAt F.Fn d.make.now) };

    fn decide<'p>(&self, pair: Option<(&'p K, &'p V)>) -> Operation<V, ()> {
        match pair {
            Some((_, value)) => Operation::Insert((self.make)(value)),
            None => Operation::Abort(()),
        }
    }
}

/// So it does, and where there is none, a clone of this value is stored.
#[derive(Drop)]
pub(crate) struct NewOrThis<'n, F, V> {
    pub(crate) make: &'n F,
    pub(crate) value: &'n V,
}

impl<'n, K, V: Clone, F: Fn(&V) -> V> Decides<K, V> for NewOrThis<'n, F, V> {
    type End = ();

    ghost may = { λ d. F.IsAlwaysCallable d.make.now };

    ghost gives = { λ d. NewOldOrStop (FnReturnsAt F.Fn d.make.now) (V.is_clone d.value.now) };

    fn decide<'p>(&self, pair: Option<(&'p K, &'p V)>) -> Operation<V, ()> {
        match pair {
            Some((_, value)) => Operation::Insert((self.make)(value)),
            None => match self.value.clone() {
                Ok(value) => Operation::Insert(value),
                Err(_) => Operation::Abort(()),
            },
        }
    }
}

/// So it does, and where there is none, a value is stored that is begun.
#[derive(Drop)]
pub(crate) struct NewOrBegun<'n, F, B> {
    pub(crate) make: &'n F,
    pub(crate) begin: &'n B,
}

impl<'n, K, V, F: Fn(&V) -> V, B: Fn() -> V> Decides<K, V> for NewOrBegun<'n, F, B> {
    type End = ();

    ghost may = { λ d. F.IsAlwaysCallable d.make.now × B.IsAlwaysCallable d.begin.now };

    ghost gives = { λ d. NewOldOr (FnReturnsAt F.Fn d.make.now) (FnReturns B.Fn d.begin.now tt) };

    fn decide<'p>(&self, pair: Option<(&'p K, &'p V)>) -> Operation<V, ()> {
        match pair {
            Some((_, value)) => Operation::Insert((self.make)(value)),
            None => Operation::Insert((self.begin)()),
        }
    }
}

/// What a closure says is done.
#[derive(Drop)]
pub(crate) struct AnyChange<'n, F> {
    pub(crate) decide: &'n F,
}

impl<'n, K, V, T: Drop, F: Fn(Option<(&K, &V)>) -> Operation<V, T>> Decides<K, V>
    for AnyChange<'n, F> {
    type End = T;

    ghost may = { λ d. F.IsAlwaysCallable d.decide.now };

    ghost gives = { λ d. MayDecide F.Fn d.decide.now };

    fn decide<'p>(&self, pair: Option<(&'p K, &'p V)>) -> Operation<V, T> {
        (self.decide)(pair)
    }
}

//! What becomes of seats as one comes to have a memory of maps to himself, and as it goes back.
use crate::sole::Sole;
use seize_blocks::Bequest;
use seize_views::Fixed;
use std::marker::PhantomData;
use threads_rule::View;

/// One comes to have it to himself.
pub(crate) struct Begins<K, V, S>(PhantomData<(K, V, S)>);

impl<K, V, S> Bequest<Fixed, View<K, V, S>, Sole<K, V, S>> for Begins<K, V, S> {
    ghost use Rattle.threads_reclaims.specs.Reclaims.Rule.{one_first};
    ghost use Rattle.threads_reclaims.specs.declared.sole.Sole.TheVariants.{Left};

    ghost heir = { one_first };

    ghost left = { λ _ v. Left v };
}

/// It goes back: what was held was given up.
pub(crate) struct Returns<K, V, S>(PhantomData<(K, V, S)>);

impl<K, V, S> Bequest<Fixed, Sole<K, V, S>, View<K, V, S>> for Returns<K, V, S> {
    ghost use Rattle.threads_reclaims.specs.Reclaims.Rule.{kept_of};

    ghost heir = { λ _. kept_of };

    ghost left = { λ _. kept_of };
}

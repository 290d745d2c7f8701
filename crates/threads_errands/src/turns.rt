//! Turns of a seat whose code runs ahead of its machine. The point that it comes to, and the answer with which its call ends, are picked by who takes them.
use map_tables::Hashes;
use seize_blocks::Turn;
use seize_views::Fixed;
use std::marker::{Brand, PhantomData};
use threads_steps::View;

/// A seat takes the turns up to the operation that its code makes next.
pub struct CatchingUp;

impl<K: Eq, V, S: Hashes<K>> Turn<Fixed, View<K, V, S>> for CatchingUp {
    ghost use Rattle.threads_errands.specs.Ahead.{CatchesUp};

    ghost to = { λ _. CatchesUp K.eq S.hash };
}

/// Where a call stands.
pub trait Points<K, V> {
    ghost use Rattle.papaya_raw.specs.declared.machines.machine.Machine.{Machine as AnyMachine};

    ghost point: { AnyMachine K V K → Type 0 };
}

impl<K, V> Points<K, V> for Brand {
    ghost point = { λ _. ⊥ };
}

/// A seat takes the turns up to that point.
pub struct Reaching<B>(PhantomData<B>);

impl<K, V, S, B: Points<K, V>> Turn<Fixed, View<K, V, S>> for Reaching<B> {
    ghost use Rattle.threads_errands.specs.Ahead.{StandsAtOneOf};

    ghost to = { λ _. StandsAtOneOf B.point };
}

/// With which answer a call ends.
pub trait Ends {
    ghost use Rattle.papaya_raw.specs.declared.machines.answer.KeyAnswer.{KeyAnswer as AnyAnswer};

    ghost answer: { AnyAnswer };
}

impl Ends for Brand {
    ghost use Rattle.papaya_raw.specs.declared.machines.answer.KeyAnswer.TheVariants.{Absent};

    ghost answer = { Absent };
}

/// A seat takes the turns with which its call ends so.
pub struct EndingCall<B>(PhantomData<B>);

impl<K, V, S, B: Ends> Turn<Fixed, View<K, V, S>> for EndingCall<B> {
    ghost use Rattle.threads_errands.specs.Ahead.{HasEndedSo};

    ghost to = { λ _. HasEndedSo B.answer };
}

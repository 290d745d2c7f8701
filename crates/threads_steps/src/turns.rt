//! The steps of a seat of maps that make no operation. Which call begins, and which making, is picked by who takes the step.
use map_tables::Hashes;
use seize_blocks::Turn;
use seize_views::Fixed;
use std::marker::{Brand, PhantomData};
use threads_rule::View;

/// What a call is to do that begins.
pub trait Wants<K, V> {
    ghost use Rattle.threads_rule.specs.Given.ActsActs.{Wanted};

    ghost wanted: { Wanted K V };
}

impl<K, V> Wants<K, V> for Brand {
    ghost use Rattle.threads_rule.specs.Given.ActsActs.{Count};

    ghost wanted = { Count };
}

/// A call begins.
pub struct Beginning<B>(PhantomData<B>);

impl<K: Eq, V, S: Hashes<K>, B: Wants<K, V>> Turn<Fixed, View<K, V, S>> for Beginning<B> {
    ghost use Rattle.threads_rule.specs.Errands.Looking.{Begins};

    ghost to = { λ _. Begins K.eq S.hash B.wanted };
}

/// By which machine a map may be made, for its maker or for good, with which hasher.
pub trait Plans<S> {
    ghost use Rattle.std.specs.Prelude.{Bool};
    ghost use Rattle.map_machines.specs.declared.new_map.NewMap.{NewMap};

    ghost plans: { Bool → S → NewMap → Type 0 };
}

impl<S> Plans<S> for Brand {
    ghost plans = { λ _ _ _. ⊥ };
}

/// The making of a map begins.
pub struct MapMakingBegins<B>(PhantomData<B>);

impl<K, V, S, B: Plans<S>> Turn<Fixed, View<K, V, S>> for MapMakingBegins<B> {
    ghost use Rattle.threads_rule.specs.Errands.Making.{BeginsMaking};

    ghost to = { λ _. BeginsMaking B.plans };
}

/// A call takes a step that makes no operation.
pub struct Stepping;

impl<K: Eq, V, S: Hashes<K>> Turn<Fixed, View<K, V, S>> for Stepping {
    ghost use Rattle.threads_rule.specs.Views.Told.{turned};

    ghost to = { λ _. turned K.eq S.hash };
}

/// What a call is told, which is under way.
pub trait Says<K, V> {
    ghost use Rattle.papaya_raw.specs.declared.machines.asking.MachineReply.{MachineReply};
    ghost use Rattle.papaya_raw.specs.declared.machines.machine.Machine.{Machine};

    ghost machine: { Machine K V K };

    ghost reply: { MachineReply V };
}

impl<K, V> Says<K, V> for Brand {
    ghost use Rattle.papaya_raw.specs.declared.machines.asking.MachineReply.TheVariants.{Abort};
    ghost use Rattle.threads_steps.specs.Asking.{counts_none};

    ghost machine = { counts_none };

    ghost reply = { Abort };
}

/// A call is told something.
pub struct Telling<B>(PhantomData<B>);

impl<K, V, S, B: Says<K, V>> Turn<Fixed, View<K, V, S>> for Telling<B> {
    ghost use Rattle.std.specs.Prelude.{◌≡◌, Some};
    ghost use Rattle.threads_rule.specs.Views.Begun.{replied};
    ghost use Rattle.threads_rule.specs.declared.view.Map.{Map};
    ghost use Rattle.threads_rule.specs.declared.view.SeatWork.TheVariants.{Calls};

    ghost to = { λ _ v w. (v.work ≡ Calls B.machine) × (w ≡ replied v B.machine B.reply) };
}

/// Which call is asked for its next pair.
pub trait Asks<K, V> {
    ghost use Rattle.papaya_raw.specs.declared.machines.machine.Machine.{Machine};

    ghost machine: { Machine K V K };
}

impl<K, V> Asks<K, V> for Brand {
    ghost use Rattle.threads_steps.specs.Asking.{counts_none};

    ghost machine = { counts_none };
}

/// A call is asked for its next pair.
pub struct Asking<B>(PhantomData<B>);

impl<K, V, S, B: Asks<K, V>> Turn<Fixed, View<K, V, S>> for Asking<B> {
    ghost use Rattle.std.specs.Prelude.{◌≡◌};
    ghost use Rattle.threads_rule.specs.Views.Begun.{asked};
    ghost use Rattle.threads_rule.specs.declared.view.SeatWork.TheVariants.{Calls};

    ghost to = { λ _ v w. (v.work ≡ Calls B.machine) × (w ≡ asked v B.machine) };
}

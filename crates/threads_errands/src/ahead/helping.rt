//! A seat copies places of the chunk that its call helps with, or tries a full batch, by straight code.
ghost use Rattle.std.specs.Prelude.{◌≡◌, Option};
ghost use Rattle.map_tables.specs.declared.node.Node.{Node as AnyNode};
ghost use Rattle.papaya_raw.specs.declared.machines.machine.Machine.TheVariants.{Key as KeyMachine};
ghost use Rattle.threads_errands.specs.Ahead.{IsAhead, IsSameAhead};
ghost use Rattle.threads_steps.specs.Given.ByKey.{key_call};
ghost use Rattle.threads_steps.specs.Given.ErrandsLooking.{IsOfThem, StaysThere};
ghost use Rattle.threads_steps.specs.Storing.{Since};

use crate::ahead::Ahead;
use crate::helping::help;
use map_tables::{Equivalent, Hashes};
use papaya_raw::machines::KeyCall;
use std::hash::Hash;

impl<'a, K: Eq + Hash + Drop, V: Drop, S: Hashes<K>> Ahead<'a, K, V, S> {
    /// Copies places of the chunk that its call helps with, or tries a full batch, as far as straight code goes.
    #[inline(always)]
    pub(crate) fn helps<Q: Equivalent<K>>(&mut self, hasher: &S, call: &mut KeyCall<K, V, Q>)
        requires ahead { IsAhead K.eq S.hash hasher.now (key_call Q.stands_for call.old) self.old.seat.now.view }
        ensures ahead { IsAhead K.eq S.hash hasher.now (key_call Q.stands_for call.new) self.new.seat.now.view }
        ensures stays { StaysThere self.old.seat.now.view self.new.seat.now.view }
        ensures them { IsOfThem self.old.seat.now.view self.new.seat.now.view }
        ensures back { (pair : AnyNode K V) (handed : Option (AnyNode K V)) → Since K.eq (S.hash hasher.now) pair (KeyMachine (key_call Q.stands_for call.old)) handed
            → Since K.eq (S.hash hasher.now) pair (KeyMachine (key_call Q.stands_for call.new)) handed }
        ensures same { IsSameAhead self.old self.new }
    {
        help::<K, V, Q, S, Self>(call, self, hasher);
    }
}

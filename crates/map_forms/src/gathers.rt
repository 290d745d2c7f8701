//! What elements that are read are put into.
ghost use Rattle.std.specs.Prelude.{◌≡◌, ◌∷◌, ◌++◌, ◌⊎◌, List, [], filter, not, IfOk, IfErr, OnOk};
ghost use Rattle.std.specs.List.Sorted.{IsPermutation};
ghost use Rattle.seize_words.specs.declared.fault.Fault.TheVariants.{Memory, Capacity};

use seize_words::Fault;
use std::alloc::{AllocError, Global};

/// A collection in which an element counts once, however often it is put in.
pub trait Gathers<K: Eq> {
    // The elements that it has.
    ghost elements: { Self → List K };

    // What is so of it once these elements were put into it, one after another.
    ghost made_of: { Self → List K → Type 0 };

    /// One with no element.
    fn none(alloc: Global) -> Result<Self, AllocError>
        ensures bare { IfOk result (λ found. elements found ≡ []) }
        ensures made { IfOk result (λ found. made_of found []) };

    /// Puts an element, in the place of one that equals it, if there is one.
    fn put(&mut self, element: K) -> Result<(), Fault>
        ensures put { OnOk result (IsPermutation (elements self.new) (filter (λ y. not (K.eq element y)) (elements self.old) ++ (element ∷ []))) }
        ensures more { (given : List K) → made_of self.old given → OnOk result (made_of self.new (given ++ (element ∷ []))) }
        ensures fault { IfErr result (λ fault. (fault ≡ Memory) ⊎ (fault ≡ Capacity)) };
}

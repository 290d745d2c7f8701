//! A list of elements of which no two are equal, to read arrays into whose elements have no hash.
ghost use Rattle.std.specs.Prelude.{◌≡◌, [], IfOk};
ghost use Rattle.std.specs.Slice.Iter.{iter_rest};

use crate::gathers::Gathers;
use seize_words::Fault;
use std::alloc::{AllocError, Global};
use std::slice::Iter;

/// Elements of which no two are equal, in the order in which each was put in last.
#[derive(Drop)]
pub struct Listed<K> {
    elements: Vec<K>,
}

impl<K> Listed<K> {
    /// Returns the elements, in that order.
    pub fn iter(&self) -> Iter<'_, K>
        ensures { iter_rest result ≡ self.now.elements.items }
    {
        self.elements.iter()
    }
}

impl<K: Eq + Drop> Gathers<K> for Listed<K> {
    ghost elements = { λ listed. listed.elements.items };

    ghost made_of = { λ listed given. Unit {0} };

    fn none(alloc: Global) -> Result<Self, AllocError> {
        Ok(Listed {
            elements: Vec::new(alloc),
        })
    }

    fn put(&mut self, element: K) -> Result<(), Fault> {
        self.elements.retain(|other| element != *other);
        self.elements.push(element)?;
        Ok(())
    }
}

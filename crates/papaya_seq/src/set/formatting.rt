//! How a set for one owner is written for who debugs.

use super::HashSet;
use owner_map::Receiver;
use std::fmt::{Debug, Formatter, Result, Write};
use std::hash::{BuildHasher, Hash};

impl<K: Eq + Hash + Debug, S: BuildHasher, R: Receiver<(K, ())>> Debug for HashSet<K, S, R> {
    fn fmt<W: Write>(&self, f: &mut Formatter<W>) -> Result {
        let mut out = f.debug_set();
        for element in self.iter() {
            out.entry(element);
        }
        out.finish()
    }
}

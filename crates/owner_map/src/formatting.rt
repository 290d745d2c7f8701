//! How a map for one owner is written for who debugs.

use crate::map::HashMap;
use seize_words::Receiver;
use std::fmt::{Debug, Formatter, Result, Write};
use std::hash::{BuildHasher, Hash};

impl<K: Eq + Hash + Debug, V: Debug, S: BuildHasher, R: Receiver<(K, V)>> Debug
    for HashMap<K, V, S, R> {
    fn fmt<W: Write>(&self, f: &mut Formatter<W>) -> Result {
        let mut out = f.debug_map();
        for (key, value) in self.iter() {
            out.entry(key, value);
        }
        out.finish()
    }
}

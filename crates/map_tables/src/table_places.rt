//! The names of a table's words.
ghost use Rattle.std.specs.Prelude.{◌≡◌};
ghost use Rattle.map_tables.specs.TablePlaces.{at_word, at_place};

use crate::table::Table;
use crate::table_words::PLACES;
use seize_words::{At, Link};

impl Table {
    /// Returns the name of one of its words that is no place.
    pub fn word(self, number: u64) -> At
        ensures { result ≡ at_word self number }
    {
        At::Word(Link::block_of(self.link), number)
    }

    /// Returns the name of the word of a place.
    pub fn at(self, place: u64) -> At
        ensures { result ≡ at_place self place }
    {
        At::Word(Link::block_of(self.link), place.wrapping_add(PLACES))
    }
}

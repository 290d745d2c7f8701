//! The calls, a line each.

/// What a call is made on, its name, and its key. Then how many pairs or elements there are after it, and what is found of 3 and of 8: the value of a map, the
/// element of a set, or nothing.
pub(crate) const ROWS: &str = "\
new-map new - 0 - -
new-map with_capacity - 0 - -
new-map with_hasher - 0 - -
new-map with_capacity_and_hasher - 0 - -
new-map try_collect - 8 30 -
new-map from_array - 8 30 -
new-map clone - 8 30 -
map insert 8 9 30 5
map insert 3 8 5 -
map insert_again 3 8 30 -
map try_insert 8 9 30 5
map get_or_insert 8 9 30 5
map get_or_insert_with 8 9 30 5
map try_insert_with 8 9 30 5
map update 3 8 31 -
map update_or_insert 3 8 31 -
map update_or_insert 8 9 30 5
map update_or_insert_with 3 8 31 -
map update_or_insert_with 8 9 30 5
map compute 3 8 5 -
map compute 8 9 30 5
map compute_a_removal 3 7 - -
map remove 3 7 - -
map remove_entry 3 7 - -
map remove_if 3 7 - -
map reserve - 8 30 -
map extend - 9 30 5
map retain - 4 - -
map clear - 0 - -
new-set new - 0 - -
new-set with_capacity - 0 - -
new-set with_hasher - 0 - -
new-set with_capacity_and_hasher - 0 - -
new-set try_collect - 8 3 -
new-set from_array - 8 3 -
new-set clone - 8 3 -
set insert 8 9 3 8
set insert 3 8 3 -
set remove 3 7 - -
set reserve - 8 3 -
set extend - 9 3 8
set retain - 4 - -
set clear - 0 - -
map-of-texts from_value
map-of-texts clone
map-of-texts to_value
set-of-texts from_value
set-of-texts clone
set-of-texts to_value
";

/// A line, word by word.
#[derive(Clone, Copy)]
pub(crate) struct Row<'a> {
    pub(crate) on: &'a str,
    pub(crate) call: &'a str,
    pub(crate) key: u64,
    pub(crate) len: u64,
    pub(crate) three: Option<u64>,
    pub(crate) eight: Option<u64>,
}

fn number(word: Option<&str>) -> Option<u64> {
    word?.parse().ok()
}

impl<'a> Row<'a> {
    pub(crate) fn read(line: &'a str) -> Row<'a> {
        let mut words = line.split_whitespace();
        let on = words.next().unwrap_or("");
        let call = words.next().unwrap_or("");
        let key = number(words.next()).unwrap_or(0);
        let len = number(words.next()).unwrap_or(0);
        let three = number(words.next());
        let eight = number(words.next());
        Row {
            on,
            call,
            key,
            len,
            three,
            eight,
        }
    }
}

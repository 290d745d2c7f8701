//! Words of links and places of slots, worked by hand.
use seize_words::Link;
use seize_words::slots::{bucket_capacity, place_of};

/// A word, and the block, the byte and the marks that it holds.
type Word = (u64, u64, u8, u8);

const WORDS: [Word; 6] = [
    (0, 0, 0, 0),
    (1, 0, 0, 1),
    (2, 0, 0, 2),
    (3, 0, 0, 3),
    (2048, 1, 0, 0),
    (2563, 1, 64, 3),
];

/// Whether a word holds these.
fn holds(row: Word) -> bool {
    let (word, block, byte, marks) = row;
    let link = Link::unpack(word);
    link.block == block && link.byte == byte && link.marks == marks && link.pack() == word
}

/// A slot, its bucket, how many slots the bucket holds, and the slot's index there.
type Place = (u32, u64, u64, u64);

const PLACES: [Place; 6] = [
    (0, 0, 32, 0),
    (31, 0, 32, 31),
    (32, 1, 64, 0),
    (95, 1, 64, 63),
    (96, 2, 128, 0),
    (223, 2, 128, 127),
];

/// Whether a slot lies so.
fn lies_so(row: Place) -> bool {
    let (slot, bucket, capacity, index) = row;
    let place = place_of(u64::from(slot));
    place == (bucket, index) && bucket_capacity(place.0) == capacity
}

#[test]
fn words_hold_their_parts_and_slots_fill_one_bucket_after_another(rt: HostRuntime) {
    for row in WORDS {
        assert!(rt; holds(row), "word {}", row.0);
    }
    for row in PLACES {
        assert!(rt; lies_so(row), "slot {}", row.0);
    }
}

//! What those know that share the memory of a collector.
use seize::rows::{Defer, Register, Settle};

/// What a seat knows, and what it has done last.
pub struct Noted<T> {
    /// What it knows.
    pub knows: SlotView<T>,
    /// What it has done last at a root.
    pub did: Deed<T>,
    /// What it has begun last on a slot.
    pub began: Began,
    /// How many seats watch its section.
    pub guards: u64,
}

/// What a seat has done last at a root. Words are whole ones, with their tags.
pub enum Deed<T> {
    /// Nothing yet.
    NoneYet,
    /// It has looked at this root, where this word was.
    Looked(u64, u64),
    /// It has written at this root this word, which links to a block of this value, or to none, in place of this word.
    Wrote(u64, u64, Option<T>, u64),
    /// It has set these bits of the word at this root, which was this one before.
    Marked(u64, u64, u64),
}

/// What a seat has begun last on a slot.
pub enum Began {
    /// Nothing yet.
    NotYet,
    /// A section.
    Section,
    /// The retirement of a block.
    Retirement,
    /// The deferral of a block: it waits behind another one.
    Deferral,
    /// The trying of its batch.
    Trial,
}

/// What a seat knows: whether it holds a slot, and which row it has under way.
pub enum SlotView<T> {
    /// It holds no slot.
    Rests,
    /// It looks for one.
    Registers(Register),
    /// It holds this slot, of which no section is open.
    Outside(u64),
    /// It holds this slot, of which no section is open, and is to retire this block, which it has unlinked.
    Owes(u64, u64),
    /// It is about to open a section of it.
    Enters(u64),
    /// It holds this slot, and its section is open; and it knows of a block, or of none.
    Inside(u64, Has<T>),
    /// It settles what its slot has to settle, and why; this block, with its value, it is about to look at; and it has done so within
    /// so many further steps.
    Settles(Settle, Why, Option<(u64, T)>, u64),
    /// It is about to end the section of this slot, whose head becomes so; batches have this size.
    Leaves(u64, u64, Becomes),
    /// It has ended the section of this slot, whose head became so, and settled all that was to be settled.
    Left(u64, u64, Becomes),
    /// It is about to give this slot up.
    Frees(u64),
    /// It holds no slot, and has made this block, of this value, which nobody else can reach.
    Brings(u64, T),
    /// It holds no slot, and is to hand on this block, which it has unlinked.
    Bears(u64),
    /// It holds no slot, and watches the open section of this one, where it has seen this block, 0 for none.
    Watches(u64, u64),
    /// It holds no slot, and is on an errand that the seat of this number is lent to, whose section of this slot is open, where it has seen this block, 0 for none.
    Under(u64, u64, u64),
    /// It holds no slot, and is to make blocks for chains, or has made this one, of this value, which nobody else can reach, and whose link names this
    /// block, 0 for none.
    Joins(Option<(u64, T, u64)>),
    /// Its section of this slot is open, and it is to put a block behind another one.
    Defers(u64, Deferral<T>),
    /// It has something under way that is no row: within the open section of this slot, or without a slot.
    Busy(Option<u64>),
}

/// Which block a seat within a section knows of.
pub enum Has<T> {
    /// None.
    Nothing,
    /// It has made this one, of this value, which nobody else can reach.
    Made(u64, T),
    /// It has seen this one, which its section holds.
    Seen(u64),
    /// It has made the first one, of this value, which nobody else can reach, and seen the second one, which its section holds.
    Both(u64, T, u64),
    /// It has unlinked this one, and is to retire it.
    Cut(u64),
    /// It goes down a chain, and has come to this block, 0 for none, which its section holds with all that stands below it; and the link of that names this
    /// one, 0 for none, if it has looked.
    Walks(u64, Option<u64>),
}

/// How far a seat is that takes a block out of a root, and puts it behind another one.
pub enum Deferral<T> {
    /// It has seen the first block, of this value, and is to take out what a root names, where it puts the other one, of this value, which it has made, or none.
    Takes(u64, T, Option<(u64, T)>),
    /// It has taken the second block out, and nobody else may unlink that. These are the values of both.
    Parts(u64, T, u64, T),
    /// The row is under way that puts it behind the first one.
    Puts(u64, Defer),
}

/// Why a seat settles.
pub enum Why {
    /// A block is retired, or its batch is tried, while the head of its slot is so.
    Retiring(Becomes),
    /// Its section has ended, and the list of its slot is counted down; batches have this size, and the head became so.
    Ending(u64, Becomes),
}

/// What the head of a slot is, or becomes as its section ends.
pub enum Becomes {
    /// No section is open then.
    Idle,
    /// One is; the next one, where one ends.
    Active,
}

/// What is chosen as the memory is opened.
#[derive(Clone, Copy)]
pub struct Fixed {
    /// The length from which on a batch is tried.
    pub batch_size: u64,
    /// How many roots there are at which single blocks stand.
    pub roots: u64,
    /// How many there are behind these, at each of which a chain of blocks stands.
    pub chains: u64,
}

/// Which of its own words is a block's link: the one by which a block of a chain names the next one.
pub const LINK: u64 = 0;

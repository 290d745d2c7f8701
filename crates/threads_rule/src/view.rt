//! What those know that share the memory of maps.
use map_machines::NewMap;
use map_tables::{Node, Setting};
use papaya_raw::machines::{EndMap, Machine, Progress};
use std::collections::LinkedList;

/// What a seat knows.
pub struct View<K, V, S> {
    /// Which slot it holds, and which row it has under way there, while it has nothing else under way.
    pub slot: seize_views::SlotView<Node<K, V>>,
    /// The seat that it leans on and the slot of that one, if it leans on one: it holds no slot then, and has calls under way within the section of that one.
    pub under: Option<(u64, u64)>,
    /// The map that it knows, if it knows one: it stands, and is nobody's own, or this seat leans on the one that owns it.
    pub map: Option<Map<S>>,
    /// The seat that owns that map, on which it leans, if it leans on one.
    pub by: Option<u64>,
    /// The map that is its own, if it has one: it stands until this seat ends it.
    pub own: Option<Map<S>>,
    /// What it has under way.
    pub work: SeatWork<K, V, S>,
    /// The blocks that its last step looks at after its operation, with their values.
    pub looks: LinkedList<(u64, Node<K, V>)>,
    /// Of these, those that are known to be held for it: its section holds them, or its call has them as its own.
    pub held: LinkedList<(u64, Node<K, V>)>,
    /// What it has begun last on its slot.
    pub began: seize_views::Began,
    /// The calls that it has begun, the newest first.
    pub calls: LinkedList<BegunCall<K, V>>,
}

/// A call that a seat has begun.
pub struct BegunCall<K, V> {
    /// The number of its map.
    pub map: u64,
    /// As it began.
    pub began: Machine<K, V>,
    /// What its last step has told: what it has answered, once it has ended.
    pub told: Progress<Node<K, V>>,
}

/// A map that stands.
pub struct Map<S> {
    /// Its number.
    pub number: u64,
    /// What each call of it works with, but for the slot.
    pub setting: Setting,
    /// The hasher of its keys.
    pub hasher: S,
}

/// What a seat has under way, beside a row.
pub enum SeatWork<K, V, S> {
    /// Nothing.
    Nothing,
    /// A call on the map that it knows, within the section of its slot.
    Calls(Machine<K, V>),
    /// It makes the map of this number, with this hasher, for itself or for good, and holds no slot.
    Makes(bool, u64, S, NewMap),
    /// It ends the map that was its own, and holds no slot.
    Ends(EndOfMap),
}

/// The end of a map that is under way.
pub struct EndOfMap {
    /// How far it has come.
    pub machine: EndMap,
    /// How much is left: each step that goes on lowers it, but for those along a list that a table carries.
    pub left: u64,
    /// How much of that list is left, which those lower.
    pub along: u64,
}

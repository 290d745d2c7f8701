//! What is promised of maps that begin alone, and of the table after the last one.
ghost use Rattle.std.specs.Prelude.{ℕ, Bool};
ghost use Rattle.owner_facts.specs.Maps.Listed.{ListsAddUp, InOneOfTwo, FirstOrBehind, DeferredOnTables, MarkedIsSettledOrOwn};
ghost use Rattle.owner_facts.specs.Maps.EndingsBegins.{BeginningsEnd, BeginningsLeaveLess};
ghost use Rattle.owner_facts.specs.Maps.NextTables.{NextTablesGoByTheCounter};
ghost use Rattle.owner_facts.specs.Maps.WholeBegins.{MapsBeginAlone, MapsContinueAlone};
ghost use Rattle.owner_facts.specs.Maps.FaultsBegins.{FreeRootsSuffice, MemoryAloneIsRefused};

/// Over the memory of one owner, where there are roots and those that are free lead nowhere, a map may begin. It may take each of its steps, and hands nothing
/// to the collector. At its end it rests, with no pair, with no table or one of the length that it was to have and at least 8 places, under a root that was
/// free, and its caller has the block of its counter, whose shards say that there is no pair. All blocks that were there are there with their values, and no
/// others but those of the counter and of the first table. Where it is refused, all roots are as they were, and so are all blocks, with their values. It
/// terminates: no run of its steps goes on for ever.
pub fn maps_begin_alone<K, V>()
    ensures begins { (same : K → K → Bool) (hash : K → ℕ) → MapsBeginAlone V same hash }
    ensures steps { (same : K → K → Bool) (hash : K → ℕ) → MapsContinueAlone V same hash }
    ensures ends { BeginningsEnd K V }
    ensures less { BeginningsLeaveLess K V }
{}

/// Over the memory of one owner, where the first root is free and the first table none too long, a map that begins needs nothing but memory: where it
/// is refused, memory was. The words of slots are as they were.
pub fn beginnings_need_memory_alone<K, V>()
    ensures begins { FreeRootsSuffice K V }
    ensures steps { MemoryAloneIsRefused K V }
{}

/// How often a block stands in lists. What waits where a map ends waits behind one of its tables. A place that is marked is settled, or claimed by
/// the one caller who has a part in the copying.
pub fn blocks_are_listed<K>()
    ensures adds_up { ListsAddUp }
    ensures in_two { InOneOfTwo }
    ensures first { FirstOrBehind }
    ensures waits { DeferredOnTables K }
    ensures marked { MarkedIsSettledOrOwn }
{}

/// Where a call counts the pairs for the table after the last one, has met no more of them than the map has, at any table that it found full, and will count as many,
/// each step of that counts on, or makes the table for so many pairs, as long as it is by the counter alone.
pub fn next_tables_go_by_the_counter<K, V, Q>()
    ensures steps { (same : K → K → Bool) (hash : K → ℕ) (asks : Q → K → Bool) → NextTablesGoByTheCounter V same hash asks }
{}

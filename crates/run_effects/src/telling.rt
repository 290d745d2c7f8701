//! What an operation does to pairs and tables, and what is known after it.
ghost use Rattle.std.specs.Prelude.{◌≡◌, ◌==◌, ◌<◌, ◌+◌, ◌^◌, ◌&&◌, nat_lt, Bool, [], ◌∷◌, if◌then◌else◌, OnOk, OnErr};
ghost use Rattle.seize.specs.declared.states.TheConstants.{FIRST};
ghost use Rattle.run_schedules.specs.declared.effect.Effect.TheVariants.{Asked, Retired};
ghost use Rattle.run_schedules.specs.declared.effect.Growth.TheVariants.{ABlock, ABucket};
ghost use Rattle.run_effects.specs.Effects.Did.{listed};
ghost use Rattle.run_effects.specs.Effects.Known.{known};
ghost use Rattle.run_effects.specs.Effects.Effects.{map_of, caller_of, table_at, made_role, made_by, pair_taken, table_taken, taken_by, names_same, followed_by, led_to, carried, placed, spot_at, is_place, in_table, in_block, batched, named, written_by, effects_of, linked_on, stored_on, in_table_on, in_block_on, written_on, known_after, HasNumber};

use crate::acting::Acting;
use crate::changed::{Changed, Kind};
use crate::did::Did;
use crate::notes::Notes;
use crate::role::Role;
use run_schedules::effect::{Effect, Growth, Spot, TableId, Thing};
use run_schedules::shapes::TableShape;
use run_schedules::table_words::{DEFERRED, NEXT, PLACES};
use run_schedules::{At, Link};
use seize::states::FIRST;
use std::alloc::AllocError;

impl Acting {
    /// On which map it acts: a row acts on none.
    fn map(self) -> u64
        ensures { result ≡ map_of self }
    {
        match self {
            Acting::Call { map, .. } | Acting::Making { map } | Acting::Ending { map } => map,
            Acting::Row => 0,
        }
    }

    /// Whose a block is that it makes.
    fn caller(self) -> u64
        ensures { result ≡ caller_of self }
    {
        match self {
            Acting::Call { caller, .. } => caller,
            Acting::Making { .. } | Acting::Ending { .. } | Acting::Row => 0,
        }
    }

    /// The table with this turn.
    fn table(self, turn: u64) -> TableId
        ensures { result ≡ table_at self turn }
    {
        TableId {
            map: self.map(),
            turn,
        }
    }

    /// What a new block is.
    fn made_role(self, kind: Kind) -> Role
        ensures { result ≡ made_role self kind }
    {
        match kind {
            Kind::Pair => Role::OwnPair {
                caller: self.caller(),
            },
            Kind::Table { len, limit, turn } => Role::OwnTable {
                turn,
                shape: TableShape { len, limit },
            },
            Kind::Shards => Role::Counter(self.map()),
        }
    }

    /// What was made.
    fn made(self, kind: Kind) -> Did
        ensures { listed result ≡ Asked ABlock ∷ made_by self kind }
    {
        let asked = Effect::Asked(Growth::ABlock);
        match kind {
            Kind::Pair => Did::Two(asked, Effect::PairMade),
            Kind::Table { turn, .. } => Did::Two(asked, Effect::TableMade(self.table(turn))),
            Kind::Shards => Did::One(asked),
        }
    }

    /// What becomes of a pair that is taken away.
    fn pair_taken(self, pair: u64) -> Effect
        ensures { result ≡ pair_taken self pair }
    {
        match self {
            Acting::Ending { .. } => Effect::Ended(pair),
            Acting::Call { .. } | Acting::Making { .. } | Acting::Row => {
                Effect::Reclaimed(Thing::APair(pair))
            }
        }
    }

    /// What becomes of a table that is taken away.
    fn table_taken(self, table: TableId) -> Effect
        ensures { result ≡ table_taken self table }
    {
        match self {
            Acting::Ending { .. } => Effect::Taken(table),
            Acting::Call { .. } | Acting::Making { .. } | Acting::Row => {
                Effect::Reclaimed(Thing::ATable(table))
            }
        }
    }

    /// What becomes of a block that is taken away.
    fn taken(self, role: Role) -> Did
        ensures { listed result ≡ taken_by self role }
    {
        match role {
            Role::OwnPair { .. } => Did::One(Effect::PairGivenUp),
            Role::OwnTable { turn, .. } => Did::One(Effect::TableGivenUp(self.table(turn))),
            Role::Pair(pair) => Did::One(self.pair_taken(pair)),
            Role::Table { table, .. } => Did::One(self.table_taken(table)),
            Role::Counter(_) | Role::Free => Did::Nothing,
        }
    }

    /// What a link to the next table says.
    fn followed(self, is: Role) -> Did
        ensures { listed result ≡ followed_by self is }
    {
        match is {
            Role::OwnTable { turn, shape } => {
                let table = self.table(turn);
                Did::One(Effect::Linked { table, shape })
            }
            _ => Did::Nothing,
        }
    }

    /// What a root says, by what it led to before.
    fn led_to(self, was: Role, is: Role) -> Did
        ensures { listed result ≡ led_to self was is }
    {
        match (was, is) {
            (_, Role::OwnTable { turn, shape }) => {
                let table = self.table(turn);
                Did::One(Effect::Linked { table, shape })
            }
            (Role::Table { .. }, Role::Table { table, .. }) => Did::One(Effect::Promoted(table)),
            _ => Did::Nothing,
        }
    }

    /// What a word of a table says, which has so many places.
    fn in_table(self, table: TableId, len: u64, field: u64, stored: u64, was: Role, is: Role) -> Did
        requires { stored + 1 < 2 ^ 64 }
        ensures { listed result ≡ in_table self table len field stored was is }
    {
        if field == NEXT {
            self.followed(is)
        } else if field == DEFERRED {
            carried(table, is)
        } else if is_place(len, field) {
            let at = Spot {
                turn: table.turn,
                place: field - PLACES,
            };
            placed(at, stored, was, is)
        } else {
            Did::Nothing
        }
    }

    /// What a word of a block's own says, which goes on naming the same block, or names another one.
    fn in_block(self, role: Role, field: u64, stored: u64, same: bool, was: Role, is: Role) -> Did
        requires { stored + 1 < 2 ^ 64 }
        ensures { listed result ≡ in_block self role field stored same was is }
    {
        match role {
            Role::Table { table, len } => {
                if same {
                    Did::Nothing
                } else {
                    self.in_table(table, len, field, stored, was, is)
                }
            }
            Role::Counter(_) => Did::One(Effect::Counted(field)),
            _ => Did::Nothing,
        }
    }

    /// What a word of a block's entry says that was written: a call retires the block with that of its batch.
    fn batched(self, field: u64, role: Role) -> Did
        ensures { listed result ≡ batched self field role }
    {
        match (self, role) {
            (Acting::Call { .. }, Role::Pair(pair)) => retired(field, Thing::APair(pair)),
            (Acting::Call { .. }, Role::Table { table, .. }) => retired(
                field,
                Thing::ATable(table),
            ),
            _ => Did::Nothing,
        }
    }
}

/// A thing is retired, if this is the word of the batch.
fn retired(field: u64, thing: Thing) -> Did
    ensures { listed result ≡ if field == FIRST then Retired thing ∷ [] else [] }
{
    if field == FIRST {
        Did::One(Effect::Retired(thing))
    } else {
        Did::Nothing
    }
}

/// What the head of the list says that a table carries.
fn carried(behind: TableId, is: Role) -> Did
    ensures { listed result ≡ carried behind is }
{
    match is {
        Role::Pair(pair) => Did::One(Effect::Deferred { pair, behind }),
        _ => Did::Nothing,
    }
}

/// What a place says, by what it named before, and by how many pairs were stored.
fn placed(at: Spot, stored: u64, was: Role, is: Role) -> Did
    requires { stored + 1 < 2 ^ 64 }
    ensures { listed result ≡ placed at stored was is }
{
    match (was, is) {
        (Role::Pair(old), Role::OwnPair { .. }) => {
            let pair = stored + 1;
            Did::Two(Effect::Replaced(old), Effect::Stored { pair, at })
        }
        (_, Role::OwnPair { .. }) => {
            let pair = stored + 1;
            Did::One(Effect::Stored { pair, at })
        }
        (Role::Pair(pair), Role::Free) => Did::One(Effect::Removed(pair)),
        (Role::Free, Role::Pair(pair)) => Did::One(Effect::Copied { pair, into: at }),
        _ => Did::Nothing,
    }
}

/// Whether a word names the same block as before.
fn names_same(old: u64, new: u64) -> bool
    ensures { result ≡ names_same old new }
{
    Link::block_of(old) == Link::block_of(new)
}

/// Whether this is the word of a place, in a table with so many places.
fn is_place(len: u64, field: u64) -> bool
    ensures { result ≡ is_place len field }
{
    field >= PLACES && field - PLACES < len
}

impl Notes {
    /// What a block is that a word names.
    fn named(&self, word: u64) -> Role
        ensures { result ≡ named (known self.now) word }
    {
        self.role_of(Link::block_of(word))
    }

    /// What a word says that was written.
    fn written(&self, acting: Acting, at: At, old: u64, new: u64) -> Did
        requires { (known self.now).stored + 1 < 2 ^ 64 }
        ensures { listed result ≡ written_by acting (known self.now) at old new }
    {
        let same = names_same(old, new);
        let was = self.named(old);
        let is = self.named(new);
        match at {
            At::Word(block, field) => {
                acting.in_block(self.role_of(block), field, self.stored(), same, was, is)
            }
            At::Root(_) if !same => acting.led_to(was, is),
            At::Entry(block, field) if !same => acting.batched(field, self.role_of(block)),
            _ => Did::Nothing,
        }
    }

    /// What a bucket that is asked for says, which was there, or for which there was no memory.
    fn roomed(&self, bucket: u64, had: bool) -> Did
        ensures { listed result ≡ if had && nat_lt bucket (known self.now).buckets then [] else Asked ABucket ∷ [] }
    {
        if had && bucket < self.buckets() {
            Did::Nothing
        } else {
            Did::One(Effect::Asked(Growth::ABucket))
        }
    }

    /// Returns what an operation has done.
    pub fn did(&self, acting: Acting, changed: Changed) -> Did
        requires { (known self.now).stored + 1 < 2 ^ 64 }
        ensures { listed result ≡ effects_of acting (known self.now) changed }
    {
        match changed {
            Changed::Nothing => Did::Nothing,
            Changed::Wrote { at, old, new } => self.written(acting, at, old, new),
            Changed::Made { kind, .. } => acting.made(kind),
            Changed::Unmade { .. } => Did::One(Effect::Asked(Growth::ABlock)),
            Changed::Took { block } => acting.taken(self.role_of(block)),
            Changed::Roomed { bucket, had } => self.roomed(bucket, had),
        }
    }

    /// A table that is linked is one of its map.
    fn link(&mut self, acting: Acting, block: u64, is: Role) -> Result<(), AllocError>
        ensures ok { OnOk result (known self.new ≡ linked_on acting block is (known self.old)) }
        ensures err { OnErr result (known self.new ≡ known self.old) }
    {
        match is {
            Role::OwnTable { turn, shape } => {
                let table = acting.table(turn);
                let len = shape.len;
                self.put(block, Role::Table { table, len })
            }
            _ => Ok(()),
        }
    }

    /// A pair that is stored has its number.
    fn store(&mut self, block: u64, is: Role) -> Result<(), AllocError>
        requires { (known self.old).stored + 1 < 2 ^ 64 }
        ensures ok { OnOk result (known self.new ≡ stored_on block is (known self.old)) }
        ensures err { OnErr result (known self.new ≡ known self.old) }
    {
        match is {
            Role::OwnPair { .. } => self.put_pair(block),
            _ => Ok(()),
        }
    }

    /// A word of a table, which has so many places, names this block from now on.
    fn write_in_table(
        &mut self,
        acting: Acting,
        len: u64,
        field: u64,
        block: u64,
        is: Role,
    ) -> Result<(), AllocError>
        requires { (known self.old).stored + 1 < 2 ^ 64 }
        ensures ok { OnOk result (known self.new ≡ in_table_on acting len field block is (known self.old)) }
        ensures err { OnErr result (known self.new ≡ known self.old) }
    {
        if field == NEXT {
            self.link(acting, block, is)
        } else if is_place(len, field) {
            self.store(block, is)
        } else {
            Ok(())
        }
    }

    /// A word was written.
    fn write(&mut self, acting: Acting, at: At, old: u64, new: u64) -> Result<(), AllocError>
        requires { (known self.old).stored + 1 < 2 ^ 64 }
        ensures ok { OnOk result (known self.new ≡ written_on acting at old new (known self.old)) }
        ensures err { OnErr result (known self.new ≡ known self.old) }
    {
        if names_same(old, new) {
            return Ok(());
        }
        let is = self.named(new);
        let named = Link::block_of(new);
        match at {
            At::Root(_) => self.link(acting, named, is),
            At::Word(block, field) => match self.role_of(block) {
                Role::Table { len, .. } => self.write_in_table(acting, len, field, named, is),
                _ => Ok(()),
            },
            At::Used(_) | At::Slot(_, _) | At::Entry(_, _) => Ok(()),
        }
    }

    /// Keeps what an operation has changed.
    pub fn keep(&mut self, acting: Acting, changed: Changed) -> Result<(), AllocError>
        requires few { (known self.old).stored + 1 < 2 ^ 64 }
        requires number { HasNumber changed }
        ensures ok { OnOk result (known self.new ≡ known_after acting changed (known self.old)) }
        ensures err { OnErr result (known self.new ≡ known self.old) }
    {
        match changed {
            Changed::Wrote { at, old, new } => self.write(acting, at, old, new),
            Changed::Made { kind, block } => self.put(block, acting.made_role(kind)),
            Changed::Took { block } => self.put(block, Role::Free),
            Changed::Roomed { bucket, had: true } => {
                self.put_bucket(bucket);
                Ok(())
            }
            Changed::Roomed { had: false, .. } | Changed::Nothing | Changed::Unmade { .. } => Ok(
                (),
            ),
        }
    }
}

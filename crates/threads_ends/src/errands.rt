//! What the seat that owns a map is sent for: to make the map, and to end it.
ghost use Rattle.std.specs.Prelude.{◌≡◌, None, Some};
ghost use Rattle.threads_ends.specs.Ending.{HasEndedOwn, OwnsWith};
ghost use Rattle.threads_steps.specs.Given.ErrandsMaking.{HasOwnOutcome, MayBegin};
ghost use Rattle.threads_steps.specs.Given.ViewsDeclared.view.SeatWork.TheVariants.{Nothing as NoWork};
ghost use Rattle.seize_views.specs.declared.view.SlotView.TheVariants.{Rests};

use crate::ending::{Ender, begins};
use map_machines::NewMap;
use map_tables::{Hashes, Node, Setting};
use papaya_raw::machines::EndMap;
use seize_blocks::{Blocks, Errand, Seat};
use seize_words::Fault;
use threads_steps::{OfMaps, Within};

/// Makes a map of no table, which is the seat's own.
#[derive(Drop)]
pub struct MakesOwn<'h, S> {
    pub hasher: &'h S,
    pub opening: NewMap,
}

impl<'h, K: Eq + Drop, V: Drop, S: Hashes<K>> Errand<Node<K, V>, OfMaps<S>> for MakesOwn<'h, S> {
    type Answer = Result<Setting, Fault>;

    ghost asks = { λ m fixed v. MayBegin fixed m.opening × (v.slot ≡ Rests) × (v.work ≡ NoWork) × (v.own ≡ None) };

    ghost did = { λ m fixed v answer w. HasOwnOutcome m.hasher.now m.opening answer v w };

    fn run(
        self,
        blocks: &Blocks<Node<K, V>, OfMaps<S>>,
        seat: &mut Seat<Node<K, V>, OfMaps<S>>,
    ) -> Result<Setting, Fault> {
        let MakesOwn { hasher, opening } = self;
        let mut within = Within::new(blocks, seat, 0);
        within.makes_map(true, hasher, opening)
    }
}

/// Ends the map that is the seat's own, of this setting, while others go on on other maps: the pairs that are in it are let go of, and those that its tables carry, which
/// sections may hold, wait at its root.
#[derive(Drop)]
pub struct EndsOwn {
    pub setting: Setting,
}

impl<K: Eq + Drop, V: Drop, S: Hashes<K>> Errand<Node<K, V>, OfMaps<S>> for EndsOwn {
    type Answer = ();

    ghost asks = { λ e fixed v. (v.slot ≡ Rests) × (v.work ≡ NoWork) × OwnsWith e.setting v };

    ghost did = { λ e fixed v answer w. HasEndedOwn v w };

    fn run(self, blocks: &Blocks<Node<K, V>, OfMaps<S>>, seat: &mut Seat<Node<K, V>, OfMaps<S>>) {
        let EndsOwn { setting } = self;
        begins(blocks, seat);
        let within = Within::new(blocks, seat, 0);
        let mut ender = Ender { within };
        ender.ends_by(EndMap::new(setting, false));
    }
}

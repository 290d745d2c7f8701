//! A seat looks at a word while it leans on the one that has set it, which is lent for that: the word stays, and is cleared once nobody leans on its seat.
ghost use Rattle.std.specs.Prelude.{◌≡◌, true};
ghost use Rattle.seize_tests.specs.declared.part.Part.TheVariants.{Nothing, Keeps};

use crate::part::Part;
use seize_blocks::{Blocks, ErrandWith, Home, Lesson, Rule, Seat, Turn};
use seize_words::At;
use std::test::Fail;
use std::thread;
use std::thread::Threads;

/// The first root is set by one seat at a time, and stays as long as another one looks at it.
struct Lent;

impl Rule<u64> for Lent {
    ghost use Rattle.seize_tests.specs.BlocksTests.Leaned.{IsLeaned, IsUpright, Leans, leaned};
    ghost use Rattle.seize_tests.specs.BlocksTests.Leaning.{leaning_stay, resting_stay, upright};

    type View = Part;

    type Fixed = ();

    ghost World = { Unit {0} };

    ghost holds = { λ _. IsLeaned };

    ghost keeps = { λ _ _ _ _. ⊥ };

    ghost then = { leaned };

    ghost newcomer = { λ _. Nothing };

    ghost rests = { IsUpright };

    ghost newcomers_rest = { λ _. tt };

    ghost resting_stay = { resting_stay };

    ghost leans = { Leans };

    ghost upright = { upright };

    ghost leaning_stay = { leaning_stay };
}

/// It comes to look.
struct Looking;

impl Lesson<(), Part> for Looking {
    ghost use Rattle.seize_tests.specs.declared.part.Part.TheVariants.{Looks};

    ghost to = { λ _ _ n _ w. w ≡ Looks n };
}

/// It has looked.
struct Ending;

impl Turn<(), Part> for Ending {
    ghost to = { λ _ _ w. w ≡ Nothing };
}

/// It is to clear the word.
struct Clearing;

impl Turn<(), Part> for Clearing {
    ghost use Rattle.seize_tests.specs.declared.part.Part.TheVariants.{Clears};

    ghost to = { λ _ _ w. w ≡ Clears };
}

/// Looks at the word that this seat has set.
struct Look<'k> {
    keeper: &'k Seat<u64, Lent>,
}

impl<'k> ErrandWith<u64, Lent> for Look<'k> {
    type Answer = u64;

    ghost asks = { λ s name _ lent u v. (s.keeper.now.base ≡ name) × (s.keeper.now.id ≡ lent) × (s.keeper.now.view ≡ Keeps) × (v ≡ Nothing) };

    ghost did = { λ _ _ _ answer w. (answer ≡ 1) × (w ≡ Nothing) };

    fn run(self, blocks: &Blocks<u64, Lent>, seat: &mut Seat<u64, Lent>) -> u64 {
        let Self { keeper } = self;
        blocks.learn::<Looking>(seat, keeper);
        let found = blocks.load(seat, At::Root(0));
        blocks.turn::<Ending>(seat);
        found
    }
}

/// Looks at the word that a seat has set, by a seat of its own.
fn looks(blocks: &Blocks<u64, Lent>, keeper: &Seat<u64, Lent>) -> u64
    requires { (keeper.now.base ≡ blocks.now.words.id.views_name) × (keeper.now.view ≡ Keeps) }
    ensures { result ≡ 1 }
{
    let mut seat = blocks.seat();
    blocks.errand_with(&mut seat, keeper, Look { keeper })
}

/// Sets the word by a seat that knows nothing, unless another one has set it.
fn takes(blocks: &Blocks<u64, Lent>, keeper: &mut Seat<u64, Lent>) -> bool
    requires { (keeper.old.base ≡ blocks.now.words.id.views_name) × (keeper.old.view ≡ Nothing) }
    ensures base { keeper.new.base ≡ keeper.old.base }
    ensures set { result ≡ true → keeper.new.view ≡ Keeps }
{
    match blocks.exchange(keeper, At::Root(0), 0, 1) {
        Ok(_) => true,
        Err(_) => false,
    }
}

/// Clears it, by the seat that has set it, once nobody leans on that.
fn clears(blocks: &Blocks<u64, Lent>, keeper: &mut Seat<u64, Lent>)
    requires { (keeper.old.base ≡ blocks.now.words.id.views_name) × (keeper.old.view ≡ Keeps) }
{
    blocks.part::<Clearing>(keeper);
    blocks.store(keeper, At::Root(0), 0);
}

/// Sets the word, has it looked at by two threads at a time, and clears it. Where another one has set it this does nothing.
fn sets<R: Threads + Sync>(rt: &R, blocks: &Blocks<u64, Lent>) -> bool {
    let mut keeper = blocks.seat();
    if !takes(blocks, &mut keeper) {
        return false;
    }
    thread::join(rt, || looks(blocks, &keeper), || looks(blocks, &keeper));
    clears(blocks, &mut keeper);
    true
}

/// Does so so many times, and says whether it has set the word.
fn some_set<R: Threads + Sync>(rt: &R, blocks: &Blocks<u64, Lent>, times: u64) -> bool {
    let mut some = false;
    for _ in 0..times {
        if sets(rt, blocks) {
            some = true;
        }
    }
    some
}

// Were one thread served after the other, this would pass as well: that the word is 1 whenever it is looked at is proved.
#[test]
fn a_word_stays_as_long_as_it_is_looked_at(rt: HostRuntime) -> Result<(), Fail> {
    let home = Home::<u64, Lent>::open(rt.alloc(), 1, 0, &())?;
    let blocks = &home.blocks;
    let (one, other) = thread::join(
        &rt,
        || some_set(&rt, blocks, 200),
        || some_set(&rt, blocks, 200),
    );
    assert!(rt; one || other);
    assert!(rt; sets(&rt, blocks));
    Ok(())
}

//! Sweeps that remove pairs from one owner's map, run to their ends.
ghost use Rattle.std.specs.Prelude.{◌≡◌, List, [], IfErr, OnOk, OnErr, length};
ghost use Rattle.owner_whole.specs.Given.LateFaults.{IsRoom};
ghost use Rattle.papaya_raw.specs.Given.ReservesDeclared.sweep.Purpose.TheVariants.{Clears, Retains};
ghost use Rattle.map_straight.specs.Shown.Chain.{CannotGrowIn};
ghost use Rattle.owner_calls.specs.Owned.Owned.{Holds};
ghost use Rattle.owner_calls.specs.Sifts.Retaining.{KeepsOf};
ghost use Rattle.owner_calls.specs.Sifts.Sweeping.{HasSwept};
ghost use Rattle.seize_words.specs.declared.fault.Fault.TheVariants.{Capacity};

use crate::sweeping::{OverPairs, Pause};
use crate::{pair_at, run};
use map_tables::{Hashes, Node, Setting};
use papaya_raw::machines::Sweep;
use seize_words::{Fault, Plain};
use std::hash::Hash;

/// Removes all pairs. The faults are `Fault::Capacity`, where no table can follow the map's last one, and `Fault::Memory`: a growth that was under way
/// could not be seen through. Then no pair has changed.
pub fn empty<K: Eq + Hash + Drop, V: Drop, S: Hashes<K>>(
    memory: &mut Plain<Node<K, V>>,
    setting: Setting,
    hasher: &S,
) -> Result<(), Fault>
    requires { (xs : List (K × V)) × Holds K.eq (S.hash hasher.now) setting memory.old xs }
    ensures done { (xs : List (K × V)) → Holds K.eq (S.hash hasher.now) setting memory.old xs → OnOk result (Holds K.eq (S.hash hasher.now) setting memory.new []) }
    ensures refused { (xs : List (K × V)) → Holds K.eq (S.hash hasher.now) setting memory.old xs → OnErr result (Holds K.eq (S.hash hasher.now) setting memory.new xs) }
    ensures fault { IfErr result IsRoom }
    ensures capacity { (xs : List (K × V)) → Holds K.eq (S.hash hasher.now) setting memory.old xs → IfErr result (λ fault. fault ≡ Capacity → CannotGrowIn memory.new setting) }
    ensures ran { HasSwept S.hash hasher.entry setting Clears memory.old memory.new result }
{
    let sweep = Sweep::clear(setting);
    let mut machine = OverPairs { sweep, hasher };
    match run(&mut machine, memory) {
        Ok(_) => Ok(()),
        Err(fault) => Err(fault),
    }
}

/// Keeps just the pairs about which the closure answers `true`. It is asked about each of the map's pairs once, of which there are so many.
/// The faults are `Fault::Capacity`, where no table can follow the map's last one, and `Fault::Memory`: a growth that was under way could not be seen
/// through. Then no pair has changed.
pub fn sift<K: Eq + Hash + Drop, V: Drop, S: Hashes<K>, F: FnMut(&K, &V) -> bool>(
    memory: &mut Plain<Node<K, V>>,
    setting: Setting,
    hasher: &S,
    pairs: u64,
    mut keep: F,
) -> Result<(), Fault>
    requires callable { F.IsAlwaysCallable keep }
    requires holds { (xs : List (K × V)) × Holds K.eq (S.hash hasher.now) setting memory.old xs }
    requires pairs { (xs : List (K × V)) → Holds K.eq (S.hash hasher.now) setting memory.old xs → pairs ≡ length xs }
    ensures done { (xs : List (K × V)) → Holds K.eq (S.hash hasher.now) setting memory.old xs
        → OnOk result ((kept : List (K × V)) × KeepsOf F.FnMut keep xs kept × Holds K.eq (S.hash hasher.now) setting memory.new kept) }
    ensures refused { (xs : List (K × V)) → Holds K.eq (S.hash hasher.now) setting memory.old xs → OnErr result (Holds K.eq (S.hash hasher.now) setting memory.new xs) }
    ensures fault { IfErr result IsRoom }
    ensures capacity { (xs : List (K × V)) → Holds K.eq (S.hash hasher.now) setting memory.old xs → IfErr result (λ fault. fault ≡ Capacity → CannotGrowIn memory.new setting) }
    ensures ran { HasSwept S.hash hasher.entry setting Retains memory.old memory.new result }
{
    let sweep = Sweep::retain(setting);
    let mut machine = OverPairs { sweep, hasher };
    let mut left = pairs;
    loop {
        match run(&mut machine, memory) {
            Ok(Pause::Asks(word)) => {
                let (key, value) = pair_at(memory, word);
                let keeps = keep(key, value);
                machine.sweep.reply(keeps);
                left -= 1;
            }
            Ok(Pause::Ended) => return Ok(()),
            Ok(Pause::Ready) => unreachable!(),
            Ok(Pause::Shows(_)) => unreachable!(),
            Err(fault) => return Err(fault),
        }
    }
}

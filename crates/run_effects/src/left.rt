//! The pairs that are in a memory still, of those that were stored.
ghost use Rattle.std.specs.Prelude.{◌≡◌, ◌≢◌, ◌≤◌, ℕ, Some, IfOk};
ghost use Rattle.run_schedules.specs.Given.SeizeWordsMem.{value_at};
ghost use Rattle.run_schedules.specs.Given.TablesDeclared.node.Node.TheVariants as node;
ghost use Rattle.run_effects.specs.Effects.Known.{known};
ghost use Rattle.run_effects.specs.declared.role.Role.TheVariants.{Free};
ghost use Rattle.run_effects.specs.Tallies.Left.{HoldPairs, noted_below};

use crate::notes::Notes;
use crate::role::Role;
use run_schedules::ended::Pair;
use run_schedules::{Memory, Node, Plain};
use std::alloc::{AllocError, Global};

/// Takes the pair of this number out of its block.
fn take_pair<K: Drop, V: Drop>(
    memory: &mut Plain<Node<K, V>>,
    block: u64,
    number: u64,
) -> Pair<K, V>
    requires { (k : K) × (v : V) × (value_at memory.old block ≡ Some (node.Pair k v)) }
    ensures pair { (k : K) (v : V) → value_at memory.old block ≡ Some (node.Pair k v) → result ≡ record { number = number; key = k; value = v } }
    ensures others { (b : ℕ) → b ≢ block → value_at memory.new b ≡ value_at memory.old b }
{
    let Node::Pair(key, value) = memory.take(block) else {
        unreachable!()
    };
    Pair { number, key, value }
}

/// Returns the pairs that are in a memory still, of those that were stored, by its notes.
pub fn pairs_left<K: Drop, V: Drop>(
    alloc: Global,
    mut memory: Plain<Node<K, V>>,
    notes: &Notes,
) -> Result<Vec<Pair<K, V>>, AllocError>
    requires { HoldPairs (known notes.now).roles (value_at memory) }
    ensures { IfOk result (λ pairs. (blocks : ℕ) × ((b : ℕ) → blocks ≤ b → (known notes.now).roles b ≡ Free) × (pairs.items ≡ noted_below (known notes.now).roles (value_at memory) blocks)) }
{
    let mut pairs = Vec::new(alloc);
    for block in 0..notes.blocks() {
        if let Role::Pair(number) = notes.role_of(block) {
            let pair = take_pair(&mut memory, block, number);
            pairs.push(pair)?;
        }
    }
    Ok(pairs)
}

//! What is noted of the memory of a run: what each block is, how many pairs were stored, and how many buckets of slots there are.
ghost use Rattle.std.specs.Prelude.{◌≡◌, ◌<◌, ◌≤◌, ◌+◌, ◌^◌, ℕ, length, slice_index_or, OnOk, OnErr};
ghost use Rattle.run_effects.specs.Effects.Known.{known, nothing_known, with_role, with_pair, with_bucket};
ghost use Rattle.run_effects.specs.declared.role.Role.TheVariants.{Free};

use crate::role::Role;
use std::alloc::{AllocError, Global};

/// What is noted of the memory of a run. What a block is, is found by its number.
#[derive(Drop)]
pub struct Notes {
    roles: Vec<Role>,
    stored: u64,
    buckets: u64,
}

/// Makes room for the role of a block. Each role stays as it is.
fn reach(roles: &mut Vec<Role>, block: u64) -> Result<(), AllocError>
    ensures room { OnOk result (block < length roles.new.items) }
    ensures same { (b : ℕ) → slice_index_or roles.new.items b Free ≡ slice_index_or roles.old.items b Free }
{
    while roles.len() <= block as usize {
        roles.push(Role::Free)?;
    }
    Ok(())
}

impl Notes {
    /// Begins where nothing is there.
    pub fn nothing(alloc: Global) -> Self
        ensures { known result ≡ nothing_known }
    {
        Notes {
            roles: Vec::new(alloc),
            stored: 0,
            buckets: 0,
        }
    }

    /// Returns what a block is.
    pub fn role_of(&self, block: u64) -> Role
        ensures { result ≡ (known self.now).roles block }
    {
        self.roles
            .get(block as usize)
            .copied()
            .unwrap_or(Role::Free)
    }

    /// Returns the number from which on there is no block.
    pub fn blocks(&self) -> u64
        ensures { (b : ℕ) → result ≤ b → (known self.now).roles b ≡ Free }
    {
        self.roles.len() as u64
    }

    /// Returns how many pairs were stored.
    pub fn stored(&self) -> u64
        ensures { result ≡ (known self.now).stored }
    {
        self.stored
    }

    /// Returns how many buckets of slots there are.
    pub fn buckets(&self) -> u64
        ensures { result ≡ (known self.now).buckets }
    {
        self.buckets
    }

    /// Notes what the block is from now on.
    pub fn put(&mut self, block: u64, role: Role) -> Result<(), AllocError>
        ensures ok { OnOk result (known self.new ≡ with_role block role (known self.old)) }
        ensures err { OnErr result (known self.new ≡ known self.old) }
    {
        reach(&mut self.roles, block)?;
        self.roles[block as usize] = role;
        Ok(())
    }

    /// Notes that the block is the pair that is stored next.
    pub fn put_pair(&mut self, block: u64) -> Result<(), AllocError>
        requires { (known self.old).stored + 1 < 2 ^ 64 }
        ensures ok { OnOk result (known self.new ≡ with_pair block (known self.old)) }
        ensures err { OnErr result (known self.new ≡ known self.old) }
    {
        self.put(block, Role::Pair(self.stored + 1))?;
        self.stored += 1;
        Ok(())
    }

    /// Notes that the bucket is there.
    pub fn put_bucket(&mut self, bucket: u64)
        requires { bucket + 1 < 2 ^ 64 }
        ensures { known self.new ≡ with_bucket bucket (known self.old) }
    {
        if self.buckets <= bucket {
            self.buckets = bucket + 1;
        }
    }
}

//! Memory for words, places and doors, with the right to give it back.
ghost use Rattle.std.specs.Prelude.{◌≡◌, ℕ, None, length, slice_index, slice_index_or, IfOk};
ghost use denote.RawPtr.{null_ptr};
ghost use Rattle.core.specs.Mem.Slots.{slots_ptr, slots_len, lease_ptr, lease_len, lease_heap};
ghost use Rattle.core.specs.Mem.Slots.Ownership.{Filled};

use crate::filling::{empty, fill, shut};
use crate::row::Row;
use core::slots::{Lease, Slots, release, reserve};
use std::alloc::{AllocError, Global};
use std::ptr::null_mut;

/// The right to give memory back.
pub struct Ground<E> {
    pub alloc: Global,
    pub lease: Lease<E, Global>,
    pub ghost leased: { lease_heap lease ≡ alloc },
}

/// Lays as many words, each 0, with the right to give them back.
pub fn lay(alloc: Global, count: usize) -> Result<(Row<u64>, Ground<u64>), AllocError>
    ensures zeros { IfOk result (λ p. ((k : ℕ) → slice_index p.0.items k ≡ 0) × (length p.0.items ≡ count)) }
    ensures full { IfOk result (λ p. Filled p.0.filled 0 (length p.0.items)) }
    ensures lease { IfOk result (λ p. (lease_ptr p.1.lease ≡ p.0.at) × (lease_len p.1.lease ≡ count)) }
{
    let like = vec![in alloc; 0; count]?;
    let (mut slots, lease) = (unsafe { reserve(&alloc, like.as_slice()) })?;
    fill(&mut slots, count);
    Ok((Row::of(slots), Ground { alloc, lease }))
}

/// As many times none.
fn nones<T: Drop>(alloc: Global, count: usize) -> Result<Vec<Option<T>>, AllocError>
    ensures { IfOk result (λ v. length v.items ≡ count) }
{
    let mut all = Vec::with_capacity(alloc, count)?;
    for _ in 0..count {
        all.push(None)?;
    }
    Ok(all)
}

/// Lays as many places, each of which holds none, with the right to give them back.
pub fn lay_empty<T: Drop>(
    alloc: Global,
    count: usize,
) -> Result<(Row<Option<T>>, Ground<Option<T>>), AllocError>
    ensures nones { IfOk result (λ p. ((k : ℕ) → slice_index_or p.0.items k None ≡ None) × (length p.0.items ≡ count)) }
    ensures full { IfOk result (λ p. Filled p.0.filled 0 (length p.0.items)) }
    ensures lease { IfOk result (λ p. (lease_ptr p.1.lease ≡ p.0.at) × (lease_len p.1.lease ≡ count)) }
{
    let like = nones::<T>(alloc, count)?;
    let (mut slots, lease) = (unsafe { reserve(&alloc, like.as_slice()) })?;
    empty(&mut slots, count);
    Ok((Row::of(slots), Ground { alloc, lease }))
}

/// So many times no address.
fn no_addresses(alloc: Global, count: usize) -> Result<Vec<*mut u64>, AllocError>
    ensures { IfOk result (λ v. length v.items ≡ count) }
{
    let mut all = Vec::with_capacity(alloc, count)?;
    for _ in 0..count {
        all.push(null_mut())?;
    }
    Ok(all)
}

/// Lays doors, each of them null, with the right to give them back.
pub fn lay_doors(
    alloc: Global,
    count: usize,
) -> Result<(Row<*mut u64>, Ground<*mut u64>), AllocError>
    ensures nulls { IfOk result (λ p. ((k : ℕ) → slice_index_or p.0.items k null_ptr ≡ null_ptr) × (length p.0.items ≡ count)) }
    ensures full { IfOk result (λ p. Filled p.0.filled 0 (length p.0.items)) }
    ensures lease { IfOk result (λ p. (lease_ptr p.1.lease ≡ p.0.at) × (lease_len p.1.lease ≡ count)) }
{
    let like = no_addresses(alloc, count)?;
    let (mut slots, lease) = (unsafe { reserve(&alloc, like.as_slice()) })?;
    shut(&mut slots, count);
    Ok((Row::of(slots), Ground { alloc, lease }))
}

/// Gives memory back.
pub fn give_back<E>(ground: Ground<E>, slots: Slots<E>)
    requires { (lease_ptr ground.lease ≡ slots_ptr slots) × (lease_len ground.lease ≡ slots_len slots) }
{
    let Ground { alloc, lease } = ground;
    release(&alloc, slots, lease);
}

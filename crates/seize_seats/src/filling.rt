//! Places of a row are filled one by one.
ghost use Rattle.std.specs.Prelude.{◌≡◌, ℕ, None, slice_index, slice_index_or};
ghost use denote.RawPtr.{null_ptr};
ghost use Rattle.core.specs.Mem.Slots.{slots_items, slots_ptr, slots_len, IsFull};

use core::slots::Slots;
use std::ptr::null_mut;

/// Writes 0 into each place.
pub fn fill(slots: &mut Slots<u64>, count: usize)
    requires { slots_len slots.old ≡ count }
    ensures full { IsFull slots.new }
    ensures zeros { (k : ℕ) → slice_index (slots_items slots.new) k ≡ 0 }
    ensures same { (slots_ptr slots.new ≡ slots_ptr slots.old) × (slots_len slots.new ≡ slots_len slots.old) }
{
    for index in 0..count {
        slots.put(index, 0);
    }
}

/// Makes each place hold none.
pub fn empty<T>(slots: &mut Slots<Option<T>>, count: usize)
    requires { slots_len slots.old ≡ count }
    ensures full { IsFull slots.new }
    ensures nones { (k : ℕ) → slice_index_or (slots_items slots.new) k None ≡ None }
    ensures same { (slots_ptr slots.new ≡ slots_ptr slots.old) × (slots_len slots.new ≡ slots_len slots.old) }
{
    for index in 0..count {
        slots.put(index, None);
    }
}

/// Each place holds no address.
pub(crate) fn shut(slots: &mut Slots<*mut u64>, count: usize)
    requires { slots_len slots.old ≡ count }
    ensures full { IsFull slots.new }
    ensures nulls { (k : ℕ) → slice_index_or (slots_items slots.new) k null_ptr ≡ null_ptr }
    ensures same { (slots_ptr slots.new ≡ slots_ptr slots.old) × (slots_len slots.new ≡ slots_len slots.old) }
{
    for index in 0..count {
        slots.put(index, null_mut());
    }
}

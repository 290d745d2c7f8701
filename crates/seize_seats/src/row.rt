//! Places for values side by side, which are had by their address alone.
ghost use Rattle.std.specs.Prelude.{◌≡◌, Bool, List, length};
ghost use Rattle.core.specs.Mem.Slots.{slots_items, slots_filled, slots_ptr, slots_len, IsFull};
ghost use Rattle.core.specs.Mem.Slots.Ownership.{owned, Filled};
ghost use Rattle.seize_seats.specs.Seats.Plots.{AreEmpty};

use core::slots::Slots;
use std::marker::Model;

/// The places of slots.
pub struct Row<T> {
    pub at: *mut T,
    pub ghost items: { List T },
    pub ghost filled: { List Bool },
    ghost even: { length filled ≡ length items },
}

impl<T> Model for Row<T> {
    ghost also_owns = { λ s. owned T.row s.at (length s.items) s.items s.filled };
}

impl<T> Row<T> {
    /// Returns the places of these slots.
    pub fn of(slots: Slots<T>) -> Row<T>
        ensures { (result.at ≡ slots_ptr slots) × (result.items ≡ slots_items slots) × (length result.items ≡ slots_len slots)
            × (IsFull slots → Filled result.filled 0 (length result.items))
            × (AreEmpty (slots_filled slots) (slots_len slots) → AreEmpty result.filled (length result.items)) }
    {
        let parts = unsafe { slots.into_raw_parts() };
        Row { at: parts.0 }
    }

    /// Returns the slots again.
    pub fn into_slots(self, len: usize) -> Slots<T>
        requires { len ≡ length self.items }
        ensures { (slots_ptr result ≡ self.at) × (slots_len result ≡ len) × (slots_items result ≡ self.items)
            × (Filled self.filled 0 (length self.items) → IsFull result) }
    {
        let Row { at } = self;
        unsafe { Slots::from_raw_parts(at, len) }
    }
}

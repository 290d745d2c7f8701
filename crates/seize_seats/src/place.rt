//! Where the values of blocks lie, and where the doors do.
ghost use Rattle.seize_seats.specs.Plots.Somewhere.{AreBeside};

use crate::kept::Kept;

/// The address of the first of the places for values.
#[derive(Drop)]
pub struct ValuePlaces<T> {
    pub at: *mut Option<Kept<T>>,
}

/// The address of the first of the doors, behind which further strips of numbers lie.
#[derive(Drop)]
pub struct Doors {
    pub at: *mut *mut u64,
}

/// The address of words.
#[derive(Drop)]
pub struct Address {
    pub at: *mut u64,
}

/// Where words of a block's own lie, and how many they are.
#[derive(Drop)]
pub struct Beside {
    pub at: *mut u64,
    pub count: u64,
    pub ghost beside: { AreBeside at count },
}

unsafe impl Send for Doors {}

unsafe impl Sync for Doors {}

unsafe impl<T> Send for ValuePlaces<T> {}

unsafe impl<T> Sync for ValuePlaces<T> {}

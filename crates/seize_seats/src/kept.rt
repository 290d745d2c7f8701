//! What is kept of a block in its place.
ghost use Rattle.seize_seats.specs.Plots.Somewhere.{AreBeside};

/// The value of a block, with the address of its own words and how many they are: null and 0 where it has none.
#[derive(Drop)]
pub struct Kept<T> {
    pub value: T,
    pub at: *mut u64,
    pub count: u64,
    pub ghost beside: { AreBeside at count },
}

unsafe impl<T: Send> Send for Kept<T> {}

unsafe impl<T: Sync> Sync for Kept<T> {}

//! What is read back of what a map or a set was written as equals it.
ghost use Rattle.papaya_seq.specs.ReadBack.{OneArrayOneSet, OneObjectOneMap};

/// Sets that one array has are equal: what is read of the array that a set was written as equals that set.
pub fn sets_are_read_back<K>()
    ensures { OneArrayOneSet K }
{}

/// Maps that one object has are equal: what is read of the object that a map was written as equals that map.
pub fn maps_are_read_back<K, V>()
    ensures { OneObjectOneMap K V }
{}

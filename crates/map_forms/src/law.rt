//! What is promised of pairs as the members of a JSON object, and of elements as the items of an array.
ghost use Rattle.map_forms.specs.ArrayLaws.{ArraysAreOne, ArraysTell, ArraysHaveNoOrder};
ghost use Rattle.map_forms.specs.Objects.{ObjectsHaveTheirPairs, ObjectsHaveNoOrder};

/// What pairs make that are put among no members one after another, where no two keys have the same text, is the object of just these pairs. In which order
/// they are put makes no difference.
pub fn objects_have_their_pairs<K, V>()
    ensures pairs { ObjectsHaveTheirPairs K V }
    ensures order { ObjectsHaveNoOrder K V }
{}

/// Elements with the same values are written as one array, and what is read of an array has the values of what it was written of. In which order elements
/// are listed makes no difference.
pub fn arrays_have_their_elements<K>()
    ensures one { ArraysAreOne K }
    ensures told { ArraysTell K }
    ensures order { ArraysHaveNoOrder K }
{}

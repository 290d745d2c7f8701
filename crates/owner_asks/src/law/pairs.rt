//! What is promised of the pairs of a map and the elements of a set: in another order, as after a change, and of what is found then.
ghost use Rattle.owner_asks.specs.Pairs.Each.{FoundPasses};
ghost use Rattle.owner_asks.specs.Pairs.Elements.{ElementInAnyOrder, ElementsApartInAnyOrder, LeftElementsInAnyOrder, OtherElementsStay, PutElementIsFound};
ghost use Rattle.owner_asks.specs.Pairs.Equals.{AgreeAtEachKey, AgreeInAnyOrder};
ghost use Rattle.owner_asks.specs.Pairs.Puts.{LastIsFound};
ghost use Rattle.owner_asks.specs.Pairs.Orders.{FoundInAnyOrder, LeftInAnyOrder, ApartInAnyOrder, PutIsFound, OthersStay};

/// Where no two keys are equal, the pair of a key is the same one in any order. So is what is left without it, but for the order, and no two
/// keys are equal there.
pub fn order_makes_no_difference<K, V>()
    ensures found { FoundInAnyOrder K V }
    ensures left { LeftInAnyOrder K V }
    ensures apart { ApartInAnyOrder K V }
{}

/// Maps are equal just where they have pairs with equal values at the same keys, also in another order.
pub fn equality_is_of_pairs<K, V>()
    ensures each { AgreeAtEachKey K V }
    ensures in_any_order { AgreeInAnyOrder K V }
{}

/// Of pairs that are put one after another, the last of each key is found.
pub fn the_last_is_found<K, V>()
    ensures { LastIsFound K V }
{}

/// A pair that was put in the place of that of its key is found by its key, and by other keys is found what was found before. Where a pair was
/// removed, none is found by its key, and by other keys what was found before.
pub fn changes_are_found<K, V>()
    ensures put { PutIsFound K V }
    ensures others { OthersStay K V }
{}

/// The pair that is found has a key that passes the test. What holds of every pair is kept by each call: the lemmas of `specs/Each` say so of any property.
pub fn what_is_found_passes<K, V>()
    ensures { FoundPasses K V }
{}

/// Where no two elements are equal, the same one of a class is found in any order. So is what is left without those that pass, but for the order, and
/// no two are equal there.
pub fn order_of_elements_makes_no_difference<K>()
    ensures found { ElementInAnyOrder K }
    ensures left { LeftElementsInAnyOrder K }
    ensures apart { ElementsApartInAnyOrder K }
{}

/// An element that was put in the place of the one that equals it is found, and by other tests is found what was found before. Where one was removed,
/// none is found that equals it, and by other tests what was found before.
pub fn changes_of_elements_are_found<K>()
    ensures put { PutElementIsFound K }
    ensures others { OtherElementsStay K }
{}

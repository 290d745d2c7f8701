//! What is promised of the places of words.
ghost use Rattle.seize_seats.specs.Seats.Laws.{WordsLie, WordsAreApart, EntriesLie, EntriesAreApart};

/// Each word of a memory lies at a place of its own: another word there is another word of its name, and leaves all others as they were.
pub fn words_have_places_of_their_own<T>()
    ensures lie { WordsLie T }
    ensures apart { WordsAreApart T }
    ensures entries_lie { EntriesLie T }
    ensures entries_apart { EntriesAreApart T }
{}

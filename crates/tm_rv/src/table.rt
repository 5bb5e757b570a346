//! What holds of the table as a whole.

ghost use Rattle.tm_rv.specs.Laws.{NoWordInTwoRows};

/// No word belongs to two rows of a set's table, so that it doesn't matter in which order they are tried.
pub fn no_word_in_two_rows()
    ensures { NoWordInTwoRows }
{}

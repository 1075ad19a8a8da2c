//! Laws of the definitions that the contracts cite.
ghost use Rattle.bool_functions.specs.Laws.{OneTree, ReadByGrammar, BoundIsLeast, RenamedValues, OwnNames, RenamedTexts};
ghost use Rattle.bool_functions.specs.Laws.{JoinedTexts, WordTexts};

/// No text has two trees over one list of names.
pub fn one_tree()
    ensures { OneTree }
{}

/// What the definition of reading gives is told by the grammar: each text has exactly one tree or one fault.
pub fn read_by_grammar()
    ensures { ReadByGrammar }
{}

/// The bound of a tree is the least number above those of all names that are written in it.
pub fn bound_is_least()
    ensures { BoundIsLeast }
{}

/// A renamed function has the value that the function has where each name has the value of its new name.
pub fn renamed_values()
    ensures { RenamedValues }
{}

/// The names that a text is read with by itself are distinct, and are the names that stand in it.
pub fn own_names()
    ensures { OwnNames }
{}

/// Symbols in which each name has a new number are those of the renamed function.
pub fn renamed_texts()
    ensures { RenamedTexts }
{}

/// The symbols of two texts together are those of each, where no name or number goes on from the one into the other.
pub fn joined_texts()
    ensures { JoinedTexts }
{}

/// A text of letters, digits and `_` alone is one symbol.
pub fn word_texts()
    ensures { WordTexts }
{}

//! Laws of the definitions that the contracts cite.
ghost use Rattle.bus_texts.specs.Laws.{RewrittenSymbols, RewrittenTree, RunningTexts};

/// The symbols of a rewritten text are those of the text with its names replaced, where no name follows a number at once.
pub fn rewritten_symbols()
    ensures { RewrittenSymbols }
{}

/// A rewritten text has the tree of the text with its names replaced.
pub fn rewritten_tree()
    ensures { RewrittenTree }
{}

/// A text in which a number runs into a name is no function text, whatever its names become.
pub fn running_texts()
    ensures { RunningTexts }
{}

//! Theorems on the definitions, for the proofs of other crates. The functions do nothing of their own.

ghost use Rattle.library_audit.specs.Laws.{SameLineIsMatch, DoneIsMatch};

use table_audit::same_is_matching;

/// The line of an accepted cell says `same` exactly where none of the cell's outputs may float and the Verilog file has a module
/// with its name that matches it: its parts are the cell's, and its tables give the cell's values for all arguments.
pub fn same_line_is_match()
    ensures { SameLineIsMatch }
{
    same_is_matching();
}

/// Comparing a library with a Verilog file is done exactly where both are read and each accepted cell has such a module, those
/// left out whose outputs may float.
pub fn done_is_match()
    ensures { DoneIsMatch }
{
    same_is_matching();
}

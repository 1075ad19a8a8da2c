//! Theorems on the definitions, for the proofs of other crates. The functions do nothing.

ghost use Rattle.audited_modules.specs.Laws.{MatchingModulesFit, AuditedModulesAgree};
ghost use Rattle.audited_modules.specs.Laws.{GeneratedModulesMatch, GeneratedModulesAreSame, DifferencesAreUnlike};

/// A sound module that matches a cell fits it.
pub fn matching_modules_fit()
    ensures { MatchingModulesFit }
{}

/// Where the comparison of a sound module with a cell finds them the same, the module has the cell's trace for every list of
/// changes of inputs at rising times, and its states after each change are the cell's.
pub fn audited_modules_agree()
    ensures { AuditedModulesAgree }
{}

/// The module that is generated for a cell matches it.
pub fn generated_modules_match()
    ensures { GeneratedModulesMatch }
{}

/// The comparison of a cell with the module that is generated for it finds them the same.
pub fn generated_modules_are_same()
    ensures { GeneratedModulesAreSame }
{}

/// Where the comparison answers a difference, the module has the cell's shape, and the difference is one of the arguments that
/// are compared, with what the cell and the module give there, which are unlike.
pub fn differences_are_unlike()
    ensures { DifferencesAreUnlike }
{}

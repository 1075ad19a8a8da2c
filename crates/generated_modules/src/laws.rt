//! Theorems on the definitions, for the proofs of other crates. The functions do nothing.

ghost use Rattle.generated_modules.specs.Laws.{ModuleIsWellFormed, ModulesAreWellFormed, AcceptedAreOfOneLibrary};
ghost use Rattle.generated_modules.specs.Laws.{AcceptedModulesAreWellFormed};

/// The module that is generated for a cell is well formed: it is sound, its names are identifiers and no words, of which none
/// stands twice, its primitives have as many inputs and rows as the language allows, and its numbers have at most 15 digits.
pub fn module_is_well_formed()
    ensures { ModuleIsWellFormed }
{}

/// The list of the modules of cells of one library is well formed: each module is, and no two of all their primitives and
/// modules share a name.
pub fn modules_are_well_formed()
    ensures { ModulesAreWellFormed }
{}

/// The cells of a library that are accepted, numbered by their places, keep the rules of cells, and no two of them have one name
/// or one number.
pub fn accepted_are_of_one_library()
    ensures { AcceptedAreOfOneLibrary }
{}

/// The list of the modules of the cells of a library that are accepted is well formed.
pub fn accepted_modules_are_well_formed()
    ensures { AcceptedModulesAreWellFormed }
{}

//! Theorems on the definitions, for the proofs of other crates. The functions do nothing.

ghost use Rattle.generated_entities.specs.Laws.{EntityIsWellFormed, EntitiesAreWellFormed};

/// The entity that is generated for a cell, with the name that `entity_name` gives it behind any others, is well formed: it is
/// sound, its names are identifiers and no words, of which none stands twice whatever the case of its letters, its tables have
/// rows and columns, its conditions are looked up in order, and its numbers have at most 15 digits.
pub fn entity_is_well_formed()
    ensures { EntityIsWellFormed }
{}

/// The list of the entities of cells of one library, each with the name that `entity_name` gives it behind those before it, is
/// well formed: each entity is, and no two share a name, whatever the case of its letters.
pub fn entities_are_well_formed()
    ensures { EntitiesAreWellFormed }
{}

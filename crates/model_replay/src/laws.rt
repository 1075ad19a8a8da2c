//! Theorems on the two languages, for the proofs of other crates. The functions do nothing.

ghost use Rattle.model_replay.specs.Laws.{ModulesHaveOwnNames, EntitiesHaveOwnNames, WellFormedEntitiesHaveOwnNames};
ghost use Rattle.model_replay.specs.Laws.{PlainModulesReadAsBefore, PlainEntitiesReadAsBefore};

use vhdl_grammar::texts_are_well_formed;

/// The models of a Verilog text, its drivers among them, are a catalog's: no two share a name, and each has ports of different
/// names, as many inputs and outputs as it runs with. And each of them can be run.
pub fn modules_have_own_names()
    ensures { ModulesHaveOwnNames }
{}

/// The models of a VHDL text that memory can hold are a catalog's, as those of a Verilog text are, and can be run. No two of them
/// have one name, whatever the case of its letters, so that each name as it is spelled means one of them.
pub fn entities_have_own_names()
    ensures { EntitiesHaveOwnNames }
{
    texts_are_well_formed();
}

/// So are the models of a VHDL text of any length whose models of their own are well formed.
pub fn well_formed_entities_have_own_names()
    ensures { WellFormedEntitiesHaveOwnNames }
{}

/// A Verilog text without sections has the modules, or the fault, that it has where sections are not known, and nothing drives
/// the outputs of these modules.
pub fn plain_modules_read_as_before()
    ensures { PlainModulesReadAsBefore }
{}

/// A VHDL text without sections has the entities, or the fault, that it has where sections are not known, and nothing drives the
/// outputs of these entities.
pub fn plain_entities_read_as_before()
    ensures { PlainEntitiesReadAsBefore }
{}

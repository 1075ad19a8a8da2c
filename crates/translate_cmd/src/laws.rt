//! Theorems on the definitions. The functions do nothing of their own.

ghost use Rattle.translate_cmd.specs.{TranslatedLaws.ModulesAreWellFormed, TranslatedLaws.EntitiesAreWellFormed};
ghost use Rattle.translate_cmd.specs.{TranslatedLaws.VerilogIsOfModules, TranslatedLaws.VitalIsOfEntities};
ghost use Rattle.translate_cmd.specs.{TranslatedLaws.LibrariesReadBack, Agreement.OwnModelsAgree, Audits.AuditedCellsAgree};
ghost use Rattle.translate_cmd.specs.Audits.{OwnModulesAuditWell};

use audited_modules::{generated_modules_match, matching_modules_fit};
use library_audit::{done_is_match, same_line_is_match};
use model_traces::fitting_modules_agree;

/// For every library the list of the modules of the cores of its accepted cells is well formed: each is sound, its names are
/// identifiers and no words, and no two of all their primitives and modules share a name. Over them the drivers of the cells some
/// of whose outputs may float can be declared, each behind those before it: it is sound, its core is one of the modules, and its
/// name is new.
pub fn modules_are_well_formed()
    ensures { ModulesAreWellFormed }
{}

/// For every library the list of the entities of the cores of its accepted cells is well formed: each is sound, its names are
/// identifiers and no words, and no two entities share a name, whatever the case of its letters. Over them the drivers of the
/// cells some of whose outputs may float can be declared, as over the modules.
pub fn entities_are_well_formed()
    ensures { EntitiesAreWellFormed }
{}

/// The Verilog that translating a library comes to is the first line of a file and the texts of these modules, in order, each
/// with the text of the drivers over it behind it.
pub fn verilog_is_of_modules()
    ensures { VerilogIsOfModules }
{}

/// The VHDL that translating a library comes to is the texts of these entities so, in order.
pub fn vital_is_of_entities()
    ensures { VitalIsOfEntities }
{}

/// The Verilog that translating a library comes to reads as these modules and these drivers, and the VHDL as these entities and
/// these drivers, whatever the library is. The sections of each text are the texts of the drivers, and for a reader of Verilog
/// text or of VHDL text the rest around them is the text of the modules or of the entities, and of no others. (IEEE 1364-2005,
/// A.1 and 19.1; IEEE 1076-1993, 1.1, 1.2 and 10.4.)
pub fn libraries_read_back()
    ensures { LibrariesReadBack }
{}

/// Whatever a library and a stimulus are, simulating the library beside the Verilog and the VHDL that translating it writes ends
/// neither for want of a model nor with traces that differ. Where it is done, its report is the sections of the stimulus over the
/// library's cells, each of which says that the traces of the cell, of its module and of its entity are equal. The models of a
/// cell some of whose outputs may float, its core and its drivers, are those of the drivers in either language, which run over
/// the core.
pub fn own_models_agree()
    ensures { OwnModelsAgree }
{}

/// Whatever a library and a Verilog file are, where both are read: each accepted cell of which `audit` says `same` has a module
/// with its name that has the cell's trace for every list of changes of inputs at rising times, and its states after each change
/// are the cell's. Where the comparison is done, that holds of every accepted cell of the library none of whose outputs may
/// float. (IEEE 1364-2005, clauses 8, 14 and 15.)
pub fn audited_cells_agree()
    ensures { AuditedCellsAgree }
{
    matching_modules_fit();
    fitting_modules_agree();
    same_line_is_match();
    done_is_match();
}

/// Whatever a library is, comparing it with the Verilog that translating it writes ends neither for want of a module nor with one
/// that differs. Where both are read, the line of each accepted cell says that its module is the same, or that the cell is left
/// out since some of its outputs may float.
pub fn own_modules_audit_well()
    ensures { OwnModulesAuditWell }
{
    generated_modules_match();
    same_line_is_match();
    done_is_match();
}

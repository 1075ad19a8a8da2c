//! Laws of the definitions, for the crates above. The functions do nothing.
ghost use Rattle.library_simulation.specs.{Sections.SectionsCanBeCompared, Sections.DescribedAreCells};
ghost use Rattle.library_simulation.specs.{Generated.DescribedKeepRules, Generated.AcceptedAreReady};
ghost use Rattle.library_simulation.specs.{Generated.OwnModelsShowTheSame, Generated.NoSectionDiffers};
ghost use Rattle.library_simulation.specs.Generated.{NeverModelOrDiffer};

/// Each section of a stimulus that is read over the catalog is on an accepted cell with a Verilog and a VITAL model that stand
/// for it, and where all models can be run these three can be run on its changes: each has as many inputs and outputs as the cell
/// has ports.
pub fn sections_can_be_compared()
    ensures { SectionsCanBeCompared }
{}

/// What a list of cells is described to have at a place as an accepted cell are the data of the cell that stands there.
pub fn described_are_cells()
    ensures { DescribedAreCells }
{}

/// What cells are described as keeps the rules of cells, and their drivers are those of their cores.
pub fn described_keep_rules()
    ensures { DescribedKeepRules }
{}

/// Beside the models that are generated for the accepted cells of a library, with names of which none stands twice, each accepted
/// cell may be given changes, and its own models stand for it.
pub fn accepted_are_ready()
    ensures { AcceptedAreReady }
{}

/// The traces of each cell, some of whose outputs may float, and of the models that are generated for it in both languages are
/// equal, for every list of changes of its inputs at times that rise strictly.
pub fn own_models_show_the_same()
    ensures { OwnModelsShowTheSame }
{}

/// Beside these models no section of any stimulus differs: the traces of the cell and of its two models are equal.
pub fn no_section_differs()
    ensures { NoSectionDiffers }
{}

/// Beside these models a run over any stimulus ends neither for want of a model nor with traces that differ, and each section of
/// a stimulus that is read says that the traces are equal.
pub fn never_model_or_differ()
    ensures { NeverModelOrDiffer }
{}

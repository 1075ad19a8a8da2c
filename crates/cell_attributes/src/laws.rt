//! Laws of the definitions: the states and outputs of a cell of which nothing is refused keep the rules of cells.
ghost use Rattle.cell_attributes.specs.CellLaws.{GroupsKeepRules, OutputsKeepRules};

/// The law that the state groups of a cell of which nothing is refused keep the rules of cells: at most 16, each with 1
/// to 8 input pins in its support, exactly those that its texts name.
#[tactic(auto, using(crate::proofs::CellGroups::groups_keep_rules))]
pub fn groups_keep_rules()
    ensures { GroupsKeepRules }
{}

/// The law that the outputs of such a cell keep them: one for each output pin, each with at most 10 names in its support,
/// exactly what its function names.
#[tactic(auto, using(crate::proofs::CellOutputs::outputs_keep_rules))]
pub fn outputs_keep_rules()
    ensures { OutputsKeepRules }
{}

//! Laws of the definitions, for the crates above.
ghost use Rattle.stimulus.specs.Laws as spec;

/// The law that each section of a stimulus that is read is of a cell that the catalog names, with changes of the cell's
/// inputs at times that rise strictly. So what `read_stimulus` answers meets what the simulators require.
pub fn sections_are_proper()
    ensures { spec.SectionsAreProper }
{}

/// The law that each input that a `PortCatalog` finds has a number below the number of its cell's inputs.
pub fn ports_are_inputs()
    ensures { spec.PortsAreInputs }
{}

/// The law that a cell which the cause of a stimulus's first bad line names is one that the catalog answered to some name as
/// refused, or as one whose module or entity is not there, as the cause says.
pub fn causes_name_answers()
    ensures { spec.CausesNameAnswers }
{}

/// The law that what is printed along changes of a simulator whose outputs are never `z` is its trace, line by line.
#[tactic(auto, using(crate::proofs::DriveTraces::drive_lines_show_traces))]
pub fn drive_lines_show_traces()
    ensures { spec.DriveLinesShowTraces }
{}

/// The law that two simulators whose outputs are never `z` print equal lines along changes exactly where their traces on these
/// are equal.
#[tactic(auto, using(crate::proofs::DriveTraces::equal_lines_are_equal_traces))]
pub fn equal_lines_are_equal_traces()
    ensures { spec.EqualLinesAreEqualTraces }
{}

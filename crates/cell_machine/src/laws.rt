//! Theorems on the definitions, for the proofs of other crates. The functions do nothing.

ghost use Rattle.cell_machine.specs.Laws.{LastLineIsOfHistory, FrontsHaveFronts, ReportIsWholeList, TimesDecideReports};
ghost use Rattle.cell_machine.specs.Laws.{ForcedIsStep, SameValueChangesNothing, FewerUnknownsKeepOutputs};

/// The last line of a trace is the line of the history of all its changes.
pub fn last_line_is_of_history()
    ensures { LastLineIsOfHistory }
{}

/// The trace of a front of some changes is the front of their trace.
pub fn fronts_have_fronts()
    ensures { FrontsHaveFronts }
{}

/// A check reports at a place of a list of changes exactly where the history up to this place says so.
pub fn report_is_whole_list()
    ensures { ReportIsWholeList }
{}

/// The times of each input's last change, last possible rise and last possible fall decide every report.
pub fn times_decide_reports()
    ensures { TimesDecideReports }
{}

/// Where inputs force a state, each change of one input to them gives the forced value, from every state.
pub fn forced_is_step()
    ensures { ForcedIsStep }
{}

/// A change of an input to the value that it has keeps states and outputs, and reports nothing.
pub fn same_value_changes_nothing()
    ensures { SameValueChangesNothing }
{}

/// Inputs and states of which fewer are unknown give each output that was known the same value.
pub fn fewer_unknowns_keep_outputs()
    ensures { FewerUnknownsKeepOutputs }
{}

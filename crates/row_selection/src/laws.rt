//! What the selected rows decide, as laws that callers may cite.
ghost use Rattle.row_selection.specs.Laws.{SelectedRowsDecide, IgnoredInputsAreFree};

/// At a change of the input, from the value for which they were selected, the selected rows give what all rows give.
pub fn selected_rows_decide()
    ensures { SelectedRowsDecide }
{}

/// Inputs of which no row asks anything that may match may have any values: the next state is the same.
pub fn ignored_inputs_are_free()
    ensures { IgnoredInputsAreFree }
{}

//! Theorems on the definitions, for the proofs of other crates. The functions do nothing.

ghost use Rattle.udp_tables.specs.Generated.{RowsGiveResolution, PrimitiveIsCombinational};
ghost use Rattle.udp_tables.specs.Laws.{RowsAreMachine, NotifierForces, FormsAgree, FormsAgreeAtNotifier, PartsResolve};
ghost use Rattle.udp_tables.specs.Laws.{GroupsAreMachines, GroupsAreForced, GroupsAreSequential, ConditionsAreNumbered};

/// The generated rows of a function give its resolution, for every list of trits.
pub fn rows_give_resolution()
    ensures { RowsGiveResolution }
{}

/// The generated primitive of a function is a combinational one.
pub fn primitive_is_combinational()
    ensures { PrimitiveIsCombinational }
{}

/// At each change of one input, in every state and at every value of the notifier, the generated rows of a step give the
/// machine's step.
pub fn rows_are_machine()
    ensures { RowsAreMachine }
{}

/// At each change of the notifier, in every state, the generated rows of a step give the value to which the inputs force
/// the state, else x.
pub fn notifier_forces()
    ensures { NotifierForces }
{}

/// The rows in compact form give the same next state at each change of one input.
pub fn forms_agree()
    ensures { FormsAgree }
{}

/// The rows in compact form give the same next state at each change of the notifier.
pub fn forms_agree_at_notifier()
    ensures { FormsAgreeAtNotifier }
{}

/// The primitive of an output or a condition of a cell gives the resolution of its value, for every list of trits.
pub fn parts_resolve()
    ensures { PartsResolve }
{}

/// The primitive of a group of a cell gives the machine's step at each change of one pin of its support, in every state and
/// at every value of the notifier.
pub fn groups_are_machines()
    ensures { GroupsAreMachines }
{}

/// In a cell with checks, the primitive of a group gives the value to which the pins force the state, else x, at each
/// change of the notifier.
pub fn groups_are_forced()
    ensures { GroupsAreForced }
{}

/// The primitive of a group has an entry for each input in each row, of which at most one is a change.
pub fn groups_are_sequential()
    ensures { GroupsAreSequential }
{}

/// Each condition that the checks and arcs of a cell use has a number among its conditions.
pub fn conditions_are_numbered()
    ensures { ConditionsAreNumbered }
{}

//! The runs of the models of both languages, event by event, and what their traces say. (IEEE 1364-2005, clauses 8, 14 and 15;
//! IEEE 1076.4-2000.)
#![tactic(auto)]

mod laws;
mod module_run;
mod turns;

pub use laws::{
    earlier_time_is_first, fitting_entities_agree, fitting_models_agree, fitting_modules_agree,
    generated_entities_fit, generated_modules_fit, later_event_is_second, models_agree,
    process_holds_inputs, process_keeps_columns, process_keeps_last_events, run_holds_inputs,
    run_keeps_last_events,
};
pub use module_run::ModuleRun;
pub use turns::{Turn, Turned};

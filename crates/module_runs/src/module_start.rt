//! A module before any change.
ghost use Rattle.std.specs.Prelude.{◌≡◌, [], map, IfOk};
ghost use Rattle.specify_blocks.specs.Sound.{IsSound};
ghost use Rattle.model_traces.specs.{ModuleRun.start_run, PortNumbers.output_ports};
ghost use Rattle.module_runs.specs.{KeptValues.kept_values, ModuleStands.shown_after, ShownPorts.shown_first};

use crate::kept_values::first_kept;
use crate::module_index::ModuleIndex;
use crate::module_run::start_run;
use crate::module_shown::first_shown;
use crate::module_tables::ModuleTables;
use run_parts::ShownPort;
use specify_blocks::VModule;
use sqlite_items::Items;
use std::alloc::{AllocError, Global};
use trit_cubes::Trit;

/// What is known of a module before any change, which all its simulators begin with.
#[derive(Drop)]
pub struct ModuleStart {
    /// Where its parts are found.
    pub index: ModuleIndex,
    /// What each instance drives, X where it has a state.
    pub kept: Items<Trit>,
    /// What its outputs show.
    pub shown: Items<ShownPort>,
}

impl ModuleStart {
    ghost use Rattle.module_runs.specs.ModuleStarts.{IsModuleStart};

    /// What is known of a sound module before any change: all inputs, states and the register of the checks are unknown.
    /// `AllocError` comes only where memory is wanted and not there.
    pub fn of(alloc: Global, model: &VModule) -> Result<ModuleStart, AllocError>
        requires { IsSound model.now }
        ensures { IfOk result (λ start. IsModuleStart model.now start) }
    {
        let index = ModuleIndex::of(alloc, model)?;
        let tables = ModuleTables {
            model,
            index: &index,
        };
        let first = first_values(alloc, &tables)?;
        Ok(ModuleStart {
            index,
            kept: first.kept,
            shown: first.shown,
        })
    }
}

/// What the instances of a module drive and what its outputs show.
#[derive(Drop)]
struct FirstValues {
    /// What each instance drives, X where it has a state.
    kept: Items<Trit>,
    /// What the outputs show.
    shown: Items<ShownPort>,
}

/// The values of a module before any change.
fn first_values(alloc: Global, tables: &ModuleTables) -> Result<FirstValues, AllocError>
    requires { IsSound tables.now.model.now }
    ensures kept { IfOk result (λ first. first.kept ≡ kept_values tables.now.model.now (start_run tables.now.model.now).inputs
        (start_run tables.now.model.now).states) }
    ensures shown { IfOk result (λ first. first.shown ≡ map (shown_after tables.now.model.now [])
        (output_ports tables.now.model.now.ports)) }
{
    let run = start_run(alloc, tables.model)?;
    values_at(alloc, tables, run.inputs.as_slice(), run.states.as_slice())
}

/// The values of a module where its inputs and its states have these, and no output has a delay.
fn values_at(
    alloc: Global,
    tables: &ModuleTables,
    inputs: &[Trit],
    states: &[Trit],
) -> Result<FirstValues, AllocError>
    requires { IsSound tables.now.model.now }
    ensures kept { IfOk result (λ first. first.kept ≡ kept_values tables.now.model.now inputs.now states.now) }
    ensures shown { IfOk result (λ first. first.shown ≡ map (shown_first tables.now.model.now inputs.now states.now)
        (output_ports tables.now.model.now.ports)) }
{
    let kept = first_kept(alloc, tables, inputs, states)?;
    let shown = first_shown(alloc, tables, inputs, states, kept.as_slice())?;
    Ok(FirstValues { kept, shown })
}

//! The paths of a module by the outputs to which they lead.
ghost use Rattle.std.specs.Prelude.{IfOk};
ghost use Rattle.module_runs.specs.OutputPaths.{AreByOutput};

use run_parts::{DelayPlaces, add, empty_lists, input_count};
use specify_blocks::{VModule, VPath};
use sqlite_items::Items;
use std::alloc::{AllocError, Global};

/// The paths of a module by the ports to which they lead.
#[derive(Drop)]
pub struct OutputPaths {
    /// For each port the paths that lead to it.
    pub lists: Items<Items<VPath>>,
    /// For each port the places where the delays of these paths are kept.
    pub places: Items<DelayPlaces>,
}

impl OutputPaths {
    /// Those of a module. `AllocError` comes only where memory is wanted and not there.
    pub(crate) fn of(alloc: Global, model: &VModule) -> Result<OutputPaths, AllocError>
        ensures { IfOk result (λ all. AreByOutput model.now.paths all.lists) }
    {
        let lists = paths_by_output(alloc, model.paths.as_slice(), model.ports.len())?;
        let inputs = input_count(model.ports.as_slice());
        let places = delay_places(alloc, inputs, lists.as_slice())?;
        Ok(OutputPaths { lists, places })
    }
}

/// For each of so many ports the paths that lead to it, in their order. `AllocError` comes only where memory is wanted and not
/// there.
fn paths_by_output(
    alloc: Global,
    paths: &[VPath],
    ports: usize,
) -> Result<Items<Items<VPath>>, AllocError>
    ensures { IfOk result (λ all. AreByOutput paths.now all) }
{
    let mut all = empty_lists(alloc, ports)?;
    for path in paths {
        add(&mut all, path.to, *path)?;
    }
    Ok(Items::from_vec(all))
}

/// For each of these lists of paths the places where their delays are kept, in a module of so many inputs.
fn delay_places(
    alloc: Global,
    inputs: usize,
    lists: &[Items<VPath>],
) -> Result<Items<DelayPlaces>, AllocError> {
    let mut all = Items::new(alloc);
    let mut last = DelayPlaces::none();
    for paths in lists {
        last = last.behind(inputs, paths.len());
        all.push(last)?;
    }
    Ok(all)
}

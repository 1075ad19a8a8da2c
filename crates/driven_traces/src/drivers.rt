//! The drivers of a cell's three-state outputs.
ghost use Rattle.std.specs.Prelude.{◌≡◌, IfOk};
ghost use Rattle.driven_traces.specs.Drivers.{IsSound, number_of, plain};

use crate::delays::DrivePath;
use sqlite_items::Items;
use std::alloc::{AllocError, Global};

/// The three-state drivers at the outputs of a core. The core has these inputs, these outputs, and behind them one more
/// output for each driven output: its enable.
#[derive(Drop)]
pub struct Driver {
    /// The number of inputs.
    pub inputs: usize,
    /// The number of outputs.
    pub outputs: usize,
    /// The driven outputs, from 0 among the outputs, ascending.
    pub drives: Items<usize>,
    /// The paths to driven outputs.
    pub paths: Items<DrivePath>,
}

impl Driver {
    /// What drives nothing: the core's outputs are shown as they are.
    pub fn plain(alloc: Global, inputs: usize, outputs: usize) -> Driver
        ensures is { result ≡ plain inputs outputs }
        ensures sound { IsSound result }
    {
        Driver {
            inputs,
            outputs,
            drives: Items::new(alloc),
            paths: Items::new(alloc),
        }
    }

    /// A copy.
    pub fn copied(&self, alloc: Global) -> Result<Driver, AllocError>
        ensures { IfOk result (λ copy. copy ≡ self.now) }
    {
        Ok(Driver {
            inputs: self.inputs,
            outputs: self.outputs,
            drives: Items::from_slice(alloc, self.drives.as_slice())?,
            paths: Items::from_slice(alloc, self.paths.as_slice())?,
        })
    }

    /// The number of an output among the driven ones, where it is driven.
    pub(crate) fn number(&self, place: usize) -> Option<usize>
        requires { IsSound self.now }
        ensures { result ≡ number_of self.now place }
    {
        match self.drives.as_slice().binary_search(&place) {
            Ok(number) => Some(number),
            Err(_) => None,
        }
    }
}

//! What is written for the items of a library.
ghost use Rattle.std.specs.Prelude.{List, []};
ghost use Rattle.text_io.specs.declared.slots.OutSlot.{OutSlot};
ghost use Rattle.text_io.specs.Desk.{StopsWithCause};
ghost use Rattle.liberty_groups.specs.declared.tree.Group.{Group as GroupOf};
ghost use Rattle.run_outcome.specs.Written.{Written, nothing_written, Writes};
ghost use Rattle.library_reader.specs.declared.progress.Progress.{Progress as ProgressOf};
ghost use Rattle.library_reader.specs.Folds.{AreBound, IsNumberedNext};

use crate::next::NextCell;
use crate::progress::Progress;
use liberty_groups::Group;
use std::alloc::Global;
use text_io::{Desk, Stop};

/// What is written for the items of a library, one after another.
pub trait ItemWriter {
    /// The outputs to which something is written; the report, which is always bound, need not be among them.
    ghost outputs: { List OutSlot };

    /// What is written for a cell.
    ghost for_cell: { ProgressOf → GroupOf → Written };

    /// What is written for a statement that names a file.
    ghost for_left_out: { Written };

    /// Writes what becomes of the next cell, which was read so of its group.
    ///
    /// Faults: `Failed` where a write failed, `Memory`.
    fn write_cell<D: Desk>(
        &self,
        alloc: Global,
        desk: &mut D,
        progress: &Progress,
        group: &Group,
        next: &NextCell,
    ) -> Result<(), Stop>
        requires bound { AreBound (D.state desk.old) outputs }
        requires next { IsNumberedNext progress.now group.now next.now }
        ensures text { Writes (D.state desk.old) (D.state desk.new) (for_cell progress.now group.now) result }
        ensures cause { StopsWithCause (D.faults desk.old) (D.faults desk.new) result };

    /// Writes what becomes of a statement that names a file.
    ///
    /// Faults: `Failed` where a write failed, `Memory`.
    fn write_left_out<D: Desk>(&self, desk: &mut D) -> Result<(), Stop>
        requires bound { AreBound (D.state desk.old) outputs }
        ensures text { Writes (D.state desk.old) (D.state desk.new) for_left_out result }
        ensures cause { StopsWithCause (D.faults desk.old) (D.faults desk.new) result };
}

/// Nothing is written.
#[derive(Drop)]
pub struct NothingWritten;

impl ItemWriter for NothingWritten {
    ghost outputs = { [] };

    ghost for_cell = { λ _ _. nothing_written };

    ghost for_left_out = { nothing_written };

    fn write_cell<D: Desk>(
        &self,
        _alloc: Global,
        _desk: &mut D,
        _progress: &Progress,
        _group: &Group,
        _next: &NextCell,
    ) -> Result<(), Stop> {
        Ok(())
    }

    fn write_left_out<D: Desk>(&self, _desk: &mut D) -> Result<(), Stop> {
        Ok(())
    }
}

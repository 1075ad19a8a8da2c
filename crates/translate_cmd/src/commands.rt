//! The commands that read files or make cells of their own, each over the words that ask for it.
ghost use Rattle.std.specs.Prelude.{◌≡◌};
ghost use Rattle.run_outcome.specs.Runs.{StopsWithStatus};
ghost use Rattle.command_words.specs.declared.commands.Command.TheVariants as command;
ghost use Rattle.command_words.specs.Reading.{reading};
ghost use Rattle.translate_cmd.specs.Runs.{Runs};

use library_audit::audit_library;
use library_simulation::replays::replay_models;
use library_simulation::{Verilog, Vital, simulate_library};
use library_translation::translate_library;
use run_outcome::{Status, ended};
use selftest_runs::{selftest_counts, write_report};
use std::alloc::Global;
use text_io::{Desk, FileCommand};

/// Carries out a command on the files that the words name: writes the Verilog and VHDL models of the cells of a library, and its
/// report; prints the traces of the cells of a library, of their modules and of their entities, section by section of a stimulus,
/// and whether the three of each section are equal; prints the traces of the models of a file, section by section of a stimulus;
/// or prints of each accepted cell of a library whether its module in a Verilog file is there and is the same, or that it is left
/// out since some of its outputs may float. No trace is printed, and no such line, before all files are read.
pub(crate) fn work_on_files<D: Desk>(alloc: Global, desk: &mut D, asked: FileCommand) -> Status
    requires { reading (D.state desk.old).words ≡ command.Files asked }
    ensures writes { Runs (D.state desk.old) (D.state desk.new) result }
    ensures cause { StopsWithStatus (D.faults desk.old) (D.faults desk.new) result }
{
    match asked {
        FileCommand::Translate => translate_library(alloc, desk),
        FileCommand::Simulate => simulate_library(alloc, desk),
        FileCommand::ReplayVerilog => replay_models::<D, Verilog>(alloc, desk),
        FileCommand::ReplayVital => replay_models::<D, Vital>(alloc, desk),
        FileCommand::Audit => audit_library(alloc, desk),
    }
}

/// Makes so many test cells, which no word names, runs them beside their models and damaged models, and reports what is counted.
/// Nothing is read or written on the desk before all of them are run.
pub(crate) fn selftest<D: Desk>(alloc: Global, desk: &mut D, cells: u64) -> Status
    requires { reading (D.state desk.old).words ≡ command.Selftest cells }
    ensures writes { Runs (D.state desk.old) (D.state desk.new) result }
    ensures cause { StopsWithStatus (D.faults desk.old) (D.faults desk.new) result }
{
    match selftest_counts(alloc, cells) {
        Ok(counts) => ended(write_report(desk, cells, &counts), Status::Done),
        Err(_) => Status::Memory,
    }
}

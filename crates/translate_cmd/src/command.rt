//! The top call: the words' command, over any desk.

ghost use Rattle.std.specs.Prelude.{◌≡◌, ◌≤◌, ◌↔◌, IsTrue, if◌then◌else◌};
ghost use Rattle.text_io.specs.{Desk.HasCause, Desk.Rose, Gate.failures, Sure.sure_state};
ghost use Rattle.run_outcome.specs.Status.{is_decided, is_unfailed};
ghost use Rattle.command_words.specs.declared.commands.Command.TheVariants as command;
ghost use Rattle.command_words.specs.Reading.{reading};
ghost use Rattle.translate_cmd.specs.{Runs.Runs, Complete.Completes, Selftests.SelftestsEnd};
ghost use Rattle.translate_cmd.specs.{AgreementRuns.OwnModelsEndInAgreement, AuditRuns.DoneWhereAllMatch};

use crate::commands::{selftest, work_on_files};
use crate::laws::audited_cells_agree;
use command_words::{Command, Memory, asked};
use library_audit::done_is_match;
use run_outcome::{Status, ended};
use std::alloc::Global;
use text_io::{Desk, GatedDesk, OutSlot, SureDesk, write_whole};
use verilog_writer::write_udp;

/// The line that tells of words without a reading.
const USAGE: &[u8] = b"lib2sim: usage\n";

/// Runs the command that the desk's words ask for: `udp` prints a primitive, `translate` writes the Verilog and VHDL models of a
/// library's cells, of a cell some of whose outputs may float its core and its drivers, and a report of them, `simulate` prints
/// the traces of a library's cells, of their modules in a Verilog file and of their entities in a VHDL file under a stimulus and
/// whether they are equal, `replay-verilog` prints the traces of a Verilog file's modules under a stimulus, `replay-vital` those
/// of a VHDL file's entities, `audit` prints for each accepted cell of a library whether the module of its name in a Verilog file
/// has the cell's parts and, at all arguments of its tables, the cell's values, or that the cell is left out since some of its
/// outputs may float, `selftest` makes test cells, runs them beside their models and damaged models, and reports what it counted,
/// and words without a reading are `Usage`.
///
/// It ends with the status of the outcome of the words and the desk's files, and all that the outcome appends was appended,
/// or with one of two others: `Outside`, only where a call on the desk failed in this call, and `Memory`, where there was
/// none. After these two what was appended is the first part of what the outcome appends to each output. With every status
/// but `Outside` no call failed: the count of faults is as it was. With `Outside` exactly one did: the count rose by one. Over a
/// desk behind a gate it is shown to be the last call of the run (`run_gated`).
///
/// However `translate` ends, these two among the ways, all is there that is written for the cells whose closing braces lie
/// more than 65,536 bytes before the end of the bytes that it read: both whole models of the accepted ones, and their lines.
///
/// `selftest` ends with `Done`, `Outside` or `Memory`, and with no other status.
///
/// Where no call failed, words of `udp` or `selftest` with a reading come to `Done` or `Memory`, a whole library of at most
/// 67,108,864 bytes, its cells refused or not, to `Done`, `Cells` or `Memory`, and a Verilog or VHDL file of at most as many
/// bytes and a stimulus of at most 16,777,216, neither refused, to `Done` or `Memory`. A whole library, a Verilog file and a VHDL
/// file that are not refused, and a stimulus without a bad line, each within its limit, are simulated to `Done`, where all traces
/// are equal, to `Differ`, where some are not, or to `Memory`. Cells that are refused count there only where the stimulus names
/// them. A whole library and a Verilog file that is not refused, each within its limit, are compared to `Done`, `Differ` or
/// `Memory`.
///
/// Where `simulate` names a library and, as its Verilog and VHDL files, the texts that `translate` writes for this library, it
/// ends neither with `Model` nor with `Differ`, whatever the library and the stimulus are. Where the library is whole, no line of
/// the stimulus is bad, no file is over its limit and no call failed, it ends with `Done` or `Memory`. With `Done` the report is
/// the sections of the stimulus, each of which says that the traces of the cell, of its module and of its entity are equal: also
/// those of a cell some of whose outputs may float, of its drivers over the module of its core, and of its drivers over the
/// entity of its core.
///
/// Where no call failed and memory was found, `audit` ends with `Done` exactly where both files are read and each accepted cell
/// of the library none of whose outputs may float has a module with its name that matches it: its parts are the cell's, and its
/// tables give the cell's values for all arguments. With `Done` each of these cells and this module have equal traces for every
/// list of changes of inputs at rising times, and equal states after each change. Of a cell some of whose outputs may float
/// nothing is said.
///
/// Nothing is bound but what the words name. Of a command that reads files all this is said where the desk tells its folder
/// and what is left of its files.
pub fn run<D: Desk>(alloc: Global, desk: &mut D) -> Status
    ensures writes { Runs (D.state desk.old) (D.state desk.new) result }
    ensures usage { IsTrue (is_decided result) → (result ≡ Status.Usage ↔ reading (D.state desk.old).words ≡ command.Usage) }
    ensures outside { result ≡ Status.Outside → Rose (D.faults desk.old) (D.faults desk.new) }
    ensures later { D.faults desk.old ≤ D.faults desk.new }
    ensures kept { IsTrue (is_unfailed result) → D.faults desk.new ≡ D.faults desk.old }
    ensures complete { (Rose (D.faults desk.old) (D.faults desk.new) → ⊥)
        → Completes (D.state desk.old) (D.state desk.new) result }
    ensures agree { OwnModelsEndInAgreement (D.state desk.old) (D.state desk.new) result }
    ensures audit { DoneWhereAllMatch (D.state desk.old) result }
    ensures selftest { SelftestsEnd (D.state desk.old) result }
{
    done_is_match();
    audited_cells_agree();
    carry_out(alloc, desk)
}

/// Carries out the command that the desk's words ask for.
fn carry_out<D: Desk>(alloc: Global, desk: &mut D) -> Status
    ensures writes { Runs (D.state desk.old) (D.state desk.new) result }
    ensures usage { IsTrue (is_decided result) → (result ≡ Status.Usage ↔ reading (D.state desk.old).words ≡ command.Usage) }
    ensures outside { result ≡ Status.Outside → Rose (D.faults desk.old) (D.faults desk.new) }
    ensures later { D.faults desk.old ≤ D.faults desk.new }
    ensures kept { IsTrue (is_unfailed result) → D.faults desk.new ≡ D.faults desk.old }
{
    match asked(alloc, desk) {
        Ok(Command::Udp(udp)) => ended(write_udp(desk, OutSlot::Report, &udp), Status::Done),
        Ok(Command::Files(asked)) => work_on_files(alloc, desk, asked),
        Ok(Command::Selftest(cells)) => selftest(alloc, desk, cells),
        Ok(Command::Usage) => ended(write_whole(desk, OutSlot::Faults, USAGE), Status::Usage),
        Err(Memory) => Status::Memory,
    }
}

/// As `run`, over a desk on which no call fails, so that it never ends with `Outside`.
pub fn run_sure(alloc: Global, desk: &mut SureDesk) -> Status
    ensures never { result ≡ Status.Outside → ⊥ }
    ensures writes { Runs (sure_state desk.old) (sure_state desk.new) result }
    ensures usage { IsTrue (is_decided result) → (result ≡ Status.Usage ↔ reading (sure_state desk.old).words ≡ command.Usage) }
    ensures complete { Completes (sure_state desk.old) (sure_state desk.new) result }
    ensures agree { OwnModelsEndInAgreement (sure_state desk.old) (sure_state desk.new) result }
    ensures audit { DoneWhereAllMatch (sure_state desk.old) result }
    ensures selftest { SelftestsEnd (sure_state desk.old) result }
{
    run(alloc, desk)
}

/// As `run`, over a desk behind a gate, through which no call has gone yet that failed. Where the run ends with another status
/// than `Outside`, the gate counts none; with `Outside` it counts one: the call that failed was the last, and nothing was
/// bound, read or written behind it.
pub fn run_gated<D: Desk>(alloc: Global, desk: &mut GatedDesk<D>) -> Status
    requires { failures desk.old ≡ 0 }
    ensures last { failures desk.new ≡ (if is_unfailed result then 0 else 1) }
{
    run(alloc, desk)
}

//! A run that draws the waves of a report.
ghost use Rattle.std.specs.Prelude.{◌≡◌, ◌≤◌, IsTrue};
ghost use Rattle.text_io.specs.declared.slots.OutSlot.TheVariants.{Faults};
ghost use Rattle.text_io.specs.Desk.{HasCause, Rose, WritesText};
ghost use Rattle.text_io.specs.Plan.{plan};
ghost use Rattle.run_outcome.specs.Status.{is_unfailed};
ghost use Rattle.run_outcome.specs.Binding.{Binds};
ghost use Rattle.run_outcome.specs.Runs.{RunsAs, StopsWithStatus};
ghost use Rattle.wave_reports.specs.Outcome.{wave_files, translation_files, files_of, run_of, report_outcome, usage_line};
ghost use Rattle.wave_reports.specs.Outcome.{names_both as names_both_of};
ghost use Rattle.run_outcome.specs.Binding.{bytes_at};

use crate::draw::draw_bound;
use run_outcome::{Status, ended};
use std::alloc::Global;
use text_io::{Desk, Failed, FileCommand, InSlot, OutSlot, asked_files, write_whole};

/// The line that tells of words without a reading.
const USAGE: &[u8] = b"usage: report_waves REPORT VCD\n";

/// Draws the waves of the report that the desk's words name, as they are made of the program's words (`desk_words`), and writes
/// them to the file that they name behind it.
///
/// It ends with `Done`, with `Stimulus` where a line of the report cannot be read, which is told with its number and why, with
/// `TooLong` where the report has more than 67,108,864 bytes, which is told and leaves the dump empty, and with `Usage` where the
/// words name no two different files; then all that the outcome of the report's bytes appends was appended. With `Outside`, only
/// where a call on the desk failed in this call, and with `Memory`, where there was none, a first part of it was.
pub fn run<D: Desk>(alloc: Global, desk: &mut D) -> Status
    ensures writes { RunsAs (files_of (D.state desk.old).words) (run_of (D.state desk.old).words) (D.state desk.old)
        (D.state desk.new) result }
    ensures outside { result ≡ Status.Outside → Rose (D.faults desk.old) (D.faults desk.new) }
    ensures later { D.faults desk.old ≤ D.faults desk.new }
    ensures kept { IsTrue (is_unfailed result) → D.faults desk.new ≡ D.faults desk.old }
{
    if names_both(asked_files(desk)) {
        draw_report(alloc, desk)
    } else {
        ended(write_usage(desk), Status::Usage)
    }
}

/// Tells how the program is used.
#[tactic(auto, unfolding(crate::specs::Outcome::usage_line))]
fn write_usage<D: Desk>(desk: &mut D) -> Result<(), Failed>
    ensures text { WritesText (D.state desk.old) (D.state desk.new) Faults usage_line result }
    ensures cause { HasCause (D.faults desk.old) (D.faults desk.new) result }
{
    write_whole(desk, OutSlot::Faults, USAGE)
}

/// Whether words name a report and a dump, as files of a translation.
fn names_both(asked: Option<FileCommand>) -> bool
    ensures { result ≡ names_both_of asked }
{
    match asked {
        Some(FileCommand::Translate) => true,
        Some(FileCommand::Simulate) => false,
        Some(FileCommand::ReplayVerilog) => false,
        Some(FileCommand::ReplayVital) => false,
        Some(FileCommand::Audit) => false,
        None => false,
    }
}

/// Draws the waves of the report that the words name.
fn draw_report<D: Desk>(alloc: Global, desk: &mut D) -> Status
    requires { plan (D.state desk.old).words ≡ translation_files }
    ensures writes { RunsAs wave_files (λ folder. report_outcome (bytes_at (D.state desk.old).words folder 1)) (D.state desk.old)
        (D.state desk.new) result }
    ensures cause { StopsWithStatus (D.faults desk.old) (D.faults desk.new) result }
{
    match bind_files(desk) {
        Ok(()) => match draw_bound(alloc, desk) {
            Ok(status) => status,
            Err(stop) => Status::from(stop),
        },
        Err(Failed) => Status::Outside,
    }
}

/// Binds the report and the dump, in this order.
#[tactic(auto, unfolding(text_io::specs::Desk::opened, text_io::specs::Desk::created))]
fn bind_files<D: Desk>(desk: &mut D) -> Result<(), Failed>
    requires { plan (D.state desk.old).words ≡ translation_files }
    ensures binds { Binds wave_files (D.state desk.old) (D.state desk.new) result }
    ensures cause { HasCause (D.faults desk.old) (D.faults desk.new) result }
{
    desk.bind_in(InSlot::Library, 1)?;
    desk.bind_out(OutSlot::VerilogText, 2)
}

//! What a report comes to as waves.
ghost use Rattle.std.specs.Prelude.{◌≡◌, ◌++◌, [], Ok, Err, IfOk, OnOk, MatchResult};
ghost use Rattle.wave_reports.specs.Pieces.{pieces};
ghost use Rattle.wave_reports.specs.Lines.{said_of as said_of_line};
ghost use Rattle.wave_reports.specs.Traces.{seen as trace_seen};
ghost use Rattle.wave_reports.specs.Waves as spec;

use crate::changes::push_changes;
use crate::definitions::{push_section_begin, push_section_end};
use crate::lines::{ReportLine, Said, said_of};
use crate::pieces::cut;
use crate::sections::Section;
use crate::texts::push_pieces;
use crate::traces::Trace;
use itoa::Buffer;
use std::alloc::{AllocError, Global};

/// How many picoseconds a section begins behind the last time of the one before.
const GAP: u64 = 1000;

/// What the lines of a report come to.
#[derive(Drop)]
pub struct Waves {
    /// The scopes and the signals.
    pub definitions: Vec<u8>,
    /// The value changes, in the order of their times.
    pub changes: Vec<u8>,
    /// A line for each line of the report that cannot be read, with its number and why.
    pub faults: Vec<u8>,
    /// The number of the line where the section begins, 0 where none has begun.
    begun: usize,
    /// The time at which it begins, in picoseconds.
    start: u64,
    /// What it shows.
    section: Section,
}

impl Waves {
    /// What no lines come to. It takes no memory.
    fn new(alloc: Global) -> Waves
        ensures { spec.held result ≡ spec.empty }
    {
        Waves {
            definitions: Vec::new(alloc),
            changes: Vec::new(alloc),
            faults: Vec::new(alloc),
            begun: 0,
            start: 0,
            section: Section::new(alloc, 0),
        }
    }

    /// Appends the declarations and the changes of the section, where one has begun.
    #[tactic(auto, unfolding(crate::specs::Waves::closed))]
    fn close(&mut self, alloc: Global) -> Result<(), AllocError>
        ensures { OnOk result (spec.held self.new ≡ spec.closed (spec.held self.old)) }
    {
        if self.begun == 0 {
            return Ok(());
        }
        push_section_end(alloc, &mut self.definitions, self.begun, &self.section.keys)?;
        push_changes(alloc, &mut self.changes, &self.section, self.begun)
    }

    /// The time at which the next section begins.
    fn next_start(&self) -> u64
        ensures { result ≡ spec.next_start (spec.held self.now) }
    {
        if self.begun == 0 {
            0
        } else {
            self.section.end.saturating_add(GAP)
        }
    }

    /// Begins the section of a cell of this name.
    fn begin(&mut self, alloc: Global, line: usize, name: &[u8]) -> Result<(), AllocError>
        ensures { OnOk result (spec.held self.new ≡ spec.with_section (spec.held self.old) line name.now) }
    {
        push_section_begin(&mut self.definitions, line, name)?;
        self.start = self.next_start();
        self.section = Section::new(alloc, self.start);
        self.begun = line;
        Ok(())
    }

    /// Tells that a line cannot be read, and why.
    fn tell(&mut self, line: usize, why: &[u8]) -> Result<(), AllocError>
        ensures { OnOk result (spec.held self.new ≡ spec.with_fault (spec.held self.old) line why.now) }
    {
        push_fault(&mut self.faults, line, why)
    }

    /// Adds what a line of a trace shows.
    fn show(
        &mut self,
        alloc: Global,
        line: &ReportLine<'_>,
        trace: &Trace<'_>,
    ) -> Result<(), AllocError>
        ensures { OnOk result (spec.held self.new ≡ spec.with_shown (spec.held self.old) line.now.number line.now.previous.now
            line.now.bytes.now (trace_seen trace.now)) }
    {
        if self.begun == 0 {
            return self.tell(line.number, b"section");
        }
        self.section.add_trace(alloc, self.start, line, trace)
    }

    /// Adds what a line says.
    fn add_line(&mut self, alloc: Global, line: &ReportLine<'_>) -> Result<(), AllocError>
        ensures { OnOk result (spec.held self.new ≡ spec.with_said (spec.held self.old) line.now.number line.now.previous.now
            line.now.bytes.now (said_of_line line.now.bytes.now)) }
    {
        match said_of(line.bytes) {
            Said::Nothing => Ok(()),
            Said::Cell(name) => {
                self.close(alloc)?;
                self.begin(alloc, line.number, name)
            }
            Said::Trace(trace) => self.show(alloc, line, &trace),
            Said::Unread => self.tell(line.number, b"form"),
        }
    }

    /// Adds what all lines of a report say, and ends the last section.
    #[tactic(auto, unfolding(crate::specs::Waves::drawing_of))]
    fn draw(&mut self, alloc: Global, report: &[u8]) -> Result<(), AllocError>
        requires { spec.held self.old ≡ spec.empty }
        ensures { OnOk result (spec.held self.new ≡ spec.drawing_of report.now) }
    {
        self.add_lines(alloc, report)?;
        self.close(alloc)
    }

    /// Adds what all lines of a report say.
    fn add_lines(&mut self, alloc: Global, report: &[u8]) -> Result<(), AllocError>
        ensures { OnOk result (spec.held self.new ≡ spec.with_lines (spec.held self.old) 1 [] (pieces 10 report.now)) }
    {
        let mut number: usize = 1;
        let mut previous: &[u8] = b"";
        let mut rest = Some(report);
        while let Some(text) = rest {
            let (bytes, more) = cut(text, b'\n');
            let line = ReportLine {
                number,
                previous,
                bytes,
            };
            self.add_line(alloc, &line)?;
            number = number.saturating_add(1);
            previous = bytes;
            rest = more;
        }
        Ok(())
    }
}

/// Appends a line on a line that cannot be read.
#[tactic(auto, unfolding(crate::specs::Waves::fault_text))]
fn push_fault(text: &mut Vec<u8>, line: usize, why: &[u8]) -> Result<(), AllocError>
    ensures { OnOk result (text.new.items ≡ text.old.items ++ spec.fault_text line why.now) }
{
    let mut digits = Buffer::new();
    let number = digits.format(line).as_bytes();
    push_pieces(text, &[b"report line ", number, b": ", why, b"\n"])
}

/// A value, where a call on it went well.
fn where_done<T: Drop>(value: T, done: Result<(), AllocError>) -> Result<T, AllocError>
    ensures { MatchResult done (λ _. result ≡ Ok value) (λ fault. result ≡ Err fault) }
{
    match done {
        Ok(()) => Ok(value),
        Err(fault) => Err(fault),
    }
}

/// What a report with these bytes comes to as a value change dump. `AllocError` comes only where memory is wanting.
///
/// Each section of the report has a scope, in which its inputs stand, and in that one for the cell, for its Verilog module and
/// for its VHDL entity, each with its outputs and its checks. A line that cannot be read is left out, and told.
pub fn waves_of(alloc: Global, report: &[u8]) -> Result<Waves, AllocError>
    ensures { IfOk result (λ w. spec.held w ≡ spec.drawing_of report.now) }
{
    let mut waves = Waves::new(alloc);
    let drawn = waves.draw(alloc, report);
    where_done(waves, drawn)
}

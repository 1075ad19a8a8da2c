//! Sections that are run on a cell, its module and its entity.
use super::inverter::START;
use super::libraries::INVERTER;
use super::sections::{SECTIONS, Section};
use super::simulations::{Models, Simulation};
use crate::tests::runs::{
    Files, Left, PLAIN_FLIP_FLOP_MODULE, Status, TIMED_FLIP_FLOP, TIMED_FLIP_FLOP_ENTITY,
    TIMED_FLIP_FLOP_MODULE, simulated, simulated_beside_its_own,
};
use std::alloc::{AllocError, Global};
use std::test::Fail;
use table_tests::{Row, all_hold};

/// Adds texts, one behind the other.
fn push_all(text: &mut String, parts: &[&str]) -> Result<(), AllocError> {
    for part in parts {
        text.push_str(part)?;
    }
    Ok(())
}

/// Adds the lines of a stimulus.
fn push_stimulus(text: &mut String, section: &Section<'_>) -> Result<(), AllocError> {
    push_all(text, &["cell ", section.cell, "\n"])?;
    for (change, _) in section.lines {
        push_all(text, &[change, "\n"])?;
    }
    Ok(())
}

/// The stimulus of a section.
fn stimulus_of(alloc: Global, section: &Section<'_>) -> Result<String, AllocError> {
    let mut text = String::new(alloc);
    push_stimulus(&mut text, section)?;
    Ok(text)
}

/// Adds what each of the three shows.
fn push_three<'a>(text: &mut String, change: &'a str, shown: &'a str) -> Result<(), AllocError> {
    for tag in ["L ", "V ", "H "] {
        push_all(text, &[tag, change, " : ", shown, "\n"])?;
    }
    Ok(())
}

/// Adds the lines of a report.
fn push_report(text: &mut String, section: &Section<'_>) -> Result<(), AllocError> {
    push_all(text, &["cell ", section.cell, "\n"])?;
    push_three(text, "start", section.start)?;
    for (change, shown) in section.lines {
        push_three(text, change, shown)?;
    }
    text.push_str("equal\n")
}

/// The report of a section.
fn report_of(alloc: Global, section: &Section<'_>) -> Result<String, AllocError> {
    let mut text = String::new(alloc);
    push_report(&mut text, section)?;
    Ok(text)
}

/// Whether a run left the report of a section.
fn is_report(alloc: Global, left: &Option<Left>, section: &Section<'_>) -> bool {
    match (left, &report_of(alloc, section)) {
        (Some(left), Ok(report)) => left.is(Status::Done, report.as_str(), ""),
        _ => false,
    }
}

/// Runs a section on its cell and on the models of this cell.
fn ran_beside_its_own(alloc: Global, section: &Section<'_>) -> Option<Left> {
    match &stimulus_of(alloc, section) {
        Ok(stimulus) => simulated_beside_its_own(alloc, section.library, stimulus.as_str()),
        Err(_) => None,
    }
}

impl Row for Section<'_> {
    fn holds(&self, alloc: Global) -> bool {
        is_report(alloc, &ran_beside_its_own(alloc, self), self)
    }
}

/// Simulates the flip-flop with a setup time, a module of this text and its entity.
fn ran_beside(alloc: Global, stimulus: &str, module: &str) -> Option<Left> {
    let files = Files {
        library: TIMED_FLIP_FLOP.as_bytes(),
        verilog: module.as_bytes(),
        vital: TIMED_FLIP_FLOP_ENTITY.as_bytes(),
        stimulus: stimulus.as_bytes(),
    };
    simulated(alloc, files).ok()
}

/// Whether these show what a section says.
fn shows_beside(alloc: Global, section: &Section<'_>, module: &str) -> bool {
    match &stimulus_of(alloc, section) {
        Ok(stimulus) => is_report(
            alloc,
            &ran_beside(alloc, stimulus.as_str(), module),
            section,
        ),
        Err(_) => false,
    }
}

/// A rise of the clock behind a change of the data at 100, what the flip-flop with a setup time of 50 shows then, and its module.
struct Rise((&'static str, &'static str), &'static str);

impl Row for Rise {
    fn holds(&self, alloc: Global) -> bool {
        let section = Section {
            library: TIMED_FLIP_FLOP,
            cell: "DFFT",
            start: "Q=x",
            lines: &[("10 CK 0", "Q=x"), ("100 D 1", "Q=x"), self.0],
        };
        shows_beside(alloc, &section, self.1)
    }
}

const RISES: [Rise; 6] = [
    Rise(("149 CK 1", "Q=x !1"), TIMED_FLIP_FLOP_MODULE),
    Rise(("150 CK 1", "Q=1@100"), TIMED_FLIP_FLOP_MODULE),
    Rise(("151 CK 1", "Q=1@100"), TIMED_FLIP_FLOP_MODULE),
    Rise(("149 CK 1", "Q=x !1"), PLAIN_FLIP_FLOP_MODULE),
    Rise(("150 CK 1", "Q=1@100"), PLAIN_FLIP_FLOP_MODULE),
    Rise(("151 CK 1", "Q=1@100"), PLAIN_FLIP_FLOP_MODULE),
];

/// A stimulus of the inverter beside its own models, and its report.
macro_rules! of_inverter {
    ($stimulus:literal, $report:expr) => {
        Simulation {
            library: INVERTER,
            verilog: Models::Of(INVERTER),
            vital: Models::Of(INVERTER),
            stimulus: $stimulus,
            status: Status::Done,
            report: $report,
            faults: "",
        }
    };
}

/// A section without a change, and no section.
const WITHOUT_CHANGES: [Simulation; 2] = [of_inverter!("cell INV", START), of_inverter!("", "")];

#[test]
fn a_cell_and_its_models_show_the_same(rt: HostRuntime) -> Result<(), Fail> {
    all_hold(rt.alloc(), &SECTIONS)?;
    all_hold(rt.alloc(), &RISES)?;
    all_hold(rt.alloc(), &WITHOUT_CHANGES)
}

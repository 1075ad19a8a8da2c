//! The sections of a replay: each is run on its model, and printed.
ghost use Rattle.std.specs.Prelude.{◌≡◌, All, length, OnOk};
ghost use Rattle.text_io.specs.Desk.{StopsWithCause};
ghost use Rattle.stimulus.specs.Writes.{WritesTrace};
ghost use Rattle.model_replay.specs.ModelPorts.{models_named};
ghost use Rattle.model_replay.specs.KnownModels.{AreStarts};
ghost use Rattle.model_replay.specs.Outcome.{replayed_section_text, replayed_sections_text};
ghost use Rattle.model_replay.specs.Replays.{CanBeRun, IsFound};

use crate::known::learn;
use crate::reading::Replay;
use model_files::{ModelLanguage, nothing_known};
use std::alloc::Global;
use stimulus::{Ports, Section};
use text_io::{Desk, Stop};

/// Appends a section to the report, whose model this is with the names of its ports, and of which this is known; or, after a
/// fault, a prefix of it.
fn write_found_section<D: Desk, L: ModelLanguage>(
    alloc: Global,
    desk: &mut D,
    replay: &Replay<L::Model>,
    section: &Section,
    model: &L::Model,
    start: &L::Start,
    ports: &Ports,
) -> Result<(), Stop>
    requires found { IsFound L.language replay.now.models section.now model.now ports.now }
    requires start { L.is_start model.now start.now }
    ensures text { WritesTrace (D.state desk.old) (D.state desk.new)
        (replayed_section_text L.language replay.now.models section.now) result }
    ensures cause { StopsWithCause (D.faults desk.old) (D.faults desk.new) result }
{
    L::write_model_trace(alloc, desk, model, start, ports, section.changes.as_slice())
}

/// Appends a section that can be run to the report, or, after a fault, a prefix of it. What is known of its model is found where
/// no section was of it before.
fn write_replayed_section<D: Desk, L: ModelLanguage>(
    alloc: Global,
    desk: &mut D,
    replay: &Replay<L::Model>,
    known: &mut Vec<Option<L::Start>>,
    section: &Section,
) -> Result<(), Stop>
    requires catalog { replay.now.catalog ≡ models_named L.language replay.now.models }
    requires run { CanBeRun L.language replay.now.models section.now }
    requires known { AreStarts L.is_start replay.now.models known.old.items }
    requires each { length known.old.items ≡ length replay.now.models }
    ensures text { WritesTrace (D.state desk.old) (D.state desk.new)
        (replayed_section_text L.language replay.now.models section.now) result }
    ensures known { OnOk result (AreStarts L.is_start replay.now.models known.new.items) }
    ensures each { OnOk result (length known.new.items ≡ length known.old.items) }
    ensures cause { StopsWithCause (D.faults desk.old) (D.faults desk.new) result }
{
    let model = &replay.models.as_slice()[section.cell];
    learn::<L>(alloc, known, section.cell, model)?;
    let Some(start) = &known[section.cell] else {
        unreachable!();
    };
    let ports = replay.catalog.ports(section.cell);
    write_found_section::<D, L>(alloc, desk, replay, section, model, start, ports)
}

/// Appends the sections of a replay to the report, in order, or, after a fault, a prefix of them. `Failed` comes only where a
/// write failed.
pub(crate) fn write_replayed_sections<D: Desk, L: ModelLanguage>(
    alloc: Global,
    desk: &mut D,
    replay: &Replay<L::Model>,
) -> Result<(), Stop>
    requires catalog { replay.now.catalog ≡ models_named L.language replay.now.models }
    requires runs { All (CanBeRun L.language replay.now.models) replay.now.sections }
    ensures text { WritesTrace (D.state desk.old) (D.state desk.new)
        (replayed_sections_text L.language replay.now.models replay.now.sections) result }
    ensures cause { StopsWithCause (D.faults desk.old) (D.faults desk.new) result }
{
    let mut known = nothing_known(alloc, replay.models.len())?;
    for section in replay.sections.as_slice() {
        write_replayed_section::<D, L>(alloc, desk, replay, &mut known, section)?;
    }
    Ok(())
}

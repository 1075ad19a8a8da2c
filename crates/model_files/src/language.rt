//! What a run needs to know of a language of models.
ghost use Rattle.std.specs.Prelude.{◌≡◌, ◌≤◌, [], All, length, Ok, IfOk, IfErr};
ghost use Rattle.text_io.specs.Desk.{StopsWithCause};
ghost use Rattle.cell_machine.specs.History.{IsProperFrom};
ghost use Rattle.stimulus.specs.Writes.{WritesTrace};
ghost use Rattle.model_files.specs.{Languages.Language, Languages.IsFaultIn, Languages.model_trace_text};
ghost use Rattle.model_files.specs.{Limits.model_limit, ModelNames.HaveOwnNames};

use crate::format::ModelFormat;
use cell_machine::Change;
use std::alloc::{AllocError, Global};
use stimulus::Ports;
use text_io::{Desk, Stop};
use udp_tables::{ModelFault, VPort};

/// A language of models: what its texts are, what its models are called, and how they are run.
pub trait ModelLanguage {
    /// A model.
    type Model: Drop;

    /// What is known of a model before any change, which all its runs begin with.
    type Start: Drop;

    ghost language: { Language Self.Model };

    /// This is known of a model before any change.
    ghost is_start: { Self.Model → Self.Start → Type 0 };

    /// The format of the language's files.
    fn format() -> ModelFormat
        ensures { result ≡ language.format };

    /// The models of a text, in order. They are well formed and have names of their own. The fault is the first of the text;
    /// `Memory` comes only where memory is wanted and not there.
    fn read(alloc: Global, text: &[u8]) -> Result<Vec<Self::Model>, ModelFault>
        requires { length text.now ≤ model_limit }
        ensures models { IfOk result (λ found. language.text text.now ≡ Ok found.items) }
        ensures well_formed { IfOk result (λ found. All language.is_well_formed found.items) }
        ensures own { IfOk result (λ found. HaveOwnNames language found.items) }
        ensures fault { IfErr result (IsFaultIn (language.text text.now)) };

    /// The name of a model, as it is spelled.
    fn name(model: &Self::Model) -> &[u8]
        ensures { result.now ≡ language.name model.now };

    /// The ports of a model, in order.
    fn ports(model: &Self::Model) -> &[VPort]
        ensures { result.now ≡ language.ports model.now };

    /// What is known of a model before any change. `AllocError` comes only where memory is wanted and not there.
    fn start(alloc: Global, model: &Self::Model) -> Result<Self::Start, AllocError>
        requires { language.is_well_formed model.now }
        ensures { IfOk result (λ start. is_start model.now start) };

    /// Gives the changes to a model from its start on, and appends its section to the report. The changes are of its inputs,
    /// at times that rise strictly, and there is a name for each of its inputs and outputs. After a fault a prefix of the
    /// section was appended. `Failed` comes only where a write failed.
    fn write_model_trace<D: Desk>(
        alloc: Global,
        desk: &mut D,
        model: &Self::Model,
        start: &Self::Start,
        ports: &Ports,
        changes: &[Change],
    ) -> Result<(), Stop>
        requires well_formed { language.is_well_formed model.now }
        requires start { is_start model.now start.now }
        requires inputs { length ports.now.inputs ≡ (language.machine model.now).inputs }
        requires outputs { length ports.now.outputs ≡ (language.machine model.now).outputs }
        requires proper { IsProperFrom (language.machine model.now).inputs [] changes.now }
        ensures text { WritesTrace (D.state desk.old) (D.state desk.new)
            (model_trace_text language model.now ports.now changes.now) result }
        ensures cause { StopsWithCause (D.faults desk.old) (D.faults desk.new) result };
}

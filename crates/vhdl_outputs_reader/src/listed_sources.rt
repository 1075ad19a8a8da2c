//! Sources in the order in which they were listed, of which each is found at once.

ghost use Rattle.std.specs.Prelude.{◌≡◌, ◌∷◌, [], ◌++◌, false, IfOk};
ghost use Rattle.std.specs.List.{list_any};
ghost use Rattle.vhdl_grammar.specs.VhdlNames.{same_source};
ghost use Rattle.vhdl_outputs_reader.specs.SourceParts.{is_numbered, pins_with, states_with};

use cell_machine::Source;
use sqlite_items::Items;
use std::alloc::{AllocError, Global};
use std::marker::Model;
use vhdl_grammar::Listed;

/// The numbers of the inputs and those of the states among sources, each in the order of the sources.
#[derive(Drop)]
struct Numbers {
    pins: Listed,
    states: Listed,
}

impl Numbers {
    /// Whether the number of a source stands among those of its kind, in the time of one look-up.
    #[tactic(auto, unfolding(crate::specs::SourceParts::is_numbered))]
    fn has(&self, source: Source) -> bool
        ensures { result ≡ is_numbered source self.now.pins self.now.states }
    {
        match source {
            Source::Pin(port) => self.pins.has(port),
            Source::State(state) => self.states.has(state),
        }
    }

    /// These numbers, and that of one more source, which is none of them. An `Err` comes only where memory is wanting.
    #[tactic(auto, unfolding(crate::specs::SourceParts::is_numbered, crate::specs::SourceParts::pins_with, crate::specs::SourceParts::states_with))]
    fn with(self, source: Source) -> Result<Numbers, AllocError>
        requires { is_numbered source self.pins self.states ≡ false }
        ensures pins { IfOk result (λ more. more.pins ≡ pins_with source self.pins) }
        ensures states { IfOk result (λ more. more.states ≡ states_with source self.states) }
    {
        let Numbers { pins, states } = self;
        match source {
            Source::Pin(port) => Ok(Numbers {
                pins: pins.with(port)?,
                states,
            }),
            Source::State(state) => Ok(Numbers {
                states: states.with(state)?,
                pins,
            }),
        }
    }
}

/// Sources in the order in which they were listed. Contracts see the list of them. Beside them stand their numbers.
#[derive(Drop)]
pub struct ListedSources {
    numbers: Numbers,
    sources: Items<Source>,
}

impl Model for ListedSources {
    ghost use Rattle.std.specs.Prelude.{◌≡◌, List};
    ghost use Rattle.cell_machine.specs.declared.outputs.Source.{Source};
    ghost use Rattle.vhdl_outputs_reader.specs.SourceParts.{pins_of, states_of};

    ghost Value = { List Source };

    ghost view = { λ l. l.sources };

    ghost invariant = { λ l. (l.numbers.pins ≡ pins_of l.sources) × (l.numbers.states ≡ states_of l.sources) };
}

impl ListedSources {
    /// No sources. Takes no memory.
    pub fn new(alloc: Global) -> ListedSources
        ensures { result ≡ [] }
    {
        let numbers = Numbers {
            pins: Listed::new(alloc),
            states: Listed::new(alloc),
        };
        ListedSources {
            sources: Items::new(alloc),
            numbers,
        }
    }

    /// The list of these sources, alone.
    pub fn into_items(self) -> Items<Source>
        ensures { result ≡ self }
    {
        let ListedSources { sources, .. } = self;
        sources
    }

    /// Whether a source is one of these, in the time of one look-up.
    #[tactic(auto, using(crate::proofs::SourceNumbers::source_found))]
    pub fn has(&self, source: Source) -> bool
        ensures { result ≡ list_any (same_source source) self.now }
    {
        self.numbers.has(source)
    }

    /// These sources, and one more behind them, which is none of them. An `Err` comes only where memory is wanting.
    #[tactic(auto, using(crate::proofs::SourceNumbers::source_found, crate::proofs::SourceNumbers::pins_added, crate::proofs::SourceNumbers::states_added))]
    pub fn with(self, source: Source) -> Result<ListedSources, AllocError>
        requires { list_any (same_source source) self ≡ false }
        ensures { IfOk result (λ more. more ≡ self ++ source ∷ []) }
    {
        let ListedSources {
            mut sources,
            numbers,
        } = self;
        let numbers = numbers.with(source)?;
        sources.push(source)?;
        Ok(ListedSources { sources, numbers })
    }
}

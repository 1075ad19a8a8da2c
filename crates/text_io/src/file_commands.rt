//! The commands that work on files: the word of each, and what its other words name.

ghost use Rattle.std.specs.Prelude.{◌≡◌, IfSome};
ghost use Rattle.std.specs.Option.{option_map};
ghost use Rattle.text_io.specs.FileCommands.{command_of, slots_of};

use crate::slots::{InSlot, OutSlot, Slot};

const LIBRARY: Slot = Slot::Input(InSlot::Library);

const VERILOG: Slot = Slot::Input(InSlot::Verilog);

const VITAL: Slot = Slot::Input(InSlot::Vital);

const STIMULUS: Slot = Slot::Input(InSlot::Stimulus);

const VERILOG_TEXT: Slot = Slot::Output(OutSlot::VerilogText);

const VITAL_TEXT: Slot = Slot::Output(OutSlot::VitalText);

/// A command that works on files, each of which a word names.
#[derive(Clone, Copy)]
pub enum FileCommand {
    /// Writes the models of the cells of a library.
    Translate,
    /// Compares the traces of the cells of a library, of their Verilog modules and of their VHDL entities under a stimulus.
    Simulate,
    /// Prints the traces of Verilog modules under a stimulus.
    ReplayVerilog,
    /// Prints the traces of VHDL entities under a stimulus.
    ReplayVital,
    /// Compares the tables of the cells of a library with those of the Verilog modules of their names.
    Audit,
}

/// A command, and the slots of its files in the order of its words.
#[derive(Clone, Copy)]
pub(crate) struct CommandFiles {
    pub(crate) command: FileCommand,
    pub(crate) slots: &'static [Slot],
}

impl CommandFiles {
    /// The command of this word.
    pub(crate) fn of_word(word: &str) -> Option<CommandFiles>
        ensures command { option_map (λ named. named.command) result ≡ command_of word.now }
        ensures slots { IfSome result (λ named. named.slots.now ≡ slots_of named.command) }
    {
        let (command, slots): (FileCommand, &'static [Slot]) = match word {
            "translate" => (FileCommand::Translate, &[LIBRARY, VERILOG_TEXT, VITAL_TEXT]),
            "simulate" => (FileCommand::Simulate, &[LIBRARY, VERILOG, VITAL, STIMULUS]),
            "replay-verilog" => (FileCommand::ReplayVerilog, &[VERILOG, STIMULUS]),
            "replay-vital" => (FileCommand::ReplayVital, &[VITAL, STIMULUS]),
            "audit" => (FileCommand::Audit, &[LIBRARY, VERILOG]),
            _ => return None,
        };
        Some(CommandFiles { command, slots })
    }
}

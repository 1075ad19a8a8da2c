//! Laws of Verilog text: functions that do nothing, whose `ensures` holds of every text.

ghost use Rattle.std.specs.Prelude.{false};
ghost use Rattle.verilog_tokens.specs.Separators.{Padded};
ghost use Rattle.grammar_reader.specs.TextLaws.{HaveSameValues, HasFaultAtFirstToken};
ghost use Rattle.verilog_grammar.specs.VerilogText.{language};

/// Blanks, line ends and comments that are added between the tokens of a text change none of its modules.
pub fn added_separators_change_no_module(text: &[u8], padded: &[u8])
    ensures { Padded false text.now padded.now → HaveSameValues language text.now padded.now }
{}

/// The token of a fault is the first with which the tokens so far are no front of a file.
pub fn fault_is_at_first_token(text: &[u8])
    ensures { HasFaultAtFirstToken language text.now }
{}

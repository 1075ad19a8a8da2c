//! Theorems on the definitions, for the proofs of other crates. The functions do nothing.

ghost use Rattle.grammar_reader.specs.Texts.{HaveOneAnswer};
ghost use Rattle.verilog_grammar.specs.Laws.{TextsAreWellFormed};
ghost use Rattle.verilog_grammar.specs.VerilogText.{language};

/// The modules of a Verilog text are well formed: each is sound, its names are identifiers of which none stands twice, and
/// what its primitives and numbers may be is kept.
#[tactic(auto, using(crate::proofs::ReadText::text_modules))]
pub fn texts_are_well_formed()
    ensures { TextsAreWellFormed }
{}

/// A text has modules or a fault, one of them, and they are those that the relations over tokens give.
#[tactic(auto, using(crate::proofs::VerilogAnswers::is_answer))]
pub fn verilog_text_has_one_answer()
    ensures { HaveOneAnswer language }
{}

//! Theorems on the definitions, for the proofs of other crates. The functions do nothing.

ghost use Rattle.grammar_reader.specs.Texts.{HaveOneAnswer};
ghost use Rattle.vhdl_grammar.specs.Laws.{TextsAreWellFormed};
ghost use Rattle.vhdl_grammar.specs.VhdlText.{language};

/// A text has entities or a fault, one of them, and they are those that the relations over tokens give.
#[tactic(auto, using(crate::proofs::VhdlAnswers::is_answer))]
pub fn vhdl_text_has_one_answer()
    ensures { HaveOneAnswer language }
{}

/// The entities of a VHDL text are well formed, where its length has at most 64 bits, as that of every slice: each is sound, its
/// names are identifiers of which none stands twice, its conditions are looked up in order, and its numbers stay in their limits.
#[tactic(auto, using(crate::proofs::ReadText::text_entities))]
pub fn texts_are_well_formed()
    ensures { TextsAreWellFormed }
{}

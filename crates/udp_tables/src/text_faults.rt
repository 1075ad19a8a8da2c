//! The faults of texts of models, whatever their language.

ghost use Rattle.std.specs.Prelude.{◌≡◌, length};
ghost use Rattle.grammar_reader.specs.Texts.{refusal_fault};
ghost use Rattle.grammar_reader.specs.lexer.Spans.{tokens_of};
ghost use Rattle.udp_tables.specs.ModelFaults.{fault_at, model_faults};

use crate::models::ModelFault;
use grammar_reader::tokens::{KeptSpan, place_of};
use grammar_reader::{Cursor, Language, Refusal};

/// The fault of a refusal at an offset.
fn fault_at(refusal: Refusal, at: usize) -> ModelFault
    ensures { result ≡ fault_at refusal at }
{
    match refusal {
        Refusal::Syntax => ModelFault::Syntax(at),
        Refusal::TwoEdges => ModelFault::TwoEdges(at),
        Refusal::Width => ModelFault::Width(at),
        Refusal::Undefined => ModelFault::Undefined(at),
        Refusal::Twice => ModelFault::Twice(at),
        Refusal::Undriven => ModelFault::Undriven(at),
        Refusal::Unequal => ModelFault::Unequal(at),
    }
}

/// The fault of a text, in any language of models, with these tokens and this lexical fault, whose reader refuses it before the
/// tokens that are left. Where none is left, the lexical fault counts, if there is one.
pub fn refusal_fault<L: Language>(
    text: &[u8],
    tokens: &[KeptSpan],
    lexical: Option<usize>,
    refusal: Refusal,
    left: &Cursor<'_, L>,
) -> ModelFault
    ensures { result ≡ refusal_fault model_faults (length text.now) (tokens_of text.now tokens.now) lexical refusal left.now }
{
    if left.left() > 0 {
        return fault_at(refusal, place_of(text, tokens, left.left()));
    }
    match lexical {
        None => fault_at(refusal, text.len()),
        Some(at) => ModelFault::Lexical(at),
    }
}

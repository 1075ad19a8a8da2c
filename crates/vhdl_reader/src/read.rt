//! VHDL text to entities, or to its fault.

ghost use Rattle.std.specs.Prelude.{◌≡◌, IfOk, IfErr, Ok};
ghost use Rattle.vhdl_declarations_reader.specs.vhdl_grammar.VhdlText.{vhdl_text, language};
ghost use Rattle.vhdl_declarations_reader.specs.vhdl_grammar.WellFormed.{AreWellFormed};
ghost use Rattle.lexer.specs.Spans.{tokens_of};
ghost use Rattle.vhdl_reader.specs.File.{IsFaultOf};

use crate::entity::file;
use grammar_reader::{Cursor, Stop};
use lexer::Scan;
use std::alloc::Global;
use vhdl_declarations_reader::entities::VEntity;
use vhdl_declarations_reader::grammar::{Vhdl, texts_are_well_formed, vhdl_text_has_one_answer};
use vhdl_declarations_reader::primitives::{ModelFault, refusal_fault};
use vhdl_tokens::scan;

/// The entities of a VHDL text, or its first fault.
#[tactic(auto, unfolding(crate::specs::File::vhdl_text), using(lexer::proofs::Spelled::spelled))]
fn entities_of(alloc: Global, text: &[u8]) -> Result<Vec<VEntity>, ModelFault>
    ensures entities { IfOk result (λ found. vhdl_text text.now ≡ Ok found.items) }
    ensures fault { IfErr result (λ e. IsFaultOf text.now e) }
{
    let Ok(Scan { tokens, fault }) = scan(alloc, text) else {
        return Err(ModelFault::Memory);
    };
    let mut cursor = Cursor::<Vhdl>::new(text, tokens);
    match file(&mut cursor, alloc) {
        Ok(entities) => match fault {
            None => Ok(entities),
            Some(at) => Err(ModelFault::Lexical(at)),
        },
        Err(Stop::Memory) => Err(ModelFault::Memory),
        // the cursor holds no tokens but those that are left
        Err(Stop::Refused(refusal)) => match scan(alloc, text) {
            Ok(Scan { tokens, fault }) => {
                Err(refusal_fault(text, &tokens, fault, refusal, &cursor))
            }
            Err(_) => Err(ModelFault::Memory),
        },
    }
}

/// The entities of a VHDL text. (IEEE 1076-1993, 1.1 and 1.2; IEEE 1076.4-2000; the subset is this project's.)
///
/// The fault is the first: the place where no token begins, the first token with which no text goes on or that breaks a rule, or
/// the end of the text. Its offset counts bytes from 0. Entities that are read are well formed: each is sound, and no name stands
/// twice where it must not.
pub fn read_entities(alloc: Global, text: &[u8]) -> Result<Vec<VEntity>, ModelFault>
    ensures entities { IfOk result (λ found. vhdl_text text.now ≡ Ok found.items) }
    ensures well_formed { IfOk result (λ found. AreWellFormed found.items) }
    ensures fault { IfErr result (λ e. IsFaultOf text.now e) }
{
    vhdl_text_has_one_answer();
    texts_are_well_formed();
    entities_of(alloc, text)
}

//! Verilog text to modules, or to its fault.

ghost use Rattle.std.specs.Prelude.{◌≡◌, length, IfOk, IfErr, Ok};
ghost use Rattle.grammar_rules.specs.Reading.{read};
ghost use Rattle.verilog_grammar.specs.VerilogText.{verilog_text, language};
ghost use Rattle.verilog_grammar.specs.WellFormed.{AreWellFormed};
ghost use Rattle.lexer.specs.Spans.{tokens_of, spelled};
ghost use Rattle.verilog_reader.specs.File.{IsFaultOf};

use crate::file::{Before, file};
use grammar_reader::{Cursor, Stop};
use lexer::Scan;
use std::alloc::Global;
use udp_tables::{ModelFault, refusal_fault};
use verilog_grammar::modules::VModule;
use verilog_tokens::scan;
use verilog_udp_reader::Verilog;

/// The modules of a Verilog text, or its first fault.
#[tactic(auto, unfolding(verilog_grammar::specs::VerilogText::verilog_text), using(lexer::proofs::Spelled::spelled))]
fn models_of(alloc: Global, text: &[u8]) -> Result<Vec<VModule>, ModelFault>
    ensures modules { IfOk result (λ found. verilog_text text.now ≡ Ok found.items) }
    ensures fault { IfErr result (λ e. IsFaultOf text.now e) }
{
    let Ok(Scan { tokens, fault }) = scan(alloc, text) else {
        return Err(ModelFault::Memory);
    };
    let mut cursor = Cursor::<Verilog>::new(text, tokens);
    match file(&mut cursor, alloc) {
        Ok(Before { modules, .. }) => match fault {
            None => Ok(modules),
            Some(at) => Err(ModelFault::Lexical(at)),
        },
        Err(Stop::Memory) => Err(ModelFault::Memory),
        // the cursor holds no tokens but those that are left
        Err(Stop::Refused(refusal)) => match scan(alloc, text) {
            Ok(Scan { tokens, fault }) => {
                Err(refusal_fault(text, &tokens, fault, refusal, &cursor))
            }
            Err(_) => Err(ModelFault::Memory),
        },
    }
}

/// The modules of a Verilog text. (IEEE 1364-2005, clauses 3, 8, 12, 14 and 15; the subset is this project's.)
///
/// The fault is the first: the place where no token begins, the first token with which no text goes on or that breaks a rule, or
/// the end of the text. Its offset counts bytes from 0. Modules that are read are well formed: each is sound, and no name stands
/// twice where it must not.
pub fn read_models(alloc: Global, text: &[u8]) -> Result<Vec<VModule>, ModelFault>
    ensures modules { IfOk result (λ found. verilog_text text.now ≡ Ok found.items) }
    ensures well_formed { IfOk result (λ found. AreWellFormed found.items) }
    ensures fault { IfErr result (λ e. IsFaultOf text.now e) }
{
    models_of(alloc, text)
}

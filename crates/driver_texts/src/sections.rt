//! The bytes of a section to a driver, or to their fault, in any language.

ghost use Rattle.std.specs.Prelude.{◌≡◌, IfOk, IfErr, Ok};
ghost use Rattle.lexer.specs.Spans.{LieInside, tokens_of};
ghost use Rattle.lexer.specs.Tokens.{scan_of};
ghost use Rattle.grammar_reader.specs.Reading.{read, Reads};
ghost use Rattle.driver_models.specs.Models.{IsSound};
ghost use Rattle.driver_texts.specs.Sections as spec;

use crate::section_parts::SectionFront;
use driver_models::{Cores, DriverLanguage, DriverModel, KnownNames};
use grammar_reader::{Cursor, Read, Stop};
use lexer::Scan;
use std::alloc::{AllocError, Global};
use udp_tables::{ModelFault, refusal_fault};

/// A language with sections that hold drivers.
pub trait DriverSections: DriverLanguage {
    ghost use Rattle.driver_texts.specs.Sections.{SectionGrammar};

    ghost grammar: { SectionGrammar };

    /// The tokens of a text before its lexical fault, and the offset of the fault, if there is one. An `Err` comes only where
    /// memory is wanting.
    fn scan(alloc: Global, text: &[u8]) -> Result<Scan, AllocError>
        ensures tokens { IfOk result (λ found. tokens_of text.now found.tokens.items ≡ (scan_of grammar.lexis text.now).0) }
        ensures fault { IfOk result (λ found. found.fault ≡ (scan_of grammar.lexis text.now).1) }
        ensures inside { IfOk result (λ found. LieInside text.now found.tokens.items) };

    /// What a section begins with, where these names are taken.
    fn front(
        cursor: &mut Cursor<'_, Self::Spelling>,
        alloc: Global,
        names: &KnownNames<Self>,
    ) -> Read<SectionFront>
        ensures { Reads (read (grammar.front names.now) cursor.old) result cursor.new };

    /// The rest of a section behind its front, where the models that may be cores are these.
    fn rest(
        cursor: &mut Cursor<'_, Self::Spelling>,
        alloc: Global,
        cores: &Cores<'_, Self>,
        front: SectionFront,
    ) -> Read<DriverModel>
        ensures { Reads (read (grammar.rest cores.now front) cursor.old) result cursor.new };
}

/// A section, where these names are taken and the models that may be cores are these.
#[tactic(auto, unfolding(crate::specs::Sections::section))]
fn section<L: DriverSections>(
    cursor: &mut Cursor<'_, L::Spelling>,
    alloc: Global,
    names: &KnownNames<L>,
    cores: &Cores<'_, L>,
) -> Read<DriverModel>
    ensures { Reads (read (spec.section L.grammar names.now cores.now) cursor.old) result cursor.new }
{
    let front = L::front(cursor, alloc, names)?;
    L::rest(cursor, alloc, cores, front)
}

/// The driver of a section of a text, where these names are taken and the models that may be cores are these.
///
/// The fault is the first: the place where no token begins, the first token with which no section goes on or that breaks a rule,
/// or the end of the text. Its offset counts bytes from the section's beginning. A driver that is read is sound, since in either
/// language it may stand where it was read.
#[tactic(auto, unfolding(crate::specs::Sections::section_text), using(lexer::proofs::Spelled::spelled))]
pub fn read_driver<L: DriverSections>(
    alloc: Global,
    text: &[u8],
    names: &KnownNames<L>,
    cores: &Cores<'_, L>,
) -> Result<DriverModel, ModelFault>
    ensures driver { IfOk result (λ found. spec.section_text L.grammar names.now cores.now text.now ≡ Ok found) }
    ensures sound { spec.StandWhereRead L.grammar L.Spelling.is_same → IfOk result (λ found. IsSound found) }
    ensures fault { IfErr result (λ e. spec.IsFaultOf L.grammar names.now cores.now text.now e) }
{
    let Ok(Scan { tokens, fault }) = L::scan(alloc, text) else {
        return Err(ModelFault::Memory);
    };
    let mut cursor = Cursor::<L::Spelling>::new(text, tokens);
    match section(&mut cursor, alloc, names, cores) {
        Ok(found) => match fault {
            None => Ok(found),
            Some(at) => Err(ModelFault::Lexical(at)),
        },
        Err(Stop::Memory) => Err(ModelFault::Memory),
        // the cursor holds no tokens but those that are left
        Err(Stop::Refused(refusal)) => match L::scan(alloc, text) {
            Ok(Scan { tokens, fault }) => {
                Err(refusal_fault(text, &tokens, fault, refusal, &cursor))
            }
            Err(_) => Err(ModelFault::Memory),
        },
    }
}

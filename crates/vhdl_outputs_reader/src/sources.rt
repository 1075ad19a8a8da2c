//! The inputs and states that the calls of tables of outputs list. (IEEE 1076.4-2000, VitalTruthTable; IEEE 1076-1993, 7.3.2.)

ghost use Rattle.std.specs.Prelude.{◌≡◌, [], true, false, IfOk};
ghost use Rattle.std.specs.List.{list_any};
ghost use Rattle.grammar_reader.specs.Reading.{read, Reads};
ghost use Rattle.vhdl_tokens.specs.Tokens.{is_name};
ghost use Rattle.vhdl_grammar.specs.VhdlRules as rules;
ghost use Rattle.vhdl_grammar.specs.VhdlNames as names;

use crate::listed_sources::ListedSources;
use cell_machine::Source;
use grammar_reader::{Read, RepeatedPart, with_read};
use sqlite_items::Items;
use std::alloc::AllocError;
use vhdl_grammar::{
    Cursor, Declarations, Vhdl, elements, input_of, list_end, place_among, unlisted,
};

/// The source of a name: an input, or a state. An `Err` comes only where memory is wanting.
fn source_of(scope: &Declarations, token: &[u8]) -> Result<Option<Source>, AllocError>
    requires { is_name token.now ≡ true }
    ensures { IfOk result (λ found. found ≡ names.source_of scope.now token.now) }
{
    if let Some(port) = input_of(scope.ports(), token)? {
        return Ok(Some(Source::Pin(port)));
    }
    match place_among(b"s_", scope.tables().states.len(), token) {
        Some(state) => Ok(Some(Source::State(state))),
        None => Ok(None),
    }
}

/// The name of a source behind these in a list.
#[tactic(auto, using(vhdl_grammar::proofs::NextWords::named_fits, vhdl_grammar::proofs::NextWords::named_foul, vhdl_grammar::proofs::NextWords::named_misfit, vhdl_grammar::proofs::NextWords::named_other))]
fn source_name(cursor: &mut Cursor, scope: &Declarations, sources: &ListedSources) -> Read<Source>
    ensures reads { Reads (read (rules.named
        (λ x. names.listed_by (λ s. list_any (names.same_source s) sources.now) (names.source_of scope.now x))) cursor.old) result
        cursor.new }
    ensures fresh { IfOk result (λ source. list_any (names.same_source source) sources.now ≡ false) }
{
    unlisted!(
        cursor,
        token,
        source = source_of(scope, token)?,
        sources.has(source)
    );
    Ok(source)
}

/// A source of a list.
#[derive(Drop)]
struct ListedSource<'a>(&'a Declarations);

impl RepeatedPart<Vhdl> for ListedSource<'_> {
    type Found = ListedSources;

    ghost reading = { λ source sources s. read (names.listed_source source.0.now sources) s };

    #[tactic(auto, unfolding(vhdl_grammar::specs::VhdlNames::listed_source))]
    fn next(&self, cursor: &mut Cursor<'_>, sources: ListedSources) -> Read<ListedSources> {
        let source = source_name(cursor, self.0, &sources);
        let (sources, source) = with_read(sources, source)?;
        let more = sources.with(source)?;
        Ok(more)
    }
}

/// A list of sources.
#[tactic(auto, unfolding(vhdl_grammar::specs::VhdlRules::elements, vhdl_grammar::specs::VhdlRules::only_element, vhdl_grammar::specs::VhdlRules::several_elements, vhdl_grammar::specs::VhdlRules::more_elements))]
fn sources(cursor: &mut Cursor, scope: &Declarations) -> Read<ListedSources>
    ensures { Reads (read (rules.elements (names.listed_source scope.now) []) cursor.old) result cursor.new }
{
    elements(
        cursor,
        &ListedSource(scope),
        ListedSources::new(scope.alloc()),
    )
}

/// A list of so many sources, and its end.
#[tactic(auto, unfolding(vhdl_grammar::specs::VhdlNames::sources_of))]
pub fn sources_of(cursor: &mut Cursor, scope: &Declarations, width: usize) -> Read<Items<Source>>
    ensures { Reads (read (names.sources_of scope.now width) cursor.old) result cursor.new }
{
    let sources = sources(cursor, scope)?;
    let all = sources.into_items();
    list_end(cursor, width, all.len())?;
    Ok(all)
}

//! The inputs that statements name, and lists of them. (IEEE 1076-1993, 6.2 and 7.3.2.)

ghost use Rattle.std.specs.Prelude.{◌≡◌, nat_eq, [], true, false, IfOk};
ghost use Rattle.std.specs.List.{list_any};
ghost use Rattle.grammar_reader.specs.Reading.{read, Reads};
ghost use Rattle.vhdl_tokens.specs.Tokens.{is_name};
ghost use Rattle.vhdl_grammar.specs.VhdlRules as rules;
ghost use Rattle.vhdl_grammar.specs.VhdlNames as spec;

use crate::aggregates::elements;
use crate::language::{Cursor, Vhdl};
use crate::listed::Listed;
use crate::ports::Ports;
use crate::unlisted;
use grammar_reader::{Read, Refusal, RepeatedPart, with_read};
use sqlite_items::Items;
use std::alloc::{AllocError, Global};
use udp_tables::is_input_port;

/// The number of the input with this name, in the time of one look-up. What is found of a token that is no name means nothing. An
/// `Err` comes only where memory is wanting.
pub fn input_of(ports: &Ports, name: &[u8]) -> Result<Option<usize>, AllocError>
    ensures { is_name name.now ≡ true → IfOk result (λ found. found ≡ spec.input_of ports.now name.now) }
{
    match ports.number(name)? {
        Some(port) if is_input_port(ports.as_slice(), port) => Ok(Some(port)),
        _ => Ok(None),
    }
}

/// Whether this thing stands at this place of a list.
fn stands_at(inputs: &[usize], place: usize, port: usize) -> bool
    ensures { result ≡ spec.stands_at inputs.now place port }
{
    match inputs.get(place) {
        Some(input) => port == *input,
        None => false,
    }
}

/// The input of a name that stands at this place of a list. What is found of a token that is no name means nothing. An `Err`
/// comes only where memory is wanting.
pub fn input_at(
    ports: &Ports,
    inputs: &[usize],
    place: usize,
    name: &[u8],
) -> Result<Option<usize>, AllocError>
    ensures { is_name name.now ≡ true
        → IfOk result (λ found. found ≡ spec.kept (spec.stands_at inputs.now place) (spec.input_of ports.now name.now)) }
{
    match input_of(ports, name)? {
        Some(port) if stands_at(inputs, place, port) => Ok(Some(port)),
        _ => Ok(None),
    }
}

/// The name of an input.
#[tactic(auto, unfolding(crate::specs::VhdlNames::an_input))]
pub fn an_input(cursor: &mut Cursor<'_>, ports: &Ports) -> Read<usize>
    ensures { Reads (read (spec.an_input ports.now) cursor.old) result cursor.new }
{
    let found = input_of(ports, cursor.bytes())?;
    cursor.known(found)
}

/// The name of an input behind these in a list.
#[tactic(auto, using(crate::proofs::NextWords::named_fits, crate::proofs::NextWords::named_foul, crate::proofs::NextWords::named_misfit, crate::proofs::NextWords::named_other))]
fn listed_name(cursor: &mut Cursor<'_>, ports: &Ports, inputs: &Listed) -> Read<usize>
    ensures reads { Reads (read (rules.named (spec.input_by ports.now inputs.now)) cursor.old) result cursor.new }
    ensures fresh { IfOk result (λ port. list_any (nat_eq port) inputs.now ≡ false) }
{
    unlisted!(
        cursor,
        token,
        port = input_of(ports, token)?,
        inputs.has(port)
    );
    Ok(port)
}

/// An input of a list.
#[derive(Drop)]
struct ListedInput<'a>(&'a Ports);

impl RepeatedPart<Vhdl> for ListedInput<'_> {
    type Found = Listed;

    ghost reading = { λ input inputs s. read (spec.listed_input input.0.now inputs) s };

    #[tactic(auto, unfolding(crate::specs::VhdlNames::listed_input))]
    fn next(&self, cursor: &mut Cursor<'_>, inputs: Listed) -> Read<Listed> {
        let port = listed_name(cursor, self.0, &inputs);
        let (inputs, port) = with_read(inputs, port)?;
        let more = inputs.with(port)?;
        Ok(more)
    }
}

/// A list of inputs, as a list that finds each at once.
#[tactic(auto, unfolding(crate::specs::VhdlRules::elements, crate::specs::VhdlRules::only_element, crate::specs::VhdlRules::several_elements, crate::specs::VhdlRules::more_elements))]
fn listed_inputs(cursor: &mut Cursor<'_>, alloc: Global, ports: &Ports) -> Read<Listed>
    ensures { Reads (read (rules.elements (spec.listed_input ports.now) []) cursor.old) result cursor.new }
{
    elements(cursor, &ListedInput(ports), Listed::new(alloc))
}

/// A list of inputs, in time that grows with its length.
pub fn inputs(cursor: &mut Cursor<'_>, alloc: Global, ports: &Ports) -> Read<Items<usize>>
    ensures { Reads (read (rules.elements (spec.listed_input ports.now) []) cursor.old) result cursor.new }
{
    let inputs = listed_inputs(cursor, alloc, ports)?;
    Ok(inputs.into_items())
}

/// The end of a list of so many names, which has to have another number of them.
pub fn list_end(cursor: &mut Cursor<'_>, width: usize, count: usize) -> Read<()>
    ensures { Reads (read (spec.list_end width count) cursor.old) result cursor.new }
{
    cursor.expect_where(count == width, Refusal::Width, b")")
}

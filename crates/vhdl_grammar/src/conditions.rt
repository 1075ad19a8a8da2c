//! The calls that look up conditions. (IEEE 1076.4-2000, VitalTruthTable.)

ghost use Rattle.std.specs.Prelude.{◌≡◌, ℕ, ◌+◌, ◌-◌, ◌<◌, ◌^◌, if◌then◌else◌, min, length, drop, slice_get, Option, Some, None};
ghost use Rattle.std.specs.Prelude.{decimal};
ghost use Rattle.grammar_reader.specs.Reading.{read, Reads, ReadsAs};
ghost use Rattle.vhdl_tokens.specs.Spelling.{is_same};
ghost use Rattle.vhdl_grammar.specs.VhdlRules as rules;
ghost use Rattle.vhdl_grammar.specs.VhdlNames as spec;

use crate::aggregates::elements;
use crate::declarations::Declarations;
use crate::language::{Cursor, Vhdl};
use crate::names::{input_at, inputs, list_end};
use crate::ports::Ports;
use crate::widths::truth_width;
use crate::words::expect_all;
use grammar_reader::{Read, RepeatedPart};
use sqlite_items::Items;
use std::alloc::Global;
use vhdl_tokens::is_numbered_name;

/// The lists of the inputs of the conditions that were looked up so far, in the order of the conditions' numbers.
pub type Uses = Items<Items<usize>>;

/// The number that stands in a token behind as many bytes as a word has.
fn number_behind(word: &[u8], token: &[u8]) -> Option<usize>
    ensures { (n : ℕ) → n < 2 ^ 64 → drop (length word.now) token.now ≡ decimal n → result ≡ Some n }
{
    if token.len() < word.len() {
        return None;
    }
    let (_, rest) = token.split_at(word.len());
    match str::from_utf8(rest) {
        Ok(digits) => digits.parse::<usize>().ok(),
        Err(_) => None,
    }
}

/// The place, from 0, of the name of a word with this number, where a token is that name.
fn place_at(word: &[u8], number: usize, token: &[u8]) -> Option<usize>
    requires { 0 < number }
    ensures { result ≡ (if is_same token.now (rules.numbered word.now number) then Some (number - 1) else None) }
{
    if is_numbered_name(token, word, number) {
        Some(number - 1)
    } else {
        None
    }
}

/// Which, from 0, of the names of a word with the numbers from 1 up to this one a token is, in time of no more than the token's
/// length. It takes no memory.
pub fn place_among(word: &[u8], most: usize, token: &[u8]) -> Option<usize>
    ensures { result ≡ rules.place_among word.now most token.now }
{
    match number_behind(word, token) {
        None => None,
        Some(number) => {
            if number == 0 {
                return None;
            }
            if number > most {
                return None;
            }
            place_at(word, number, token)
        }
    }
}

/// The number, from 1, of the last condition that may be looked up behind these.
fn last_condition(scope: &Declarations, uses: &[Items<usize>]) -> usize
    ensures { result ≡ min (length uses.now + 1) (length scope.now.tables.conditions) }
{
    let next = uses.len() + 1;
    let all = scope.tables().conditions.len();
    if next < all { next } else { all }
}

/// The condition of a name: one that was looked up before, or the next one, where there is one.
fn condition_of(scope: &Declarations, uses: &[Items<usize>], token: &[u8]) -> Option<usize>
    ensures { result ≡ spec.condition_of scope.now uses.now token.now }
{
    place_among(b"c_", last_condition(scope, uses), token)
}

/// The name of a condition.
fn condition_name(
    cursor: &mut Cursor<'_>,
    scope: &Declarations,
    uses: &[Items<usize>],
) -> Read<usize>
    ensures { Reads (read (rules.known (spec.condition_of scope.now uses.now)) cursor.old) result cursor.new }
{
    let found = condition_of(scope, uses, cursor.bytes());
    cursor.known(found)
}

/// How many inputs the table of a condition has.
fn condition_width(scope: &Declarations, condition: usize) -> usize
    ensures { result ≡ spec.condition_width scope.now condition }
{
    match scope.tables().conditions.get(condition) {
        Some(table) => truth_width(table.rows.as_slice()),
        None => 0,
    }
}

/// The list of inputs of a condition that is looked up for the first time.
#[tactic(auto, unfolding(crate::specs::VhdlNames::first_list))]
fn first_list(
    cursor: &mut Cursor<'_>,
    alloc: Global,
    scope: &Declarations,
    condition: usize,
) -> Read<Items<usize>>
    ensures { Reads (read (spec.first_list scope.now condition) cursor.old) result cursor.new }
{
    let inputs = inputs(cursor, alloc, scope.ports())?;
    list_end(cursor, condition_width(scope, condition), inputs.len())?;
    Ok(inputs)
}

/// The name of the input at this place of a list.
fn same_name(cursor: &mut Cursor<'_>, ports: &Ports, inputs: &[usize], place: usize) -> Read<usize>
    ensures { Reads (read (rules.known (λ x. spec.kept (spec.stands_at inputs.now place) (spec.input_of ports.now x))) cursor.old)
        result cursor.new }
{
    let found = input_at(ports, inputs, place, cursor.bytes())?;
    cursor.known(found)
}

/// The input of a list that stands behind so many of it.
#[derive(Drop)]
struct SameInput<'a> {
    ports: &'a Ports,
    inputs: &'a [usize],
}

impl RepeatedPart<Vhdl> for SameInput<'_> {
    type Found = usize;

    ghost reading = { λ input place s. read (spec.same_input input.ports.now input.inputs.now place) s };

    #[tactic(auto, unfolding(crate::specs::VhdlNames::same_input))]
    fn next(&self, cursor: &mut Cursor<'_>, place: usize) -> Read<usize> {
        same_name(cursor, self.ports, self.inputs, place)?;
        Ok(place + 1)
    }
}

/// How many inputs of a list stand next.
#[tactic(auto, unfolding(crate::specs::VhdlRules::elements, crate::specs::VhdlRules::only_element, crate::specs::VhdlRules::several_elements, crate::specs::VhdlRules::more_elements))]
fn same_inputs(cursor: &mut Cursor<'_>, ports: &Ports, inputs: &[usize]) -> Read<usize>
    ensures { Reads (read (rules.elements (spec.same_input ports.now inputs.now) 0) cursor.old) result cursor.new }
{
    elements(cursor, &SameInput { ports, inputs }, 0)
}

/// The list of inputs of a condition that was looked up before.
#[tactic(auto, unfolding(crate::specs::VhdlNames::same_list))]
fn same_list(cursor: &mut Cursor<'_>, scope: &Declarations, inputs: &[usize]) -> Read<()>
    ensures { Reads (read (spec.same_list scope.now inputs.now) cursor.old) result cursor.new }
{
    let count = same_inputs(cursor, scope.ports(), inputs)?;
    cursor.go_on_where(count == inputs.len())?;
    cursor.expect(b")")
}

/// The list of a look-up of this condition; where it is the first one, it stands behind these lists then.
#[tactic(auto, unfolding(crate::specs::VhdlNames::list_by))]
fn list_of(
    cursor: &mut Cursor<'_>,
    alloc: Global,
    scope: &Declarations,
    uses: &mut Uses,
    condition: usize,
) -> Read<()>
    ensures { ReadsAs (λ _. uses.new) (read (spec.list_by scope.now uses.old condition (slice_get uses.old condition)) cursor.old)
        result cursor.new }
{
    if let Some(inputs) = uses.as_slice().get(condition) {
        same_list(cursor, scope, inputs.as_slice())?;
        return Ok(());
    }
    let inputs = first_list(cursor, alloc, scope, condition)?;
    uses.push(inputs)?;
    Ok(())
}

/// A look-up of a condition, behind its word: the condition's number. Where it is the first one of this condition, its list
/// stands behind these then.
#[tactic(auto, unfolding(crate::specs::VhdlNames::condition))]
pub fn condition(
    cursor: &mut Cursor<'_>,
    alloc: Global,
    scope: &Declarations,
    uses: &mut Uses,
) -> Read<usize>
    ensures { ReadsAs (λ number. (number, uses.new)) (read (spec.condition scope.now uses.old) cursor.old) result cursor.new }
{
    expect_all(cursor, &[b"(", b"TruthTable", b"=>"])?;
    let number = condition_name(cursor, scope, uses.as_slice())?;
    expect_all(cursor, &[b",", b"DataIn", b"=>", b"("])?;
    list_of(cursor, alloc, scope, uses, number)?;
    cursor.expect(b")")?;
    Ok(number)
}

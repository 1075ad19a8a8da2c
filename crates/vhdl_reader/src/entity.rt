//! Entities of a text, by recursive descent. (IEEE 1076-1993, 1.1 and 1.2; IEEE 1076.4-2000.)

ghost use Rattle.std.specs.Prelude.{◌≡◌};
ghost use Rattle.std.specs.List.{list_any};
ghost use Rattle.grammar_reader.specs.Reading.{read, Reads, ReadsAs};
ghost use Rattle.vhdl_declarations_reader.specs.udp_tables.declared.models.VPort.{VPort};
ghost use Rattle.vhdl_declarations_reader.specs.vhdl_grammar.VhdlDeclarations.{input_names};
ghost use Rattle.vhdl_declarations_reader.specs.vhdl_grammar.VhdlRules as rules;
ghost use Rattle.vhdl_declarations_reader.specs.vhdl_grammar.VhdlText as spec;
ghost use Rattle.vhdl_statements_reader.specs.Checked.{checks_of};
ghost use Rattle.vhdl_reader.specs.File.{entities_of};
ghost use Rattle.vhdl_reader.specs.Statements.{entity_of};
ghost use Rattle.vhdl_reader.specs.Tails as tails;

use crate::entities::Entities;
use crate::joined::entity_with;
use crate::statements::Statements;
use grammar_reader::{Read, Refusal, RepeatedPart, Stop, while_next, with_read};
use sqlite_items::Items;
use std::alloc::Global;
use vhdl_declarations_reader::entities::VEntity;
use vhdl_declarations_reader::grammar::{
    Assigned, Columns, Cursor, Declarations, Vhdl, expect_all,
};
use vhdl_declarations_reader::primitives::VPort;
use vhdl_declarations_reader::{packages, scope_of};
use vhdl_outputs_reader::{output_lines, values_of};
use vhdl_statements_reader::{Checks, all_checks, state_calls, violation};
use vhdl_tokens::is_name;

/// Whether one of these ports is an input.
fn has_input(ports: &[VPort]) -> bool
    ensures { result ≡ list_any (λ (port : VPort). port.input) ports.now }
{
    ports.iter().any(|port| port.input)
}

/// The wait at the end of a process, if none of these ports is an input. (IEEE 1076-1993, 8.1.)
#[tactic(auto, using(crate::proofs::LastWait::no_input, crate::proofs::LastWait::some_input))]
fn last_wait(cursor: &mut Cursor, ports: &[VPort]) -> Read<()>
    ensures { Reads (read (spec.last_wait (input_names ports.now)) cursor.old) result cursor.new }
{
    if has_input(ports) {
        return Ok(());
    }
    expect_all(cursor, &[b"wait", b";"])
}

/// Whether each condition was looked up.
fn are_looked_up(scope: &Declarations, uses: &[Items<usize>]) -> bool
    ensures { result ≡ spec.are_looked_up scope.now uses.now }
{
    uses.len() == scope.tables().conditions.len()
}

/// The end of an entity, behind all look-ups of conditions.
#[tactic(auto, unfolding(crate::specs::File::entity_end))]
fn entity_end(cursor: &mut Cursor, scope: &Declarations, uses: &[Items<usize>]) -> Read<()>
    ensures { Reads (read (spec.entity_end scope.now uses.now) cursor.old) result cursor.new }
{
    last_wait(cursor, scope.ports().as_slice())?;
    cursor.expect_where(are_looked_up(scope, uses), Refusal::Undriven, b"end")?;
    expect_all(cursor, &[b"process", b";", b"end", b"vital", b";"])
}

/// The statements behind the values of the outputs.
#[tactic(auto, unfolding(crate::specs::Tails::behind_values))]
fn behind_values(
    cursor: &mut Cursor,
    scope: &Declarations,
    checked: Checks,
    columns: Items<Columns>,
    values: Items<Assigned>,
) -> Read<Statements>
    ensures { ReadsAs (entity_of scope.now) (read (tails.behind_values scope.now (checks_of checked) columns values) cursor.old)
        result cursor.new }
{
    let Checks { checks, uses } = checked;
    let (paths, uses) = output_lines(cursor, scope, uses)?;
    entity_end(cursor, scope, uses.as_slice())?;
    Ok(Statements {
        checks,
        columns,
        values,
        paths,
        uses,
    })
}

/// The statements behind the checks.
#[tactic(auto, unfolding(crate::specs::Tails::behind_checks))]
fn behind_checks(cursor: &mut Cursor, scope: &Declarations, checked: Checks) -> Read<Statements>
    ensures { ReadsAs (entity_of scope.now) (read (tails.behind_checks scope.now (checks_of checked)) cursor.old) result
        cursor.new }
{
    violation(cursor, scope)?;
    let columns = state_calls(cursor, scope)?;
    let values = values_of(cursor, scope)?;
    behind_values(cursor, scope, checked, columns, values)
}

/// The statements behind these declarations.
#[tactic(auto, unfolding(crate::specs::File::statements, crate::specs::Tails::behind_checks, crate::specs::Tails::behind_values))]
fn all_statements(cursor: &mut Cursor, scope: &Declarations) -> Read<Statements>
    ensures { ReadsAs (entity_of scope.now) (read (spec.statements scope.now) cursor.old) result cursor.new }
{
    let checked = all_checks(cursor, scope)?;
    behind_checks(cursor, scope, checked)
}

/// The entity of these declarations and of the statements behind them.
fn entity_body(cursor: &mut Cursor, scope: Declarations) -> Read<VEntity>
    ensures { Reads (read (spec.statements scope) cursor.old) result cursor.new }
{
    let read = all_statements(cursor, &scope);
    let (scope, read) = with_read(scope, read)?;
    let alloc = scope.alloc();
    Ok(entity_with(alloc, scope.into_scope(), read)?)
}

/// The name of an entity, where these entities stand before it.
#[tactic(auto, using(crate::proofs::NextWords::named_other))]
fn entity_name(cursor: &mut Cursor, alloc: Global, entities: &Entities) -> Read<Items<u8>>
    ensures { Reads (read (rules.new_name (spec.entity_names entities.now)) cursor.old) result cursor.new }
{
    let token = cursor.bytes();
    if !is_name(token) {
        return Err(Stop::Refused(Refusal::Syntax));
    }
    let taken = entities.has(token)?;
    cursor.fresh_name(alloc, taken)
}

/// An entity behind its first word, where these entities stand before it.
#[tactic(auto, unfolding(crate::specs::File::entity))]
fn entity(cursor: &mut Cursor, alloc: Global, entities: &Entities) -> Read<VEntity>
    ensures { Reads (read (spec.entity (spec.entity_names entities.now)) cursor.old) result cursor.new }
{
    packages(cursor)?;
    cursor.expect(b"entity")?;
    let name = entity_name(cursor, alloc, entities)?;
    let scope = scope_of(cursor, alloc, name)?;
    entity_body(cursor, scope)
}

/// An entity behind its first word.
#[derive(Drop)]
struct NextEntity {
    alloc: Global,
}

impl RepeatedPart<Vhdl> for NextEntity {
    type Found = Entities;

    ghost reading = { λ _ entities s. read (spec.next_entity entities) s };

    #[tactic(auto, unfolding(crate::specs::File::next_entity))]
    fn next(&self, cursor: &mut Cursor<'_>, entities: Entities) -> Read<Entities> {
        let more = entity(cursor, self.alloc, &entities);
        let (entities, more) = with_read(entities, more)?;
        cursor.give_back();
        entities.with(more)
    }
}

/// All entities of a text, and nothing behind them.
#[tactic(auto, unfolding(crate::specs::File::file))]
pub fn file(cursor: &mut Cursor, alloc: Global) -> Read<Vec<VEntity>>
    ensures { ReadsAs entities_of (read spec.file cursor.old) result cursor.new }
{
    let none = Entities::new(alloc);
    let entities = while_next(cursor, b"library", &NextEntity { alloc }, none)?;
    if cursor.left() > 0 {
        return Err(Stop::Refused(Refusal::Syntax));
    }
    Ok(entities.into_vec())
}

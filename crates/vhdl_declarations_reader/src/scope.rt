//! The declarations of an entity and of its architecture. (IEEE 1076-1993, 1.1 and 1.2.)

ghost use Rattle.grammar_reader.specs.Reading.{read, Reads, ReadsAs};
ghost use Rattle.vhdl_grammar.specs.VhdlDeclarations as spec;
ghost use Rattle.vhdl_declarations_reader.specs.Tails as tails;
ghost use Rattle.vhdl_declarations_reader.specs.Scopes.{scope_of_parts, scope_with};

use crate::constants::constants;
use crate::header::{architecture_header, entity_header};
use crate::process::sensitivity;
use crate::variables::variables;
use grammar_reader::{Read, with_read};
use sqlite_items::Items;
use std::alloc::Global;
use vhdl_grammar::{Cursor, Declarations, Ports, Tables, Variables, expect_all};

/// What is declared in an architecture.
#[derive(Drop)]
pub struct Architecture {
    pub tables: Tables,
    pub variables: Variables,
}

/// The variables of the entity of this name, with these ports and tables, behind the tables, up to the `begin` before the
/// statements.
#[tactic(auto, unfolding(crate::specs::Tails::behind_tables))]
fn behind_tables(
    cursor: &mut Cursor<'_>,
    alloc: Global,
    entity: &[u8],
    ports: &Ports,
    tables: &Tables,
) -> Read<Variables>
    ensures { ReadsAs (scope_of_parts entity.now ports.now tables.now)
        (read (tails.behind_tables entity.now ports.now tables.now) cursor.old) result cursor.new }
{
    expect_all(cursor, &[b"begin", b"process"])?;
    sensitivity(cursor, alloc, ports.as_slice())?;
    let variables = variables(cursor, alloc, ports, tables)?;
    cursor.expect(b"begin")?;
    Ok(variables)
}

/// The architecture of an entity with these ports, behind the entity's header, up to the `begin` before the statements.
#[tactic(auto, unfolding(crate::specs::Tails::behind_header, crate::specs::Tails::behind_tables))]
fn declared_inside(
    cursor: &mut Cursor<'_>,
    alloc: Global,
    entity: &[u8],
    ports: &Ports,
) -> Read<Architecture>
    ensures { ReadsAs (scope_with entity.now ports.now) (read (tails.behind_header entity.now ports.now) cursor.old) result
        cursor.new }
{
    architecture_header(cursor, entity)?;
    let tables = constants(cursor, alloc)?;
    let variables = behind_tables(cursor, alloc, entity, ports, &tables);
    let (tables, variables) = with_read(tables, variables)?;
    Ok(Architecture { tables, variables })
}

/// The declarations behind the header of the entity of this name, with these ports.
fn behind_header(
    cursor: &mut Cursor<'_>,
    alloc: Global,
    name: Items<u8>,
    ports: Ports,
) -> Read<Declarations>
    ensures { Reads (read (tails.behind_header name ports) cursor.old) result cursor.new }
{
    let inside = declared_inside(cursor, alloc, name.as_slice(), &ports);
    let ((name, ports), inside) = with_read((name, ports), inside)?;
    let Architecture { tables, variables } = inside;
    Ok(Declarations::new(name, ports, tables, variables))
}

/// The declarations behind the name of an entity, up to the `begin` before the statements.
#[tactic(auto, unfolding(vhdl_grammar::specs::VhdlDeclarations::scope_of, crate::specs::Tails::behind_header, crate::specs::Tails::behind_tables))]
pub fn scope_of(cursor: &mut Cursor<'_>, alloc: Global, name: Items<u8>) -> Read<Declarations>
    ensures { Reads (read (spec.scope_of name) cursor.old) result cursor.new }
{
    let ports = entity_header(cursor, alloc, name.as_slice())?;
    behind_header(cursor, alloc, name, ports)
}

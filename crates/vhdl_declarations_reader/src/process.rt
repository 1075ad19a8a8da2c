//! The process of an architecture up to its statements: its sensitivity list. (IEEE 1076-1993, 9.2.)

ghost use Rattle.std.specs.Prelude.{◌≡◌, IfOk};
ghost use Rattle.grammar_reader.specs.Reading.{read, Reads};
ghost use Rattle.vhdl_grammar.specs.VhdlDeclarations as spec;

use grammar_reader::{Read, RepeatedPart, Stop, one_or_more};
use sqlite_items::Items;
use std::alloc::{AllocError, Global};
use udp_tables::VPort;
use vhdl_grammar::{Cursor, Vhdl};

/// The names of the inputs, in order. An `Err` comes only where memory is wanting.
pub fn input_names(alloc: Global, ports: &[VPort]) -> Result<Items<Items<u8>>, AllocError>
    ensures { IfOk result (λ names. names ≡ spec.input_names ports.now) }
{
    let mut names = Items::new(alloc);
    for port in ports {
        if port.input {
            names.push(Items::from_slice(alloc, port.name.as_slice())?)?;
        }
    }
    Ok(names)
}

/// The name of these that stands behind so many of them.
#[derive(Drop)]
struct ListedName<'a> {
    names: &'a [Items<u8>],
}

impl RepeatedPart<Vhdl> for ListedName<'_> {
    type Found = usize;

    ghost reading = { λ listed count s. read (spec.listed_name listed.names.now count) s };

    #[tactic(auto, unfolding(vhdl_grammar::specs::VhdlDeclarations::listed_name))]
    fn next(&self, cursor: &mut Cursor<'_>, count: usize) -> Read<usize> {
        let Some(name) = self.names.get(count) else {
            return Err(Stop::Refused(cursor.no_name()));
        };
        cursor.this_name(name.as_slice())?;
        Ok(count + 1)
    }
}

/// All these names in order.
#[tactic(auto, unfolding(vhdl_grammar::specs::VhdlDeclarations::listed_names))]
pub fn listed_names(cursor: &mut Cursor<'_>, names: &[Items<u8>]) -> Read<()>
    ensures { Reads (read (spec.listed_names names.now) cursor.old) result cursor.new }
{
    cursor.expect(b"(")?;
    let count = one_or_more(cursor, b",", &ListedName { names }, 0)?;
    cursor.go_on_where(count == names.len())?;
    cursor.expect(b")")
}

/// The sensitivity list of the inputs with these names, if there are any.
fn sensitivity_of(cursor: &mut Cursor<'_>, names: &[Items<u8>]) -> Read<()>
    ensures { Reads (read (spec.sensitivity names.now) cursor.old) result cursor.new }
{
    match names {
        [] => Ok(()),
        _ => listed_names(cursor, names),
    }
}

/// The sensitivity list of the inputs among these ports, if there are any.
pub fn sensitivity(cursor: &mut Cursor<'_>, alloc: Global, ports: &[VPort]) -> Read<()>
    ensures { Reads (read (spec.sensitivity (spec.input_names ports.now)) cursor.old) result cursor.new }
{
    let names = input_names(alloc, ports)?;
    sensitivity_of(cursor, names.as_slice())
}

//! The parts of an entity, each joined with what the statements say of it: an entity as data.

ghost use Rattle.std.specs.Prelude.{◌≡◌, IfOk, Ok};
ghost use Rattle.vhdl_declarations_reader.specs.vital_tables.Sound.{output_ports_from};
ghost use Rattle.vhdl_declarations_reader.specs.vhdl_grammar.VhdlText as spec;
ghost use Rattle.vhdl_reader.specs.Statements.{entity_of};

use crate::driven::Driven;
use crate::statements::Statements;
use crate::wholes::{joined, reversed};
use sqlite_items::Items;
use std::alloc::{AllocError, Global};
use vhdl_declarations_reader::entities::{HPath, OutValue, TruthTable, VEntity, VOutput};
use vhdl_declarations_reader::grammar::{Assigned, Scope, Tables};
use vhdl_declarations_reader::primitives::VPort;
use vhdl_outputs_reader::output_ports;

/// The values of outputs: constants, and look-ups, each of the next table. An `Err` comes only where memory is wanting.
#[tactic(auto, using(crate::proofs::Reversed::reverse_last, crate::proofs::Reversed::reverse_twice))]
fn values_with(
    alloc: Global,
    tables: Items<TruthTable>,
    assigned: Items<Assigned>,
) -> Result<Items<OutValue>, AllocError>
    ensures { IfOk result (λ values. values ≡ spec.values_with tables assigned) }
{
    let mut tables_left = reversed(alloc, tables)?;
    let mut assigned_left = reversed(alloc, assigned)?;
    let mut values = Items::from_vec(Vec::with_capacity(alloc, assigned_left.len())?);
    while let Some(next) = assigned_left.pop() {
        match next {
            Assigned::Constant(one) => values.push(OutValue::Constant(one))?,
            Assigned::Lookup(inputs) => {
                let Some(table) = tables_left.pop() else {
                    break;
                };
                values.push(OutValue::Table { table, inputs })?;
            }
        }
    }
    Ok(values)
}

/// Two things.
#[derive(Drop)]
struct Pair<A, B> {
    first: A,
    second: B,
}

/// Two things, where each was made.
fn both<A: Drop, B: Drop>(
    first: Result<A, AllocError>,
    second: Result<B, AllocError>,
) -> Result<Pair<A, B>, AllocError>
    ensures { IfOk result (λ made. (first ≡ Ok made.first) × (second ≡ Ok made.second)) }
{
    Ok(Pair {
        first: first?,
        second: second?,
    })
}

/// The outputs among these ports: their values, which look up these tables, and their paths. An `Err` comes only where memory is
/// wanting.
#[tactic(auto, using(crate::proofs::JoinedParts::outputs))]
fn outputs_with(
    alloc: Global,
    ports: &[VPort],
    tables: Items<TruthTable>,
    assigned: Items<Assigned>,
    paths: Items<Items<HPath>>,
) -> Result<Items<VOutput>, AllocError>
    ensures { IfOk result (λ outputs. outputs ≡ spec.outputs_with (output_ports_from 0 ports.now)
        (spec.values_with tables assigned) paths) }
{
    let values = values_with(alloc, tables, assigned)?;
    let driven = joined::<Driven>(alloc, values, paths);
    let Pair { first, second } = both(output_ports(alloc, ports), driven)?;
    joined(alloc, first, second)
}

/// The entity of these declarations and statements. An `Err` comes only where memory is wanting.
#[tactic(auto, using(crate::proofs::JoinedParts::states, crate::proofs::JoinedParts::conditions))]
pub fn entity_with(
    alloc: Global,
    scope: Scope,
    statements: Statements,
) -> Result<VEntity, AllocError>
    ensures { IfOk result (λ entity. entity ≡ entity_of scope statements) }
{
    let Scope {
        name,
        ports,
        tables,
        ..
    } = scope;
    let Tables {
        states,
        conditions,
        outputs,
    } = tables;
    let Statements {
        checks,
        columns,
        values,
        paths,
        uses,
    } = statements;
    let inner = both(
        joined(alloc, states, columns),
        joined(alloc, conditions, uses),
    );
    let outputs = outputs_with(alloc, ports.as_slice(), outputs, values, paths);
    let Pair {
        first: inner,
        second: outputs,
    } = both(inner, outputs)?;
    let Pair {
        first: states,
        second: conditions,
    } = inner;
    Ok(VEntity {
        name,
        ports,
        states,
        conditions,
        outputs,
        checks,
    })
}

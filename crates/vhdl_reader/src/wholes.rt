//! Wholes of two parts, from a list of the first parts and one of the second.

ghost use Rattle.std.specs.Prelude.{◌≡◌, reverse, IfOk};
ghost use Rattle.vhdl_reader.specs.Joined as spec;

use crate::driven::Driven;
use sqlite_items::Items;
use std::alloc::{AllocError, Global};
use vhdl_declarations_reader::entities::{
    HPath, OutValue, TruthTable, VOutput, VState, VStateTable, VTruth,
};
use vhdl_declarations_reader::grammar::Columns;

/// A whole of two parts.
pub trait Whole: Drop {
    ghost use Rattle.std.specs.Prelude.{◌≡◌};

    /// What the first part is.
    type First: Drop;

    /// What the second part is.
    type Second: Drop;

    ghost join: { Self.First → Self.Second → Self };

    /// The whole of these parts.
    fn join(first: Self::First, second: Self::Second) -> Self
        ensures { result ≡ join first second };
}

impl Whole for VState {
    type First = VStateTable;

    type Second = Columns;

    ghost join = { spec.state_of };

    fn join(table: VStateTable, columns: Columns) -> VState {
        let Columns { violation, inputs } = columns;
        VState {
            table,
            violation,
            inputs,
        }
    }
}

impl Whole for VTruth {
    type First = TruthTable;

    type Second = Items<usize>;

    ghost join = { spec.condition_of };

    fn join(table: TruthTable, inputs: Items<usize>) -> VTruth {
        VTruth { table, inputs }
    }
}

impl Whole for Driven {
    ghost join = { spec.driven_of };

    type First = OutValue;

    type Second = Items<HPath>;

    fn join(value: OutValue, paths: Items<HPath>) -> Driven {
        Driven { value, paths }
    }
}

impl Whole for VOutput {
    ghost join = { spec.output_of };

    type First = usize;

    type Second = Driven;

    fn join(port: usize, driven: Driven) -> VOutput {
        let Driven { value, paths } = driven;
        VOutput { port, value, paths }
    }
}

/// These items, the last one first. An `Err` comes only where memory is wanting.
#[tactic(auto, using(crate::proofs::Reversed::reverse_last))]
pub fn reversed<T: Drop>(alloc: Global, mut items: Items<T>) -> Result<Items<T>, AllocError>
    ensures { IfOk result (λ turned. turned ≡ reverse items) }
{
    let mut turned = Items::from_vec(Vec::with_capacity(alloc, items.len())?);
    while let Some(item) = items.pop() {
        turned.push(item)?;
    }
    Ok(turned)
}

/// Wholes of these parts, item by item, up to the end of the shorter list. An `Err` comes only where memory is wanting.
#[tactic(auto, using(crate::proofs::Reversed::reverse_last, crate::proofs::Reversed::reverse_twice))]
pub fn joined<W: Whole>(
    alloc: Global,
    firsts: Items<W::First>,
    seconds: Items<W::Second>,
) -> Result<Items<W>, AllocError>
    ensures { IfOk result (λ wholes. wholes ≡ spec.joined W.join firsts seconds) }
{
    let mut firsts_left = reversed(alloc, firsts)?;
    let mut seconds_left = reversed(alloc, seconds)?;
    let mut wholes = Items::from_vec(Vec::with_capacity(alloc, firsts_left.len())?);
    while let Some(first) = firsts_left.pop() {
        let Some(second) = seconds_left.pop() else {
            break;
        };
        wholes.push(W::join(first, second))?;
    }
    Ok(wholes)
}

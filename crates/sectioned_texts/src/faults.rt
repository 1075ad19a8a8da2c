//! Faults of the parts of a text.
ghost use Rattle.std.specs.Prelude.{◌≡◌, ◌+◌, IfOk, if◌then◌else◌};
ghost use Rattle.udp_tables.specs.ModelFaults.{fault_place, fault_rank};
ghost use Rattle.sectioned_texts.specs.DrivenModels as spec;

use std::alloc::AllocError;
use udp_tables::ModelFault;

/// Where a fault counts among others: at its offset, and there by the number of its kind.
#[derive(Clone, Copy)]
struct FaultPlace {
    at: usize,
    rank: usize,
}

/// Where a fault counts among others.
fn place_of(fault: &ModelFault) -> FaultPlace
    ensures at { result.at ≡ fault_place fault.now }
    ensures rank { result.rank ≡ fault_rank fault.now }
{
    let (at, rank) = match fault {
        ModelFault::Lexical(at) => (*at, 0),
        ModelFault::Syntax(at) => (*at, 1),
        ModelFault::TwoEdges(at) => (*at, 2),
        ModelFault::Width(at) => (*at, 3),
        ModelFault::Undefined(at) => (*at, 4),
        ModelFault::Twice(at) => (*at, 5),
        ModelFault::Undriven(at) => (*at, 6),
        ModelFault::Unequal(at) => (*at, 7),
        ModelFault::Memory => (0, 8),
    };
    FaultPlace { at, rank }
}

/// The offset of a fault.
pub(crate) fn fault_place(fault: &ModelFault) -> usize
    ensures { result ≡ fault_place fault.now }
{
    place_of(fault).at
}

/// Whether a fault counts before another.
fn counts_first(fault: &ModelFault, other: &ModelFault) -> bool
    ensures { result ≡ spec.counts_first fault.now other.now }
{
    let (before, behind) = (place_of(fault), place_of(other));
    before.at < behind.at || (before.at == behind.at && before.rank <= behind.rank)
}

/// Of two faults the one that counts first.
pub(crate) fn first_of(fault: ModelFault, other: ModelFault) -> ModelFault
    ensures { result ≡ (if spec.counts_first fault other then fault else other) }
{
    if counts_first(&fault, &other) {
        fault
    } else {
        other
    }
}

/// An offset of a part of a text, by the offset where the part begins, as one of the text. There is no memory for a text in which
/// it is none.
fn offset_behind(from: usize, at: usize) -> Result<usize, AllocError>
    ensures { IfOk result (λ moved. moved ≡ from + at) }
{
    match from.checked_add(at) {
        Some(moved) => Ok(moved),
        None => Err(AllocError),
    }
}

/// A fault of a part of a text, by the offset where the part begins, as one of the text.
pub(crate) fn fault_behind(from: usize, fault: ModelFault) -> Result<ModelFault, AllocError>
    ensures { IfOk result (λ moved. moved ≡ spec.fault_behind from fault) }
{
    let at = offset_behind(from, fault_place(&fault))?;
    Ok(match fault {
        ModelFault::Lexical(_) => ModelFault::Lexical(at),
        ModelFault::Syntax(_) => ModelFault::Syntax(at),
        ModelFault::TwoEdges(_) => ModelFault::TwoEdges(at),
        ModelFault::Width(_) => ModelFault::Width(at),
        ModelFault::Undefined(_) => ModelFault::Undefined(at),
        ModelFault::Twice(_) => ModelFault::Twice(at),
        ModelFault::Undriven(_) => ModelFault::Undriven(at),
        ModelFault::Unequal(_) => ModelFault::Unequal(at),
        ModelFault::Memory => ModelFault::Memory,
    })
}

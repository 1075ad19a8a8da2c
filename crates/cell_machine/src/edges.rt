//! Which changes of a value are events, and of which kind.
ghost use Rattle.std.specs.Prelude.{◌≡◌};
ghost use Rattle.cell_machine.specs.Edges.{is_rise, is_fall, moves, edge_of};

use crate::checks::Edge;
use trit_cubes::Trit;

/// Whether a change is a possible rise: 0 to 1, 0 to unknown or unknown to 1. (IEEE 1364-2005, clause 9.7.2.)
pub fn is_rise(from: Trit, to: Trit) -> bool
    ensures { result ≡ is_rise from to }
{
    match from {
        Trit::Zero => to != Trit::Zero,
        Trit::One => false,
        Trit::Unknown => to == Trit::One,
    }
}

/// Whether a change is a possible fall: 1 to 0, 1 to unknown or unknown to 0. (IEEE 1364-2005, clause 9.7.2.)
pub fn is_fall(from: Trit, to: Trit) -> bool
    ensures { result ≡ is_fall from to }
{
    is_rise(to, from)
}

/// Whether a change is an event of this kind. A change to the same value is none.
pub fn moves(edge: Edge, from: Trit, to: Trit) -> bool
    ensures { result ≡ moves edge from to }
{
    match edge {
        Edge::Any => from != to,
        Edge::Rise => is_rise(from, to),
        Edge::Fall => is_fall(from, to),
    }
}

/// The kind of an event: possible rise or possible fall.
pub fn edge_of(from: Trit, to: Trit) -> Edge
    ensures { result ≡ edge_of from to }
{
    if is_rise(from, to) {
        Edge::Rise
    } else {
        Edge::Fall
    }
}

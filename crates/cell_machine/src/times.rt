//! The times of an input's last events, from which the reports of all checks follow.
ghost use Rattle.std.specs.Prelude.{◌≡◌, ◌<◌, List, map, length, slice_set, slice_index_or};
ghost use Rattle.cell_machine.specs.Report.{is_within};
ghost use Rattle.cell_machine.specs.Times.{no_times, time_of_edge, renewed, stamped};

use crate::checks::Edge;
use crate::edges::moves;
use trit_cubes::Trit;

/// The times of the last event that counts, of the last possible rise and of the last possible fall, in picoseconds. They are
/// kept of an input, where each change to another value counts, and of a check, where its first event does.
#[derive(Clone, Copy)]
pub struct Times {
    /// Of the last event that counts.
    pub event: Option<u64>,
    /// Of the last possible rise.
    pub rise: Option<u64>,
    /// Of the last possible fall.
    pub fall: Option<u64>,
}

impl Times {
    /// No event yet.
    pub fn none() -> Times
        ensures { result ≡ no_times }
    {
        Times {
            event: None,
            rise: None,
            fall: None,
        }
    }

    /// The time of the last event of this kind.
    pub fn of(&self, edge: Edge) -> Option<u64>
        ensures { result ≡ time_of_edge edge self.now }
    {
        match edge {
            Edge::Any => self.event,
            Edge::Rise => self.rise,
            Edge::Fall => self.fall,
        }
    }

    /// The times after a change of the input.
    pub fn stamped(self, at: u64, from: Trit, to: Trit) -> Times
        ensures { result ≡ stamped at from to self }
    {
        Times {
            event: renewed(moves(Edge::Any, from, to), at, self.event),
            rise: renewed(moves(Edge::Rise, from, to), at, self.rise),
            fall: renewed(moves(Edge::Fall, from, to), at, self.fall),
        }
    }
}

/// This time where the event counts, else the one that was kept.
pub fn renewed(counts: bool, at: u64, kept: Option<u64>) -> Option<u64>
    ensures { result ≡ renewed counts at kept }
{
    if counts { Some(at) } else { kept }
}

/// Whether an event at the time `at` came less than `limit` after `opened`.
pub fn is_within(at: u64, limit: u64, opened: Option<u64>) -> bool
    ensures { result ≡ is_within at limit opened }
{
    let Some(opened) = opened else {
        return false;
    };
    match opened.checked_add(limit) {
        Some(end) => at < end,
        None => true,
    }
}

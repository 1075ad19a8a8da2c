//! The least offsets of what is noted in timing groups.
ghost use Rattle.std.specs.Prelude.{◌≡◌};
ghost use Rattle.cell_machine.specs.Delay.{lesser};
ghost use Rattle.timing_arcs.specs.Adding.{unless_wrong};
ghost use Rattle.timing_arcs.specs.Readings.{joined, no_offsets, where_so};

use crate::fault::TimingFault;

/// The least offsets of what is wrong, kind by kind, and of what is over a limit.
#[derive(Clone, Copy)]
pub(crate) struct Offsets {
    /// Of a condition that is no function text.
    pub(crate) malformed: Option<usize>,
    /// Of a name that is no pin, or in a condition no input pin.
    pub(crate) unknown_name: Option<usize>,
    /// Of a condition that names a pin of its own check or the pin where its arc starts.
    pub(crate) own_condition: Option<usize>,
    /// Of what is wrong with a time.
    pub(crate) number: Option<usize>,
    /// Of a condition with more than 10 names.
    pub(crate) wide: Option<usize>,
}

/// The lesser of two offsets.
pub(crate) fn lesser(one: Option<usize>, other: Option<usize>) -> Option<usize>
    ensures { result ≡ lesser one other }
{
    match (one, other) {
        (Some(one), Some(other)) => Some(one.min(other)),
        (Some(one), None) => Some(one),
        (None, other) => other,
    }
}

/// The offset, where something is so.
pub(crate) fn where_so(so: bool, at: Option<usize>) -> Option<usize>
    ensures { result ≡ where_so so at }
{
    if so { at } else { None }
}

impl Offsets {
    /// Of nothing.
    pub(crate) fn none() -> Offsets
        ensures { result ≡ no_offsets }
    {
        Offsets {
            malformed: None,
            unknown_name: None,
            own_condition: None,
            number: None,
            wide: None,
        }
    }

    /// The least of both.
    pub(crate) fn joined(self, other: Offsets) -> Offsets
        ensures { result ≡ joined self other }
    {
        Offsets {
            malformed: lesser(self.malformed, other.malformed),
            unknown_name: lesser(self.unknown_name, other.unknown_name),
            own_condition: lesser(self.own_condition, other.own_condition),
            number: lesser(self.number, other.number),
            wide: lesser(self.wide, other.wide),
        }
    }

    /// What was read, unless something is wrong: the first kind that there is decides. It is a function of any type, so that
    /// what was read is let go by one call.
    pub(crate) fn unless_wrong<T: Drop>(self, read: T) -> Result<T, TimingFault>
        ensures { result ≡ unless_wrong self read }
    {
        if let Some(at) = self.malformed {
            return Err(TimingFault::Malformed(at));
        }
        if let Some(at) = self.unknown_name {
            return Err(TimingFault::UnknownName(at));
        }
        if let Some(at) = self.own_condition {
            return Err(TimingFault::OwnCondition(at));
        }
        if let Some(at) = self.number {
            return Err(TimingFault::Number(at));
        }
        Ok(read)
    }
}

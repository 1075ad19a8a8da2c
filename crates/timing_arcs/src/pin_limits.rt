//! The limits that the attributes of a pin group give.
ghost use Rattle.std.specs.Prelude.{◌≡◌, OnOk};
ghost use Rattle.std.specs.Option.{option_map};
ghost use Rattle.liberty_groups.specs.Attributes.{attribute_of, shown};
ghost use Rattle.timing_arcs.specs.PinLimits.{limit_as, pin_limit, pin_limits, limit_under, with_pin_limit, with_pin_limits};

use crate::found::Found;
use crate::subject::Subject;
use crate::tables::time;
use crate::timing_type::is_input_pin;
use cell_machine::{Check, CheckKind, Edge, Event};
use liberty_groups::{Attribute, Group, last_attribute};
use liberty_text::Unit;
use std::alloc::AllocError;

/// The limit that an attribute gives.
#[derive(Clone, Copy)]
pub(crate) struct PinLimit {
    /// The offset of the attribute.
    at: usize,
    /// The limit in picoseconds. None where its text is no time.
    time: Option<u64>,
}

/// The limits that the attributes of a pin group give.
#[derive(Clone, Copy)]
pub(crate) struct PinLimits {
    /// The least width of a high pulse.
    high: Option<PinLimit>,
    /// The least width of a low pulse.
    low: Option<PinLimit>,
    /// The least period.
    period: Option<PinLimit>,
}

/// The events of a pin that a limit is between.
#[derive(Clone, Copy)]
struct Between {
    kind: CheckKind,
    first: Edge,
    second: Edge,
}

impl PinLimit {
    /// The limit that an attribute gives, where times have this unit.
    fn of_attribute(unit: Option<Unit>, attribute: Attribute<'_>) -> PinLimit
        ensures { result ≡ limit_as unit (shown attribute.entry) }
    {
        PinLimit {
            at: attribute.at,
            time: time(unit, attribute.text),
        }
    }

    /// The limit that the attribute of this name gives.
    fn named(unit: Option<Unit>, pin: &Group, name: &[u8]) -> Option<PinLimit>
        ensures { result ≡ pin_limit unit pin.now name.now }
    {
        match last_attribute(pin, name) {
            Some(attribute) => Some(PinLimit::of_attribute(unit, attribute)),
            None => None,
        }
    }
}

/// The limit, where the pin is an input.
fn limit_under(subject: &Subject, limit: Option<PinLimit>) -> Option<PinLimit>
    ensures { result ≡ limit_under subject.now limit }
{
    if is_input_pin(subject.pins.as_slice(), subject.place) {
        limit
    } else {
        None
    }
}

/// Adds the check between these events of the pin.
fn add_limit(
    subject: &Subject,
    between: Between,
    limit: Option<PinLimit>,
    found: &mut Found,
) -> Result<(), AllocError>
    ensures { OnOk result (found.new ≡ with_pin_limit subject.now between.kind between.first between.second found.old limit) }
{
    let Some(limit) = limit else {
        return Ok(());
    };
    let Some(time) = limit.time else {
        found.note_number(limit.at);
        return Ok(());
    };
    let check = Check {
        kind: between.kind,
        first: Event {
            pin: subject.place,
            edge: between.first,
        },
        second: Event {
            pin: subject.place,
            edge: between.second,
        },
        limit: time,
        condition: None,
    };
    found.add_check(limit.at, check)
}

impl PinLimits {
    /// The limits that the attributes of a pin group give.
    pub(crate) fn of_group(subject: &Subject, pin: &Group) -> PinLimits
        ensures { result ≡ pin_limits subject.now pin.now }
    {
        PinLimits {
            high: PinLimit::named(subject.unit, pin, b"min_pulse_width_high"),
            low: PinLimit::named(subject.unit, pin, b"min_pulse_width_low"),
            period: PinLimit::named(subject.unit, pin, b"min_period"),
        }
    }

    /// Adds the checks of a pin that the limits give: of the high pulse, of the low pulse, and of the period.
    pub(crate) fn add(self, subject: &Subject, found: &mut Found) -> Result<(), AllocError>
        ensures { OnOk result (found.new ≡ with_pin_limits subject.now found.old self) }
    {
        let high = Between {
            kind: CheckKind::Width,
            first: Edge::Rise,
            second: Edge::Fall,
        };
        add_limit(subject, high, limit_under(subject, self.high), found)?;
        let low = Between {
            kind: CheckKind::Width,
            first: Edge::Fall,
            second: Edge::Rise,
        };
        add_limit(subject, low, limit_under(subject, self.low), found)?;
        let period = Between {
            kind: CheckKind::Period,
            first: Edge::Any,
            second: Edge::Any,
        };
        add_limit(subject, period, limit_under(subject, self.period), found)
    }
}

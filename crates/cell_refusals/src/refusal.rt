//! Why a cell is refused.

/// A reason to refuse a cell. Of several that are met the first in this order is answered, but `Bank` and then `Width` before all
/// others.
#[derive(Clone, Copy, Debug)]
pub enum Reason {
    /// A pin's direction is absent, or none of input, output and internal.
    Direction,
    /// A pin has `three_state`.
    ThreeState,
    /// A `bus`, `bundle`, `ff_bank` or `latch_bank` group makes no single bits, or the cell has one where it is not expanded to
    /// single bits.
    Bank,
    /// `clocked_on_also`, `enable_also` or `input_map` stands in a state group or pin.
    LeftOutState,
    /// A `clear_preset` attribute has a value that it may not have.
    ClearPreset,
    /// Two of the cell's pins, variables and nodes share a name, or an earlier cell of the library has this cell's name.
    Duplicate,
    /// A function text or table does not read, a needed attribute is absent, or a group's arguments are not two.
    Malformed,
    /// A text names nothing of the kind that it may name.
    UnknownName,
    /// A text makes one state hang on another one.
    Coupled,
    /// An output pin has none of `function`, `state_function` and `internal_node`.
    NoFunction,
    /// A check's condition names a pin of its events, or an arc's condition the pin where it starts.
    OwnCondition,
    /// A time is no number within the limits, or the time unit is unknown.
    Number,
    /// A count or a name is over its limit, or the support of a state group is empty.
    Limit,
    /// A state group names more than 8 pins, or an output function or a condition more than 10 names.
    UdpInputs,
    /// A bus, a bundle or a variable of a bank is named where it has no bit.
    Width,
}

impl Reason {
    ghost use Rattle.std.specs.Prelude.{◌≡◌};
    ghost use Rattle.cell_refusals.specs.ReasonWords.{number_of_reason, word_of_reason};

    /// The number of the reason, from 1.
    pub fn number(self) -> u8
        ensures { result ≡ number_of_reason self }
    {
        match self {
            Reason::Direction => 1,
            Reason::ThreeState => 2,
            Reason::Bank => 3,
            Reason::LeftOutState => 4,
            Reason::ClearPreset => 5,
            Reason::Duplicate => 6,
            Reason::Malformed => 7,
            Reason::UnknownName => 8,
            Reason::Coupled => 9,
            Reason::NoFunction => 10,
            Reason::OwnCondition => 11,
            Reason::Number => 12,
            Reason::Limit => 13,
            Reason::UdpInputs => 14,
            Reason::Width => 15,
        }
    }

    /// The word of the reason.
    pub fn word(self) -> &'static [u8]
        ensures { result.now ≡ word_of_reason self }
    {
        match self {
            Reason::Direction => b"direction",
            Reason::ThreeState => b"three_state",
            Reason::Bank => b"bank",
            Reason::LeftOutState => b"left_out_state",
            Reason::ClearPreset => b"clear_preset",
            Reason::Duplicate => b"duplicate",
            Reason::Malformed => b"malformed",
            Reason::UnknownName => b"unknown_name",
            Reason::Coupled => b"coupled",
            Reason::NoFunction => b"no_function",
            Reason::OwnCondition => b"own_condition",
            Reason::Number => b"number",
            Reason::Limit => b"limit",
            Reason::UdpInputs => b"udp_inputs",
            Reason::Width => b"width",
        }
    }
}

/// Why a cell is refused, and the offset from 0 of the first statement or group at which the reason is met.
#[derive(Clone, Copy, Debug)]
pub struct Refusal {
    pub reason: Reason,
    pub at: usize,
}

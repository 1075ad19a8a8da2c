//! The names of the texts that are read over positions.
ghost use Rattle.std.specs.Prelude.{◌≡◌, map};
ghost use Rattle.bank_refusals.specs.Faults.{pin_texts as pin_texts_of};
ghost use Rattle.bank_refusals.specs.Refusals.{state_texts as state_texts_of};

use crate::refusals::is_flip_flop;
use liberty_groups::Group;

static PIN_TEXTS: [&[u8]; 3] = [b"function", b"state_function", b"three_state"];

static FLIP_FLOP_TEXTS: [&[u8]; 4] = [b"next_state", b"clocked_on", b"clear", b"preset"];

static LATCH_TEXTS: [&[u8]; 4] = [b"data_in", b"enable", b"clear", b"preset"];

/// The names of those of a pin.
pub fn pin_texts() -> &'static [&'static [u8]]
    ensures { map (λ name. name.now) result.now ≡ pin_texts_of }
{
    &PIN_TEXTS
}

/// The names of those of a group that holds states.
pub fn state_texts(group: &Group) -> &'static [&'static [u8]]
    ensures { map (λ name. name.now) result.now ≡ state_texts_of group.now }
{
    if is_flip_flop(group) {
        &FLIP_FLOP_TEXTS
    } else {
        &LATCH_TEXTS
    }
}

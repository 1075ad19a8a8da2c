//! The scan enable of a test cell.
ghost use Rattle.std.specs.Prelude.{◌≡◌, map};
ghost use Rattle.scan_cells.specs.Enables.{active_named as active_named_of, active_of as active_of_group};
ghost use Rattle.scan_cells.specs.Enables.{first_enable as first_enable_of};

use liberty_groups::{Group, last_attribute};

/// A pin that lets a cell scan. (Liberty Reference Manual, `signal_type`.)
#[derive(Clone, Copy)]
pub struct Enable {
    /// The number of the pin.
    pub pin: usize,
    /// The value at which it is active.
    pub active: bool,
}

/// The value at which a pin with this `signal_type` is active, where it is a scan enable.
fn active_named(text: &[u8]) -> Option<bool>
    ensures { result ≡ active_named_of text.now }
{
    if text == b"test_scan_enable".as_slice() {
        Some(true)
    } else if text == b"test_scan_enable_inverted".as_slice() {
        Some(false)
    } else {
        None
    }
}

/// The value at which the pins of a group are active, where they are scan enables.
#[tactic(auto, unfolding(crate::specs::Enables::active_of))]
fn active_of(pin: &Group) -> Option<bool>
    ensures { result ≡ active_of_group pin.now }
{
    match last_attribute(pin, b"signal_type") {
        None => None,
        Some(attribute) => active_named(attribute.text),
    }
}

/// The first scan enable among pins with these numbers, each made by the group at its place.
pub fn first_enable(owners: &[&Group], pins: &[usize]) -> Option<Enable>
    ensures { result ≡ first_enable_of (map (λ owner. owner.now) owners.now) pins.now }
{
    for i in 0..owners.len() {
        let Some(pin) = pins.get(i) else {
            return None;
        };
        if let Some(active) = active_of(owners[i]) {
            return Some(Enable { pin: *pin, active });
        }
    }
    None
}

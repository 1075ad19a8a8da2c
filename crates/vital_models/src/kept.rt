//! Which names of pins VHDL text keeps.
ghost use Rattle.std.specs.Prelude.{◌≡◌};
ghost use Rattle.std.specs.List.{list_any};
ghost use Rattle.std.specs.Str.{str_eq_ignore_ascii_case};
ghost use Rattle.vital_tables.specs.udp_tables.declared.models.VPort.{VPort};
ghost use Rattle.vital_models.specs.Kept.{is_taken, is_kept_port_name};

use vhdl_tokens::{is_free, is_plain, is_same_name};
use vital_tables::primitives::VPort;

/// Whether a pin's name is kept for a port of the entity with this name, after these ports.
#[tactic(auto, unfolding(crate::specs::Kept::is_kept_port_name))]
pub(crate) fn is_kept_port_name(entity: &[u8], ports: &[VPort], name: &[u8]) -> bool
    ensures { result ≡ is_kept_port_name entity.now ports.now name.now }
{
    is_plain(name) && is_free(name) && !is_taken(entity, ports, name)
}

/// Whether the name is that of the entity or of one of these ports, whatever the case of its letters.
fn is_taken(entity: &[u8], ports: &[VPort], name: &[u8]) -> bool
    ensures { result ≡ is_taken entity.now ports.now name.now }
{
    is_same_name(entity, name) || is_port_name(ports, name)
}

/// Whether one of these ports has this name, whatever the case of its letters.
fn is_port_name(ports: &[VPort], name: &[u8]) -> bool
    ensures { result ≡ list_any (λ (port : VPort). str_eq_ignore_ascii_case port.name name.now) ports.now }
{
    for port in ports {
        if is_same_name(port.name.as_slice(), name) {
            return true;
        }
    }
    false
}

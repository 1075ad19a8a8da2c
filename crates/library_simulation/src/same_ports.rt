//! Ports that a file has and those that it should have.
ghost use Rattle.std.specs.Prelude.{◌≡◌, ◌<◌, length, IfOk};
ghost use Rattle.bool_functions.specs.NameList.{Adds};
ghost use Rattle.stimulus.specs.Differences.{same_fact};
ghost use Rattle.library_simulation.specs.SamePorts.{same_name, looked_up, same_port, same_ports};

use bool_functions::Names;
use std::alloc::{AllocError, Global};
use udp_tables::VPort;
use vhdl_tokens::is_same_name;

/// When two names are the same.
#[derive(Clone, Copy)]
pub(crate) enum Spelling {
    /// Where they are byte for byte, as in Verilog.
    Exact,
    /// Where they are whatever the case of their letters, as in VHDL.
    AnyCase,
}

impl Spelling {
    /// Whether two names are the same.
    fn same_name(self, one: &[u8], other: &[u8]) -> bool
        ensures { result ≡ same_name self one.now other.now }
    {
        match self {
            Spelling::Exact => one == other,
            Spelling::AnyCase => is_same_name(one, other),
        }
    }

    /// Adds a name to others as it is looked up, where none of them is the same, and answers its number, which is the length
    /// before.
    pub(crate) fn add(
        self,
        alloc: Global,
        names: &mut Names,
        name: &[u8],
    ) -> Result<Option<usize>, AllocError>
        ensures { IfOk result (λ number. Adds names.old (looked_up self name.now) number names.new) }
    {
        match self {
            Spelling::Exact => names.add(name),
            Spelling::AnyCase => names.add(&name.to_ascii_lowercase(alloc)?),
        }
    }

    /// Whether two ports have the same name and direction.
    fn same_port(self, one: &VPort, other: &VPort) -> bool
        ensures { result ≡ same_port self one.now other.now }
    {
        self.same_name(one.name.as_slice(), other.name.as_slice())
            && same_port_direction(one.input, other.input)
    }

    /// Whether two lists of ports are the same, in order.
    pub(crate) fn same_ports(self, ports: &[VPort], others: &[VPort]) -> bool
        ensures { result ≡ same_ports self ports.now others.now }
    {
        if ports.len() != others.len() {
            return false;
        }
        for i in 0..ports.len() {
            if !self.same_port(&ports[i], &others[i]) {
                return false;
            }
        }
        true
    }
}

/// Whether two ports have the same direction, of which each is told by whether it is an input.
fn same_port_direction(one: bool, other: bool) -> bool
    ensures { result ≡ same_fact one other }
{
    one == other
}

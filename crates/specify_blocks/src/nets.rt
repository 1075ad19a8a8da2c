//! The nets that stand for pins, states and the register of the checks.
ghost use Rattle.std.specs.Prelude.{◌≡◌, ◌++◌, map, IfOk, OnOk};
ghost use Rattle.cell_machine.specs.CellData.{data_of};
ghost use Rattle.udp_tables.specs.CellPrimitives.{has_notifier};
ghost use Rattle.specify_blocks.specs.Generated.{pin_net, source_net, notifier_nets};

use crate::model::VNet;
use cell_machine::{Cell, Pin, Source};
use cell_tables::has_notifier;
use sqlite_items::Items;
use std::alloc::{AllocError, Global};
use udp_tables::port_number;

/// The net of a pin: its port.
pub fn pin_net(pins: &[Pin], pin: usize) -> VNet
    ensures { result ≡ pin_net pins.now pin }
{
    VNet::Port(port_number(pins, pin))
}

/// The net of a source.
fn source_net(pins: &[Pin], source: Source) -> VNet
    ensures { result ≡ source_net pins.now source }
{
    match source {
        Source::Pin(pin) => pin_net(pins, pin),
        Source::State(group) => VNet::Wire(group),
    }
}

/// What a net of a cell stands for.
pub(crate) trait HasNet: Copy {
    ghost use Rattle.std.specs.Prelude.{◌≡◌, List};
    ghost use Rattle.cell_machine.specs.declared.pins.Pin.{Pin};
    ghost use Rattle.specify_blocks.specs.declared.model.VNet.{VNet};

    ghost net_of: { List Pin → Self → VNet };

    /// The net, where the cell has these pins.
    fn net(self, pins: &[Pin]) -> VNet
        ensures { result ≡ net_of pins.now self };
}

impl HasNet for usize {
    ghost net_of = { pin_net };

    fn net(self, pins: &[Pin]) -> VNet {
        pin_net(pins, self)
    }
}

impl HasNet for Source {
    ghost net_of = { source_net };

    fn net(self, pins: &[Pin]) -> VNet {
        source_net(pins, self)
    }
}

/// The nets of pins or of sources, in order.
pub(crate) fn nets_of<S: HasNet>(
    alloc: Global,
    pins: &[Pin],
    support: &[S],
) -> Result<Items<VNet>, AllocError>
    ensures { IfOk result (λ nets. nets ≡ map (S.net_of pins.now) support.now) }
{
    let mut nets = Items::new(alloc);
    for stands in support {
        nets.push((*stands).net(pins))?;
    }
    Ok(nets)
}

/// Adds the register of the checks, where the cell has some.
pub(crate) fn add_notifier(nets: &mut Items<VNet>, cell: &Cell) -> Result<(), AllocError>
    ensures { OnOk result (nets.new ≡ nets.old ++ notifier_nets (has_notifier (data_of cell.now))) }
{
    if has_notifier(cell) {
        nets.push(VNet::Notifier)?;
    }
    Ok(())
}

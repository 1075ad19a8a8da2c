//! The buffers at driven outputs.
ghost use Rattle.verilog_drivers.specs.DriverText.{buffer_text};

use driver_texts::{PortAt, PortText};
use text_io::{Bytes, Decimal, Desk, Line, OutSlot, Part, Put, parts};

/// Lines of buffers, one for each driven output.
#[derive(Drop)]
pub(crate) struct Buffers;

impl PortText for Buffers {
    ghost text = { λ _ at. buffer_text at };

    fn put<D: Desk>(&self, at: &PortAt, line: &mut Line, desk: &mut D, slot: OutSlot) -> Put {
        match at.number {
            None => line.put(desk, slot, b""),
            Some(number) => parts!(
                Bytes(b"  bufif1 ("),
                Bytes(at.port.name.as_slice()),
                Bytes(b", lib_d"),
                Decimal(number as u128),
                Bytes(b", lib_e"),
                Decimal(number as u128),
                Bytes(b");\n")
            )
            .put(line, desk, slot),
        }
    }
}

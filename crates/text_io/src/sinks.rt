//! The bytes written to each output slot.

ghost use Rattle.std.specs.Prelude.{◌≡◌, ◌-◌, [], ◌++◌, length, min, take, IfOk};
ghost use Rattle.text_io.specs.Slots.{put_out};
ghost use Rattle.text_io.specs.EachSlot.{bytes_in, room_in};

use crate::each_slot::Outputs;
use crate::sink::Sink;
use crate::slots::OutSlot;
use std::alloc::{AllocError, Global};

impl Outputs<Sink> {
    /// An empty sink for each output slot, with memory for `room` bytes.
    pub(crate) fn empty(alloc: Global, room: usize) -> Result<Outputs<Sink>, AllocError>
        ensures bytes { IfOk result (λ sinks. bytes_in sinks ≡ (λ _. [])) }
        ensures room { IfOk result (λ sinks. room_in sinks ≡ (λ _. room)) }
    {
        Ok(Outputs {
            verilog_text: Sink::new(alloc, room)?,
            vital_text: Sink::new(alloc, room)?,
            report: Sink::new(alloc, room)?,
            faults: Sink::new(alloc, room)?,
        })
    }

    /// Appends to one sink the bytes that it has room for, and answers how many.
    pub(crate) fn append(&mut self, slot: OutSlot, bytes: &[u8]) -> usize
        ensures count { result ≡ min (length bytes.now) (room_in self.old slot - length (bytes_in self.old slot)) }
        ensures bytes { bytes_in self.new ≡ put_out (bytes_in self.old) slot (bytes_in self.old slot ++ take result bytes.now) }
        ensures room { room_in self.new ≡ room_in self.old }
    {
        match slot {
            OutSlot::VerilogText => self.verilog_text.append(bytes),
            OutSlot::VitalText => self.vital_text.append(bytes),
            OutSlot::Report => self.report.append(bytes),
            OutSlot::Faults => self.faults.append(bytes),
        }
    }

    /// Lets the bytes of one sink go, and keeps its room.
    pub(crate) fn clear(&mut self, slot: OutSlot)
        ensures bytes { bytes_in self.new ≡ put_out (bytes_in self.old) slot [] }
        ensures room { room_in self.new ≡ room_in self.old }
    {
        match slot {
            OutSlot::VerilogText => self.verilog_text.clear(),
            OutSlot::VitalText => self.vital_text.clear(),
            OutSlot::Report => self.report.clear(),
            OutSlot::Faults => self.faults.clear(),
        }
    }
}

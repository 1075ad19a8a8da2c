//! A value for each input slot, and one for each output slot.

ghost use Rattle.std.specs.Prelude.{◌≡◌};
ghost use Rattle.text_io.specs.Slots.{put_in, put_out};
ghost use Rattle.text_io.specs.EachSlot.{input_of, output_of};

use crate::slots::{InSlot, OutSlot};

/// A value for each input slot.
#[derive(Drop)]
pub(crate) struct Inputs<T> {
    pub(crate) library: T,
    pub(crate) verilog: T,
    pub(crate) vital: T,
    pub(crate) stimulus: T,
}

impl<T> Inputs<T> {
    /// The value of a slot.
    pub(crate) fn get(&self, slot: InSlot) -> &T
        ensures { result.now ≡ input_of self.now slot }
    {
        match slot {
            InSlot::Library => &self.library,
            InSlot::Verilog => &self.verilog,
            InSlot::Vital => &self.vital,
            InSlot::Stimulus => &self.stimulus,
        }
    }

    /// Gives a slot another value.
    pub(crate) fn set(&mut self, slot: InSlot, value: T)
    where
        T: Drop,
        ensures { input_of self.new ≡ put_in (input_of self.old) slot value }
    {
        match slot {
            InSlot::Library => self.library = value,
            InSlot::Verilog => self.verilog = value,
            InSlot::Vital => self.vital = value,
            InSlot::Stimulus => self.stimulus = value,
        }
    }
}

/// A value for each output slot.
#[derive(Drop)]
pub(crate) struct Outputs<T> {
    pub(crate) verilog_text: T,
    pub(crate) vital_text: T,
    pub(crate) report: T,
    pub(crate) faults: T,
}

impl<T> Outputs<T> {
    /// The value of a slot.
    pub(crate) fn get(&self, slot: OutSlot) -> &T
        ensures { result.now ≡ output_of self.now slot }
    {
        match slot {
            OutSlot::VerilogText => &self.verilog_text,
            OutSlot::VitalText => &self.vital_text,
            OutSlot::Report => &self.report,
            OutSlot::Faults => &self.faults,
        }
    }

    /// Gives a slot another value.
    pub(crate) fn set(&mut self, slot: OutSlot, value: T)
    where
        T: Drop,
        ensures { output_of self.new ≡ put_out (output_of self.old) slot value }
    {
        match slot {
            OutSlot::VerilogText => self.verilog_text = value,
            OutSlot::VitalText => self.vital_text = value,
            OutSlot::Report => self.report = value,
            OutSlot::Faults => self.faults = value,
        }
    }
}

//! The text of a module's instances.
ghost use Rattle.verilog_writer.specs.Model.{terminal_text, call_text, constant_text, instance_text};

use crate::nets::{InModule, net_at, primitive_at};
use specify_blocks::{Instance, VModule, VNet};
use text_io::{Bytes, Desk, Each, ItemText, Line, OutSlot, Part, Put, parts};

impl ItemText<VNet> for InModule<'_> {
    ghost text = { λ m input. terminal_text m.0.now input };

    #[tactic(auto, unfolding(crate::specs::Model::terminal_text))]
    fn put<D: Desk>(&self, input: &VNet, line: &mut Line, desk: &mut D, slot: OutSlot) -> Put {
        line.put_pieces(desk, slot, &[b", ", net_at(self.0, *input)])
    }
}

/// An instance of a primitive with this number: its output, and its inputs.
#[derive(Drop)]
struct Call<'a>(&'a VModule, usize, VNet, &'a [VNet]);

impl Part for Call<'_> {
    ghost text = { λ m. call_text m.0.now m.1 m.2 m.3.now };

    #[tactic(auto, unfolding(crate::specs::Model::call_text, crate::specs::Model::driver_text))]
    fn put<D: Desk>(&self, line: &mut Line, desk: &mut D, slot: OutSlot) -> Put {
        let name = Bytes(primitive_at(self.0, self.1));
        let output = Bytes(net_at(self.0, self.2));
        let driver = parts!(Bytes(b"  "), name, Bytes(b" ("), output);
        let terminals = Each(InModule(self.0), self.3);
        parts!(driver, terminals, Bytes(b");\n")).put(line, desk, slot)
    }
}

/// A buffer of this output with a constant input.
#[derive(Drop)]
struct Constant<'a>(&'a VModule, VNet, bool);

impl Part for Constant<'_> {
    ghost text = { λ m. constant_text m.0.now m.1 m.2 };

    #[tactic(auto, unfolding(crate::specs::Model::constant_text))]
    fn put<D: Desk>(&self, line: &mut Line, desk: &mut D, slot: OutSlot) -> Put {
        let net = net_at(self.0, self.1);
        if self.2 {
            line.put_pieces(desk, slot, &[b"  buf (", net, b", 1'b1);\n"])
        } else {
            line.put_pieces(desk, slot, &[b"  buf (", net, b", 1'b0);\n"])
        }
    }
}

impl ItemText<Instance> for InModule<'_> {
    ghost text = { λ m instance. instance_text m.0.now instance };

    fn put<D: Desk>(&self, item: &Instance, line: &mut Line, desk: &mut D, slot: OutSlot) -> Put {
        match item {
            Instance::Primitive {
                udp,
                output,
                inputs,
            } => Call(self.0, *udp, *output, inputs.as_slice()).put(line, desk, slot),
            Instance::Constant { output, one } => {
                Constant(self.0, *output, *one).put(line, desk, slot)
            }
        }
    }
}

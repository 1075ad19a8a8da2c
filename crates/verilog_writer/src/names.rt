//! Names in lists, and lines of names.
ghost use Rattle.std.specs.Prelude.{◌++◌};
ghost use Rattle.verilog_writer.specs.Names.{name_line};

use sqlite_items::Items;
use text_io::{Desk, ItemText, Line, OutSlot, Put};
use udp_tables::{SmallBytes, VPort};

/// Names of inputs and of ports in a list, each behind these bytes.
#[derive(Drop)]
pub(crate) struct ListedNames<'a>(pub(crate) &'a [u8]);

impl ItemText<SmallBytes> for ListedNames<'_> {
    ghost text = { λ m name. m.0.now ++ name };

    fn put<D: Desk>(&self, name: &SmallBytes, line: &mut Line, desk: &mut D, slot: OutSlot) -> Put {
        line.put_pieces(desk, slot, &[self.0, name.as_slice()])
    }
}

impl ItemText<VPort> for ListedNames<'_> {
    ghost text = { λ m port. m.0.now ++ port.name };

    fn put<D: Desk>(&self, port: &VPort, line: &mut Line, desk: &mut D, slot: OutSlot) -> Put {
        line.put_pieces(desk, slot, &[self.0, port.name.as_slice()])
    }
}

/// Declarations of names, each behind these bytes.
#[derive(Drop)]
pub(crate) struct NameLines<'a>(pub(crate) &'a [u8]);

impl ItemText<SmallBytes> for NameLines<'_> {
    ghost text = { λ m name. name_line m.0.now name };

    fn put<D: Desk>(&self, name: &SmallBytes, line: &mut Line, desk: &mut D, slot: OutSlot) -> Put {
        line.put_pieces(desk, slot, &[self.0, name.as_slice(), b";\n"])
    }
}

impl ItemText<Items<u8>> for NameLines<'_> {
    ghost text = { λ m name. name_line m.0.now name };

    fn put<D: Desk>(&self, name: &Items<u8>, line: &mut Line, desk: &mut D, slot: OutSlot) -> Put {
        line.put_pieces(desk, slot, &[self.0, name.as_slice(), b";\n"])
    }
}

//! The paths to a driven output.
ghost use Rattle.vhdl_writer.specs.Joined.{numbered_texts};
ghost use Rattle.vhdl_drivers.specs.DriverText.{paths_to, drive_path_text};

use driven_traces::DrivePath;
use driver_texts::input_name;
use text_io::{Bytes, Decimal, Desk, Line, OutSlot, Part, Put, parts};
use udp_tables::VPort;
use vhdl_writer::apart;

/// A path from one of these ports, with this number, from 1, among those of its output.
#[derive(Drop)]
struct PathAt<'a> {
    ports: &'a [VPort],
    number: usize,
    path: &'a DrivePath,
}

impl Part for PathAt<'_> {
    ghost text = { λ p. drive_path_text p.ports.now p.number p.path.now };

    #[tactic(auto, unfolding(crate::specs::DriverText::drive_path_text))]
    fn put<D: Desk>(&self, line: &mut Line, desk: &mut D, slot: OutSlot) -> Put {
        parts!(
            Bytes(apart(b", ", self.number)),
            Decimal(self.number.saturating_sub(1) as u128),
            Bytes(b" => ("),
            Bytes(input_name(self.ports, self.path.from)),
            Bytes(b"'last_event, ("),
            Decimal(self.path.rise as u128),
            Bytes(b" ps, "),
            Decimal(self.path.fall as u128),
            Bytes(b" ps), true)")
        )
        .put(line, desk, slot)
    }
}

/// Of these paths, from these ports, those to the driven output with this number, from 0.
#[derive(Drop)]
pub(crate) struct OwnPaths<'a> {
    pub(crate) ports: &'a [VPort],
    pub(crate) paths: &'a [DrivePath],
    pub(crate) drive: usize,
}

impl Part for OwnPaths<'_> {
    ghost text = { λ o. numbered_texts (drive_path_text o.ports.now) 1 (paths_to o.drive o.paths.now) };

    fn put<D: Desk>(&self, line: &mut Line, desk: &mut D, slot: OutSlot) -> Put {
        let ports = self.ports;
        let mut number = 1;
        for path in self.paths {
            if path.drive == self.drive {
                PathAt {
                    ports,
                    number,
                    path,
                }
                .put(line, desk, slot)?;
                number += 1;
            }
        }
        Ok(())
    }
}

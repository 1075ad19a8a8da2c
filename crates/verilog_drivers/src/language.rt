//! Verilog as a language of drivers: two names are the same where their bytes are.

ghost use Rattle.std.specs.Prelude.{◌≡◌};

use driver_models::DriverLanguage;
use std::alloc::{AllocError, Global};
pub(crate) use verilog_udp_reader::Cursor;
use verilog_udp_reader::Verilog;

/// The spelling of Verilog, and the wires of drivers.
pub struct VerilogDrivers;

impl DriverLanguage for VerilogDrivers {
    ghost use Rattle.std.specs.Prelude.{refl};
    ghost use Rattle.verilog_drivers.specs.DriverText.{data_word, enable_word};

    type Spelling = Verilog;

    ghost value = { data_word };

    ghost enable = { enable_word };

    ghost fold = { λ name. name };

    ghost same = { λ name other is. refl };

    fn value_word() -> &'static [u8] {
        b"lib_d"
    }

    fn enable_word() -> &'static [u8] {
        b"lib_e"
    }

    fn folded(alloc: Global, name: &[u8]) -> Result<Vec<u8>, AllocError> {
        Vec::from_slice(alloc, name)
    }
}

//! VHDL as a language of drivers: two names are the same whatever the case of their letters. (IEEE 1076-1993, 13.3.1.)

ghost use Rattle.std.specs.Prelude.{◌≡◌, IfOk};

use driver_models::DriverLanguage;
use std::alloc::{AllocError, Global};
use vhdl_grammar::Vhdl;

/// The spelling of VHDL, and the signals of drivers.
pub struct VitalDrivers;

impl DriverLanguage for VitalDrivers {
    ghost use Rattle.vhdl_tokens.specs.Kept.{lowered};
    ghost use Rattle.vhdl_drivers.specs.DriverText.{data_word, enable_word};
    ghost use Rattle.vhdl_grammar.proofs.LoweredNames.{same_lowered};

    type Spelling = Vhdl;

    ghost value = { data_word };

    ghost enable = { enable_word };

    ghost fold = { lowered };

    ghost same = { same_lowered };

    fn value_word() -> &'static [u8] {
        b"d_"
    }

    fn enable_word() -> &'static [u8] {
        b"e_"
    }

    fn folded(alloc: Global, name: &[u8]) -> Result<Vec<u8>, AllocError> {
        name.to_ascii_lowercase(alloc)
    }
}

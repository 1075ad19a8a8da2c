//! The formats of model files.
ghost use Rattle.std.specs.Prelude.{◌≡◌};
ghost use Rattle.model_files.specs.Formats.{slot_of, word_of_format};

use text_io::InSlot;

/// The format of a file of models.
#[derive(Clone, Copy)]
pub enum ModelFormat {
    /// Modules and primitives of Verilog. (IEEE 1364-2005.)
    Verilog,
    /// Entities of VHDL by VITAL. (IEEE 1076.4-2000.)
    Vital,
}

impl ModelFormat {
    /// Where a file of this format is bound.
    pub fn slot(self) -> InSlot
        ensures { result ≡ slot_of self }
    {
        match self {
            ModelFormat::Verilog => InSlot::Verilog,
            ModelFormat::Vital => InSlot::Vital,
        }
    }

    /// The word that tells of such a file.
    pub fn word(self) -> &'static [u8]
        ensures { result.now ≡ word_of_format self }
    {
        match self {
            ModelFormat::Verilog => b"verilog",
            ModelFormat::Vital => b"vital",
        }
    }
}

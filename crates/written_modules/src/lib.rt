//! Laws of the Verilog text that this project writes: it reads back as what it was written of. The functions do nothing.
#![tactic(auto)]

ghost use Rattle.written_modules.specs.Laws.{WrittenPrimitivesReadBack, WrittenModulesReadBack};

/// A law: the text that is written of a well formed primitive is the text of this primitive, and of no other. (IEEE 1364-2005,
/// A.5.)
pub fn written_primitive_reads_back()
    ensures { WrittenPrimitivesReadBack }
{}

/// A law: the text that is written of well formed modules, the prelude and then each module behind its primitives, is the text of
/// these modules, and of no others. (IEEE 1364-2005, A.1.)
pub fn written_modules_read_back()
    ensures { WrittenModulesReadBack }
{}

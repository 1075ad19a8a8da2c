//! A theorem on the definitions, for the proofs of other crates. The function does nothing.

ghost use Rattle.specify_blocks.specs.Laws.{GeneratedIsSound};

/// The module of a cell is sound.
pub fn generated_is_sound()
    ensures { GeneratedIsSound }
{}

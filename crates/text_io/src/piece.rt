//! How many bytes a call moves at most.

ghost use Rattle.std.specs.Prelude.{◌<◌};

/// How many bytes a read or a write moves at most, which is some.
#[derive(Drop)]
pub(crate) struct Piece {
    pub(crate) bytes: usize,
    ghost some: { 0 < bytes },
}

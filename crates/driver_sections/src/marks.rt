//! How parts of a text are marked.

/// A part ends behind the next closing token from the words on that end it.
#[derive(Clone, Copy)]
pub struct Ending<'w> {
    /// The words that end a part.
    pub words: &'w [&'w [u8]],
    /// The word that closes it, which may be one of these.
    pub closing: &'w [u8],
}

/// How sections are marked.
#[derive(Clone, Copy)]
pub struct Marks<'w> {
    /// The words that begin a section.
    pub beginning: &'w [&'w [u8]],
    /// How a section ends.
    pub ending: Ending<'w>,
}

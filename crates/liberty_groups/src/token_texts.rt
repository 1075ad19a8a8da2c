//! The texts of tokens, of which a long one shares the bytes of the text that is read.

ghost use Rattle.std.specs.Prelude.{◌≡◌, IfOk};
ghost use Rattle.liberty_text.specs.TextValue.{value_of};
ghost use Rattle.liberty_groups.specs.Lexeme.{next_bytes};
ghost use Rattle.liberty_groups.specs.Grammar as spec;

use crate::cursor::Cursor;
use liberty_text::{plain_value, text_value};
use small_bytes::SmallBytes;
use std::alloc::{AllocError, Global};

/// The bytes of a quoted text between its quotes.
fn between_quotes(bytes: &[u8]) -> &[u8]
    ensures { result.now ≡ spec.between_quotes bytes.now }
{
    match bytes {
        [_, inner @ .., _] => inner,
        _ => &[],
    }
}

impl Cursor<'_> {
    /// The bytes of the next token. An `Err` comes only where memory is wanting.
    #[tactic(auto, using(crate::proofs::Unreads::whole_range))]
    pub(crate) fn word(&self, alloc: Global) -> Result<SmallBytes, AllocError>
        ensures { IfOk result (λ bytes. bytes ≡ next_bytes self.now) }
    {
        self.part(alloc, 0, self.bytes().len())
    }

    /// What the next token stands for, which is a quoted text. An `Err` comes only where memory is wanting.
    pub(crate) fn text(&self, alloc: Global) -> Result<SmallBytes, AllocError>
        ensures { IfOk result (λ value. value ≡ value_of (spec.between_quotes (next_bytes self.now))) }
    {
        let bytes = self.bytes();
        let inner = between_quotes(bytes);
        match plain_value(inner) {
            Some(_) if bytes.len() >= 2 => self.part(alloc, 1, bytes.len() - 1),
            _ => Ok(SmallBytes::from_items(alloc, text_value(alloc, inner)?)?),
        }
    }
}

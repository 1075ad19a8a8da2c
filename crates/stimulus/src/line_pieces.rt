//! The pieces of a line, gathered before they are appended to a text: a call that appends costs more than most of them, and so
//! does one that gathers, which is inlined for that.
ghost use Rattle.std.specs.Prelude.{◌≡◌, ◌++◌, [], ◌∷◌, OnOk};

use cell_machine::Few;
use std::alloc::AllocError;

/// The most bytes that wait to be appended to a text.
const MOST_WAITING: usize = 128;

/// Pieces of a line that wait to be appended to a text.
pub(crate) type Pieces = Few<u8, MOST_WAITING>;

/// Appends the pieces that wait to a text.
fn append_pieces(text: &mut Vec<u8>, pieces: &mut Pieces) -> Result<(), AllocError>
    ensures { OnOk result ((text.new.items ≡ text.old.items ++ pieces.old) × (pieces.new ≡ [])) }
{
    text.extend_from_slice(pieces.as_slice())?;
    *pieces = Few::new(0);
    Ok(())
}

/// Puts a byte behind the pieces that wait.
#[tactic(auto, using(crate::proofs::TraceTexts::gathered_first, crate::proofs::TraceTexts::gathered_next))]
#[inline(always)]
pub(crate) fn gather_byte(
    text: &mut Vec<u8>,
    pieces: &mut Pieces,
    byte: u8,
) -> Result<(), AllocError>
    ensures { OnOk result (text.new.items ++ pieces.new ≡ (text.old.items ++ pieces.old) ++ byte ∷ []) }
{
    if pieces.as_slice().len() >= MOST_WAITING {
        append_pieces(text, pieces)?;
    }
    pieces.push(byte);
    Ok(())
}

/// Puts a word behind the pieces that wait. A word that is too long to wait is appended to the text.
#[tactic(auto, using(crate::proofs::TraceTexts::gathered_next, crate::proofs::TraceTexts::gathered_all))]
#[inline(always)]
pub(crate) fn gather(text: &mut Vec<u8>, pieces: &mut Pieces, word: &[u8]) -> Result<(), AllocError>
    ensures { OnOk result (text.new.items ++ pieces.new ≡ (text.old.items ++ pieces.old) ++ word.now) }
{
    if pieces.as_slice().len() + word.len() <= MOST_WAITING {
        pieces.append(word);
        return Ok(());
    }
    append_pieces(text, pieces)?;
    text.extend_from_slice(word)?;
    Ok(())
}

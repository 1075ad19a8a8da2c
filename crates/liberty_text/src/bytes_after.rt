//! What stands open after a byte of a comment or behind a backslash.

ghost use Rattle.std.specs.Prelude.{◌≡◌};
ghost use Rattle.liberty_text.specs.Scanner.{class_of, slash_at, in_comment, in_continuation};

use crate::class::{Class, class_of};
use crate::scanner::Mode;

/// What stands open after a byte of the comment that begins at `begun`.
pub(crate) fn after_comment_byte(begun: usize, line_before: bool, star: bool, byte: u8) -> Mode
    ensures { result ≡ (in_comment begun line_before star byte).0 }
{
    if byte == b'/' && star {
        Mode::Between { line_before }
    } else {
        Mode::InComment {
            at: begun,
            line_before: line_before || byte == b'\n',
            star: byte == b'*',
        }
    }
}

/// What stands open after a byte behind the backslash at `begun` and blanks.
pub(crate) fn after_continuation_byte(begun: usize, line_before: bool, byte: u8) -> Mode
    ensures { result ≡ (in_continuation begun line_before (class_of byte)).0 }
{
    match class_of(byte) {
        Class::LineEnd => Mode::Between { line_before },
        Class::Blank => Mode::InContinuation {
            at: begun,
            line_before,
        },
        _ => Mode::Stopped { at: begun },
    }
}

/// The offset of a slash, where the byte there is one.
pub(crate) fn slash_at(at: usize, byte: u8) -> Option<usize>
    ensures { result ≡ slash_at at byte }
{
    if byte == b'/' { Some(at) } else { None }
}

//! Blanks between tokens.

ghost use Rattle.std.specs.Prelude.{◌≡◌, ◌≤◌, length};
ghost use Rattle.liberty_text.specs.Idle.{is_blank, front_run};
ghost use Rattle.liberty_text.specs.Quiet.{AreBlank};

use lexer::{ByteClass, run_length};

/// Spaces, tabs and carriage returns.
struct Blank;

impl ByteClass for Blank {
    ghost has = { is_blank };

    #[inline(always)]
    fn contains(byte: u8) -> bool {
        byte == b' ' || byte == b'\t' || byte == b'\r'
    }
}

/// How many blanks stand at the front.
#[inline(always)]
pub(crate) fn blank_run(bytes: &[u8]) -> usize
    ensures value { result ≡ front_run is_blank bytes.now }
    ensures within { result ≤ length bytes.now }
{
    run_length::<Blank>(bytes)
}

/// How many spaces stand at the front, as far as they are counted four at a time.
#[inline(always)]
fn fours(bytes: &[u8]) -> usize
    ensures within { result ≤ length bytes.now }
    ensures blank { AreBlank bytes.now result }
{
    let mut count = 0;
    while count < bytes.len() {
        let (_, left) = bytes.split_at(count);
        match left.first_chunk::<4>() {
            Some(front) if *front == [b' '; 4] => count += 4,
            _ => return count,
        }
    }
    count
}

/// How many blanks stand at the front of a line, where mostly many do.
#[inline(always)]
pub(crate) fn indentation(bytes: &[u8]) -> usize
    ensures within { result ≤ length bytes.now }
    ensures blank { AreBlank bytes.now result }
{
    let wide = fours(bytes);
    let (_, left) = bytes.split_at(wide);
    wide + blank_run(left)
}

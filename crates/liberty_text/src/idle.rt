//! Runs of bytes that leave what stands open as it is.

ghost use Rattle.std.specs.Prelude.{◌≡◌, ◌≤◌, length};
ghost use Rattle.liberty_text.specs.Idle.{is_plain_in_word, is_plain_in_text, front_run, idle_run, is_mark_byte};

use crate::gaps::blank_run;
use crate::scanner::Mode;
use lexer::{ByteClass, byte_table, run_length};
use memchr::memchr2;

macro_rules! plain_in_word {
    ($b:expr) => {
        b'!' <= $b
            && $b <= b'~'
            && !($b == b'{' || $b == b'}' || $b == b'(' || $b == b')')
            && !($b == b':' || $b == b';' || $b == b',' || $b == b'"')
            && !($b == b'\\' || $b == b'/')
    };
}

/// Of each byte, whether it may stand in a Word and is no slash.
static PLAIN_IN_WORD: [bool; 256] = byte_table!(plain_in_word);

/// Bytes that may stand in a Word, but no slash.
struct PlainInWord;

impl ByteClass for PlainInWord {
    ghost has = { is_plain_in_word };

    #[inline(always)]
    fn contains(byte: u8) -> bool {
        is_plain_in_word(byte)
    }
}

/// Whether a byte may stand in a Word and is no slash, by one look.
#[inline(always)]
fn is_plain_in_word(byte: u8) -> bool
    ensures { result ≡ is_plain_in_word byte }
{
    PLAIN_IN_WORD[usize::from(byte)]
}

/// How many bytes are searched before the others. Most texts are shorter, and a search of more bytes than these takes wide
/// steps, which cost more where the end is near.
const NEAR: usize = 127;

/// How many bytes at the front are neither quotes nor backslashes, by one search.
#[tactic(auto, using(crate::proofs::Firsts::text_some, crate::proofs::Firsts::text_none))]
fn searched_run(bytes: &[u8]) -> usize
    ensures value { result ≡ front_run is_plain_in_text bytes.now }
    ensures within { result ≤ length bytes.now }
{
    match memchr2(b'"', b'\\', bytes) {
        Some(at) => at,
        None => bytes.len(),
    }
}

/// How many bytes at the front are neither quotes nor backslashes.
pub(crate) fn text_run(bytes: &[u8]) -> usize
    ensures value { result ≡ front_run is_plain_in_text bytes.now }
    ensures within { result ≤ length bytes.now }
{
    if bytes.len() <= NEAR {
        return searched_run(bytes);
    }
    let (near, far) = bytes.split_at(NEAR);
    let run = searched_run(near);
    if run < near.len() {
        run
    } else {
        run + searched_run(far)
    }
}

/// How many bytes at the front may stand in a Word and are no slash.
#[inline(always)]
pub(crate) fn word_run(bytes: &[u8]) -> usize
    ensures value { result ≡ front_run is_plain_in_word bytes.now }
    ensures within { result ≤ length bytes.now }
{
    run_length::<PlainInWord>(bytes)
}

/// How many bytes at the front leave open what stands open. No token ends with one of them.
#[inline(always)]
pub(crate) fn idle_run(mode: Mode, bytes: &[u8]) -> usize
    ensures value { result ≡ idle_run mode bytes.now }
    ensures within { result ≤ length bytes.now }
{
    match mode {
        Mode::Between { .. } => blank_run(bytes),
        Mode::InWord { slash: None, .. } => word_run(bytes),
        Mode::InText { escaped: false, .. } => text_run(bytes),
        _ => 0,
    }
}

/// Whether a byte is a brace of a group or a semicolon.
#[inline(always)]
pub(crate) fn is_mark_byte(byte: u8) -> bool
    ensures { result ≡ is_mark_byte byte }
{
    byte == b';' || (byte == b'{' || byte == b'}')
}

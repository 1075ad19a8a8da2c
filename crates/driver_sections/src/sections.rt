//! The sections of a text.
ghost use Rattle.std.specs.Prelude.{◌≡◌, ◌+◌, ◌<◌, ◌≤◌, length, drop, IfOk};
ghost use Rattle.lexer.specs.Spans.{LieInside};
ghost use Rattle.driver_sections.specs.Marks.{vocabulary};
ghost use Rattle.driver_sections.specs.Sections.{section_length, sections, StandApart};
ghost use Rattle.driver_sections.specs.Told.{marks_of};

use crate::ends::{Place, behind_part};
use crate::fronts::next_token;
use crate::marks::Marks;
use crate::words::are_next;
use grammar_reader::Language;
use lexer::{Span, TokenState};
use std::alloc::{AllocError, Global};

/// How many bytes of a section stand at the front of these, where one begins.
fn section_length<'a, L: Language, S: TokenState<'a>>(bytes: &'a [u8], marks: &Marks) -> usize
    ensures value { result ≡ section_length (vocabulary S.lexis L.is_same) (marks_of marks.now) bytes.now }
    ensures within { result ≤ length bytes.now }
    ensures some { 0 < length bytes.now → 0 < result }
{
    let start = Place {
        before: S::start(),
        next: 0,
    };
    match behind_part::<L, S>(start, bytes, &marks.ending) {
        Some(place) => place.next,
        None => bytes.len(),
    }
}

/// The sections of a text, in order; behind a lexical fault of the text around them there is none. It fails only for want of
/// memory.
pub fn find_sections<'a, L: Language, S: TokenState<'a>>(
    alloc: Global,
    text: &'a [u8],
    marks: &Marks,
) -> Result<Vec<Span>, AllocError>
    ensures found { IfOk result (λ found. found.items ≡ sections (vocabulary S.lexis L.is_same) (marks_of marks.now) text.now) }
    ensures apart { IfOk result (λ found. StandApart 0 (length text.now) found.items) }
    ensures inside { IfOk result (λ found. LieInside text.now found.items) }
{
    let mut found = Vec::new(alloc);
    let mut before = S::start();
    let mut next = 0;
    while let Some(token) = next_token(before, text, next) {
        if are_next::<L, S>(before, text, token, marks.beginning) {
            let (_, rest) = text.split_at(token.at);
            next = token.at + section_length::<L, S>(rest, marks);
            found.push(Span {
                at: token.at,
                end: next,
            })?;
        } else {
            before = before.after(&text[token.at..token.end]);
            next = token.end;
        }
    }
    Ok(found)
}

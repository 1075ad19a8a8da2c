//! Where a part is cut whose statements ended without a semicolon or a brace.

ghost use Rattle.std.specs.Prelude.{◌≡◌, ◌<◌, ◌≤◌, ◌+◌, ◌^◌, true, [], length, IfOk, IfSome};
ghost use Rattle.liberty_groups.specs.Lexeme.{LieInside, lexemes_behind};
ghost use Rattle.cell_cursor.specs.Cut.{IsCut};
ghost use Rattle.cell_cursor.specs.Reached.{ReadsUpTo};

use crate::item::LibraryItem;
use crate::part::{Part, Place, scanned_part};
use crate::statements::reach_rest;
use liberty_groups::Cursor;
use liberty_text::{Kept, TokenKind, copy_kept};
use std::alloc::{AllocError, Global};

/// Whether the statements of the library from these tokens of a part on, before which so many other bytes stand, have ended
/// before the last so many tokens, whatever follows.
fn ended_before(
    alloc: Global,
    before: usize,
    bytes: &[u8],
    tokens: &[Kept],
    left: usize,
    items: &mut Vec<LibraryItem>,
) -> Result<bool, AllocError>
    requires inside { LieInside bytes.now tokens.now }
    requires fits { before + length bytes.now < 2 ^ 64 }
    ensures { IfOk result (λ ends. ends ≡ true
        → ReadsUpTo items.old.items (lexemes_behind before bytes.now tokens.now) items.new.items left) }
{
    let mut cursor = Cursor::behind(before, bytes, copy_kept(alloc, tokens)?);
    reach_rest(&mut cursor, alloc, left, items)
}

/// The part behind the statements of this part that have ended before the name that ended last, if they have, and their items.
pub(crate) fn part_behind(
    alloc: Global,
    part: &Part,
    place: Place,
    items: &mut Vec<LibraryItem>,
) -> Result<Option<Part>, AllocError>
    requires none { items.old.items ≡ [] }
    requires fits { part.now.before + length part.now.bytes < 2 ^ 64 }
    ensures { IfOk result (λ found. IfSome found (λ rest. IsCut place part.now rest items.new.items)) }
{
    let tokens = part.tokens();
    let bytes = part.bytes();
    let before = part.before();
    let (front, back) = tokens.split_at(name_at(tokens));
    let Some((last, _)) = front.split_last() else {
        return Ok(None);
    };
    let end = last.token().end;
    if place != Place::Inside || bytes.len() < end {
        return Ok(None);
    }
    if !ended_before(alloc, before, bytes, tokens, back.len(), items)? {
        return Ok(None);
    }
    let (_, behind) = bytes.split_at(end);
    scanned_part(alloc, before + end, Place::Inside, behind)
}

/// The index of the name that is among the tokens that ended last: a mark may have ended with the byte that ended the name.
fn name_at(tokens: &[Kept]) -> usize
    ensures { result ≤ length tokens.now }
{
    match tokens {
        [.., last] if last.token().kind == TokenKind::Word => tokens.len() - 1,
        _ => tokens.len().saturating_sub(2),
    }
}

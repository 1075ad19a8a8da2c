//! The outline of a library text, without the tree of its groups.

ghost use Rattle.std.specs.Prelude.{◌≡◌};
ghost use Rattle.liberty_groups.specs.Outline as spec;
ghost use Rattle.liberty_groups.specs.Outline.{has_outline};

use crate::cursor::Cursor;
use crate::library::LEVELS_INSIDE;
use crate::reader::{
    Mark, Place, Start, ends_by, ends_value, goes_on, is_argument, is_mark, is_value, start_by,
};
use liberty_text::{Token, TokenKind};

/// Where a token of a library stands. A depth counts the groups that are open inside the library.
#[derive(Clone, Copy)]
pub enum Standing {
    /// At the name of the library.
    Start,
    /// After the name of the library.
    AfterLibrary,
    /// Among the arguments of the library.
    HeadArguments,
    /// After the arguments of the library.
    AfterHead,
    /// Among the statements of a group.
    Statements(usize),
    /// After the name of a statement.
    AfterName(usize),
    /// Among the arguments of a statement.
    Arguments(usize),
    /// After the arguments of a statement.
    AfterArguments(usize),
    /// Right after the colon of a simple attribute.
    ValueStart(usize),
    /// After the first token of a value.
    Value(usize),
    /// Behind the library.
    Done,
}

/// Where a closing brace leads from this depth.
fn after_end(depth: usize) -> Standing
    ensures { result ≡ spec.after_end depth }
{
    if depth == 0 {
        Standing::Done
    } else {
        Standing::Statements(depth - 1)
    }
}

/// Where a token leads at the place of a statement.
fn at_statement(depth: usize, token: Token) -> Option<Standing>
    ensures { result ≡ spec.at_statement depth token }
{
    match start_by(token.kind) {
        Start::Named => Some(Standing::AfterName(depth)),
        Start::Empty => Some(Standing::Statements(depth)),
        Start::Other if is_mark(Mark::End, token.kind) => Some(after_end(depth)),
        Start::Other => None,
    }
}

/// Where a token leads behind a complex statement.
fn at_group(depth: usize, token: Token) -> Option<Standing>
    ensures { result ≡ spec.at_group depth token }
{
    if !is_mark(Mark::Begin, token.kind) {
        return at_statement(depth, token);
    }
    if depth < LEVELS_INSIDE {
        Some(Standing::Statements(depth + 1))
    } else {
        None
    }
}

/// Where a token leads among arguments.
fn in_arguments(here: Standing, behind: Standing, token: Token) -> Option<Standing>
    ensures { result ≡ spec.in_arguments here behind token }
{
    if is_argument(token.kind) {
        Some(here)
    } else {
        at_mark(is_mark(Mark::Close, token.kind), behind)
    }
}

/// The place behind a mark, where the token is that mark.
fn at_mark(is: bool, next: Standing) -> Option<Standing>
    ensures { result ≡ spec.at_mark is next }
{
    if is { Some(next) } else { None }
}

/// Where a token leads inside a value.
fn at_value(depth: usize, goes_on: bool, ends: bool, token: Token) -> Option<Standing>
    ensures { result ≡ spec.at_value depth goes_on ends token }
{
    if goes_on {
        Some(Standing::Value(depth))
    } else if ends {
        at_statement(depth, token)
    } else {
        None
    }
}

/// Where a token leads behind a statement's name.
fn after_name(depth: usize, kind: TokenKind) -> Option<Standing>
    ensures { result ≡ spec.after_name depth kind }
{
    if is_mark(Mark::Colon, kind) {
        Some(Standing::ValueStart(depth))
    } else {
        at_mark(is_mark(Mark::Open, kind), Standing::Arguments(depth))
    }
}

/// Where the token after this one stands, if this one can stand here. The flag says whether its bytes are `library`.
pub fn next_standing(here: Standing, token: Token, is_library: bool) -> Option<Standing>
    ensures { result ≡ spec.step here token is_library }
{
    match here {
        Standing::Start => at_mark(is_library, Standing::AfterLibrary),
        Standing::AfterLibrary => at_mark(is_mark(Mark::Open, token.kind), Standing::HeadArguments),
        Standing::HeadArguments => {
            in_arguments(Standing::HeadArguments, Standing::AfterHead, token)
        }
        Standing::AfterHead => {
            at_mark(is_mark(Mark::Begin, token.kind), Standing::Statements(0))
        }
        Standing::Statements(depth) => at_statement(depth, token),
        Standing::AfterName(depth) => after_name(depth, token.kind),
        Standing::Arguments(depth) => in_arguments(
            Standing::Arguments(depth),
            Standing::AfterArguments(depth),
            token,
        ),
        Standing::AfterArguments(depth) => at_group(depth, token),
        Standing::ValueStart(depth) => {
            at_value(depth, is_value(token.kind), ends_by(token.kind), token)
        }
        Standing::Value(depth) => at_value(
            depth,
            goes_on(Place::Value, token),
            ends_value(Place::Value, token),
            token,
        ),
        Standing::Done => None,
    }
}

impl Cursor<'_> {
    /// Whether the tokens are the front of a library.
    pub fn has_outline(&mut self) -> bool
        ensures { result ≡ has_outline self.old }
    {
        let mut here = Standing::Start;
        for _turn in 0..self.left() {
            let Some(token) = self.peek() else {
                return true;
            };
            match next_standing(here, token, self.sees_library()) {
                Some(next) => here = next,
                None => return false,
            }
            self.skip();
        }
        true
    }
}

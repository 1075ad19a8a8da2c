//! The statements of a library, read from tokens up to where they end.

ghost use Rattle.std.specs.Prelude.{◌≡◌, ◌++◌, ◌||◌, not, true, false, [], List, OnOk, IfOk};
ghost use Rattle.std.specs.Option.{option_to_list};
ghost use Rattle.grammar_rules.specs.Reading.{read};
ghost use Rattle.liberty_groups.specs.Lexeme.{Lexeme, next_bytes, rest};
ghost use Rattle.liberty_groups.specs.Answer.{is_last};
ghost use Rattle.liberty_groups.specs.Grammar.{next_at};
ghost use Rattle.cell_cursor.specs.Items.{Adds, has_ended, item_statement, statements_after, file_end, rest_inside, rest_at};
ghost use Rattle.cell_cursor.specs.declared.part.Place.TheVariants as place;
ghost use Rattle.cell_cursor.specs.declared.item.LibraryItem.{LibraryItem as Given};
ghost use Rattle.cell_cursor.specs.Braces.{has_outer, LastIsNotOuter, lexeme_kinds};
ghost use Rattle.cell_cursor.specs.Reached.{ReadsOn, ReadsUpTo, Comes, ComesSo, EndsInner, is_final};

use crate::item::{LibraryItem, item_of};
use crate::part::Place;
use liberty_groups::{
    Cursor, Expected, Item, LEVELS_INSIDE, LibraryFault, Mark, Refusal, Start, Stop, fault_at,
};
use liberty_text::{Token, TokenKind};
use skipped_statements::whole_statement;
use std::alloc::{AllocError, Global};

/// What the tokens of a part come to, whatever follows them.
#[derive(Clone, Copy)]
pub(crate) enum Reached {
    /// All of them are used, and what follows begins here.
    To(Place),
    /// One of them is refused.
    Refused(LibraryFault),
    /// A statement has not ended.
    Unfinished,
}

/// Whether a statement has ended whatever follows: a group has its brace, and the others are ended by the token that comes next.
fn has_ended(statement: &Item, cursor: &Cursor<'_>) -> bool
    ensures { result ≡ has_ended statement.now cursor.now }
{
    match statement {
        Item::Inner(_) => true,
        _ => cursor.peek().is_some(),
    }
}

/// Adds an item, if there is one.
fn add(items: &mut Vec<LibraryItem>, item: Option<LibraryItem>) -> Result<(), AllocError>
    ensures { OnOk result (items.new.items ≡ items.old.items ++ option_to_list item) }
{
    match item {
        Some(item) => Ok(items.push(item)?),
        None => Ok(()),
    }
}

/// A statement of the library, whose item, if it is one, is added to `items`. Whether it has ended whatever follows.
#[tactic(auto, unfolding(crate::specs::Items::item_statement))]
fn read_statement(
    cursor: &mut Cursor<'_>,
    alloc: Global,
    items: &mut Vec<LibraryItem>,
) -> Result<bool, Stop>
    ensures added { Adds (read (item_statement items.old.items (next_bytes cursor.old) (next_at cursor.old)) (rest cursor.old))
        result items.new.items cursor.new }
    ensures ended { IfOk result (λ ended. ended ≡ true → (more : List Lexeme)
        → read (item_statement items.old.items (next_bytes cursor.old) (next_at cursor.old)) (rest cursor.old ++ more) ≡ Ok
        (items.new.items, cursor.new ++ more)) }
    ensures open { IfOk result (λ ended. ended ≡ false → cursor.new ≡ []) }
    ensures inner { IfOk result (λ ended. ended ≡ false → has_outer place.Inside (lexeme_kinds (rest cursor.old)) ≡ false) }
{
    let (name, at) = cursor.name(alloc)?;
    let statement = whole_statement(cursor, alloc, LEVELS_INSIDE, name, at)?;
    let has_ended = has_ended(&statement, cursor);
    add(items, item_of(statement))?;
    Ok(has_ended)
}

/// The statements of the library from here on. Whether the last of them has ended whatever follows.
fn read_statements(
    cursor: &mut Cursor<'_>,
    alloc: Global,
    items: &mut Vec<LibraryItem>,
) -> Result<bool, Stop>
    ensures added { Adds (read (statements_after items.old.items) cursor.old) result items.new.items cursor.new }
    ensures ended { IfOk result (λ ended. ended ≡ true → ReadsOn items.old.items cursor.old items.new.items cursor.new) }
    ensures open { IfOk result (λ ended. ended ≡ false → LastIsNotOuter place.Inside (lexeme_kinds cursor.old)) }
    ensures inner { EndsInner result cursor.old cursor.new }
{
    for _turn in 0..cursor.left() {
        match cursor.start() {
            Start::Empty => cursor.skip(),
            Start::Named => {
                if !read_statement(cursor, alloc, items)? {
                    return Ok(false);
                }
            }
            Start::Other => break,
        }
    }
    Ok(true)
}

/// A statement of the library, whose item, if it is one, is added to `items`. Whether it was read and has ended whatever follows.
fn statement_ends(
    alloc: Global,
    cursor: &mut Cursor<'_>,
    items: &mut Vec<LibraryItem>,
) -> Result<bool, AllocError>
    ensures { IfOk result (λ ends. ends ≡ true → (more : List Lexeme)
        → read (item_statement items.old.items (next_bytes cursor.old) (next_at cursor.old)) (rest cursor.old ++ more) ≡ Ok
        (items.new.items, cursor.new ++ more)) }
{
    match read_statement(cursor, alloc, items) {
        Ok(ended) => Ok(ended),
        Err(Stop::Refused(_)) => Ok(false),
        Err(Stop::Memory) => Err(AllocError),
    }
}

/// The statements of the library from here on, up to the last so many tokens. Whether a statement ends before these.
pub(crate) fn reach_rest(
    cursor: &mut Cursor<'_>,
    alloc: Global,
    left: usize,
    items: &mut Vec<LibraryItem>,
) -> Result<bool, AllocError>
    ensures { IfOk result (λ ends. ends ≡ true → ReadsUpTo items.old.items cursor.old items.new.items left) }
{
    for _turn in 0..cursor.left() {
        if cursor.left() == left {
            return Ok(true);
        }
        match cursor.start() {
            Start::Empty => cursor.skip(),
            Start::Named => {
                if !statement_ends(alloc, cursor, items)? {
                    return Ok(false);
                }
            }
            Start::Other => return Ok(false),
        }
    }
    Ok(false)
}

/// The end of the file, behind the library.
fn read_file_end(cursor: &Cursor<'_>) -> Result<(), Stop>
    ensures { (items : List Given) → Adds (read (file_end items) cursor.now) result items cursor.now }
{
    match cursor.peek() {
        Some(_) => Err(Stop::Refused(Refusal::Syntax(Expected::FileEnd))),
        None => Ok(()),
    }
}

/// The statements of the library from here on, its end and the end of the file.
#[tactic(auto, unfolding(crate::specs::Items::rest_inside, crate::specs::Items::library_end))]
fn read_inside(
    cursor: &mut Cursor<'_>,
    alloc: Global,
    items: &mut Vec<LibraryItem>,
) -> Result<(), Stop>
    ensures { Adds (read (rest_inside items.old.items) cursor.old) result items.new.items cursor.new }
{
    let _has_ended = read_statements(cursor, alloc, items)?;
    cursor.expect(Mark::End, Expected::Statement)?;
    read_file_end(cursor)
}

/// All that follows in a file, from a place of the library on.
pub(crate) fn read_rest(
    cursor: &mut Cursor<'_>,
    alloc: Global,
    place: Place,
    items: &mut Vec<LibraryItem>,
) -> Result<(), Stop>
    ensures { Adds (read (rest_at place items.old.items) cursor.old) result items.new.items cursor.new }
{
    match place {
        Place::Start => {
            cursor.header(alloc)?;
            read_inside(cursor, alloc, items)
        }
        Place::Inside => read_inside(cursor, alloc, items),
        Place::Behind => read_file_end(cursor),
    }
}

/// Behind the library.
fn come_to_end(cursor: &Cursor<'_>) -> Result<Reached, Stop>
    ensures comes { (items : List Given) → ComesSo result place.Behind items cursor.now items cursor.now }
    ensures behind { IfOk result (λ reached. reached ≡ Reached.To Place.Behind) }
{
    read_file_end(cursor)?;
    Ok(Reached::To(Place::Behind))
}

/// Among the statements of the library.
#[tactic(auto, unfolding(crate::specs::Items::rest_inside, crate::specs::Items::library_end))]
fn come_on(
    cursor: &mut Cursor<'_>,
    alloc: Global,
    items: &mut Vec<LibraryItem>,
) -> Result<Reached, Stop>
    ensures { ComesSo result place.Inside items.old.items cursor.old items.new.items cursor.new }
{
    if !read_statements(cursor, alloc, items)? {
        return Ok(Reached::Unfinished);
    }
    if cursor.peek().is_none() {
        return Ok(Reached::To(Place::Inside));
    }
    cursor.expect(Mark::End, Expected::Statement)?;
    come_to_end(cursor)
}

/// Before the name of the library.
fn come_inside(cursor: &mut Cursor<'_>, alloc: Global) -> Result<Reached, Stop>
    ensures { (items : List Given) → ComesSo result place.Start items cursor.old items cursor.new }
{
    cursor.header(alloc)?;
    Ok(match cursor.peek() {
        Some(_) => Reached::Unfinished,
        None => Reached::To(Place::Inside),
    })
}

/// What tokens come to from a place on, with their items.
fn come_from(
    cursor: &mut Cursor<'_>,
    alloc: Global,
    place: Place,
    items: &mut Vec<LibraryItem>,
) -> Result<Reached, Stop>
    ensures { ComesSo result place items.old.items cursor.old items.new.items cursor.new }
{
    match place {
        Place::Start => come_inside(cursor, alloc),
        Place::Inside => come_on(cursor, alloc, items),
        Place::Behind => come_to_end(cursor),
    }
}

/// Whether a token is the same whatever follows the bytes up to this offset: a Word that ends with them may go on.
fn is_final(token: Token, end: usize) -> bool
    ensures { result ≡ is_final end token }
{
    token.kind != TokenKind::Word || token.end < end
}

/// Whether this next token is the same whatever follows the bytes up to this offset: also a Word is where another token stands
/// behind it.
fn is_settled(cursor: &Cursor<'_>, token: Token, end: usize) -> bool
    ensures { result ≡ (not (is_last cursor.now) || is_final end token) }
{
    !cursor.is_last() || is_final(token, end)
}

/// What the tokens of a part come to that begins at this place and ends at an offset, with the items that they give.
pub(crate) fn reach(
    cursor: &mut Cursor<'_>,
    alloc: Global,
    place: Place,
    end: usize,
    items: &mut Vec<LibraryItem>,
) -> Result<Reached, AllocError>
    ensures { IfOk result (λ reached. Comes reached place items.old.items cursor.old items.new.items end) }
{
    let refusal = match come_from(cursor, alloc, place, items) {
        Ok(reached) => return Ok(reached),
        Err(Stop::Memory) => return Err(AllocError),
        Err(Stop::Refused(refusal)) => refusal,
    };
    Ok(match cursor.peek() {
        Some(token) if is_settled(cursor, token, end) => {
            Reached::Refused(fault_at(refusal, token.at))
        }
        _ => Reached::Unfinished,
    })
}

//! Rows of tables, of any kind. (IEEE 1076.4-2000, the VITAL table types.)

ghost use Rattle.std.specs.Prelude.{◌≡◌, ◌≤◌, [], ◌∷◌, ◌++◌, length, take, IfOk};
ghost use Rattle.grammar_reader.specs.declared.refusal.Refusal.TheVariants.{Syntax};
ghost use Rattle.grammar_reader.specs.Reading.{read, Token, Reads, ReadsAs};
ghost use Rattle.vhdl_grammar.specs.VhdlTables as tables;
ghost use Rattle.vhdl_declarations_reader.specs.Rows as spec;

use grammar_reader::{Read, Refusal, RepeatedPart, Stop, one_or_more, with_end};
use sqlite_items::Items;
use std::alloc::{AllocError, Global};
use std::marker::PhantomData;
use vhdl_grammar::{Cursor, Vhdl, elements};

/// What stands in a row of a table.
pub trait RowEntry: Drop {
    ghost use Rattle.std.specs.Prelude.{ℕ, List, [], ◌∷◌, ◌++◌};
    ghost use Rattle.grammar_rules.specs.Reading.{Outcome};
    ghost use Rattle.grammar_reader.specs.declared.refusal.Refusal.{Refusal};
    ghost use Rattle.grammar_reader.specs.Reading.{ReadsAs};

    ghost reading: { List Self → List (List ℕ) → Outcome (List ℕ) Refusal (List Self) };

    /// The entry that stands next, behind these of its row.
    fn next(cursor: &mut Cursor<'_>, before: &[Self]) -> Read<Self>
        ensures { ReadsAs (λ entry. before.now ++ entry ∷ []) (reading before.now cursor.old) result cursor.new };
}

/// A row of a table: what its entries are as a row, of which the first are its inputs.
pub trait TableRow: Drop {
    ghost use Rattle.std.specs.Prelude.{◌≡◌, ℕ, List, Option};

    /// What stands in a row.
    type Entry: RowEntry;

    ghost row_of: { List Self.Entry → Option Self };

    ghost input_count: { Self → ℕ };

    /// The row that these entries are.
    fn row_of(found: Items<Self::Entry>) -> Option<Self>
        ensures { result ≡ row_of found };

    /// How many inputs a row has.
    fn input_count(&self) -> usize
        ensures { result ≡ input_count self.now };
}

/// For how many entries the first row of a table has room at first.
const SOME_ENTRIES: usize = 8;

/// No entries, with room for those of a row as long as the rows before it. Where there are none, there is room for some.
fn no_entries<R: TableRow>(alloc: Global, rows: &[R]) -> Result<Items<R::Entry>, AllocError>
    ensures { IfOk result (λ none. none ≡ []) }
{
    let room = match rows.first() {
        Some(first) => first.input_count().saturating_add(2),
        None => SOME_ENTRIES,
    };
    Ok(Items::from_vec(Vec::with_capacity(alloc, room)?))
}

/// The first of some entries, so many of them.
#[tactic(auto, using(crate::proofs::Entries::without_last, grammar_reader::proofs::Places::take_all))]
pub fn first_entries<E: Drop>(mut entries: Items<E>, count: usize) -> Items<E>
    requires { count ≤ length entries }
    ensures { result ≡ take count entries }
{
    for _turn in count..entries.len() {
        let _last = entries.pop();
    }
    entries
}

/// An entry of a row.
#[derive(Drop)]
struct NextEntry<E>(PhantomData<E>);

impl<E: RowEntry> RepeatedPart<Vhdl> for NextEntry<E> {
    type Found = Items<E>;

    ghost reading = { λ _ entries s. E.reading entries s };

    fn next(&self, cursor: &mut Cursor<'_>, mut entries: Items<E>) -> Read<Items<E>> {
        let entry = E::next(cursor, entries.as_slice())?;
        entries.push(entry)?;
        Ok(entries)
    }
}

/// The entries of a row, behind its bracket and behind these rows. There is room for no more than such a row has.
fn entries<R: TableRow>(cursor: &mut Cursor<'_>, alloc: Global, rows: &[R]) -> Read<Items<R::Entry>>
    ensures { Reads (spec.entries R.Entry.reading cursor.old) result cursor.new }
{
    let none = no_entries(alloc, rows)?;
    one_or_more(cursor, b",", &NextEntry::<R::Entry>(PhantomData), none)
}

/// Whether a row is as long as the first of those before it.
fn is_as_long<R: TableRow>(rows: &[R], row: &R) -> bool
    ensures { result ≡ tables.is_as_long R.input_count rows.now row.now }
{
    match rows.first() {
        Some(first) => row.input_count() == first.input_count(),
        None => true,
    }
}

/// The end of a row, where its entries are this row, behind these rows.
fn row_end<R: TableRow>(cursor: &mut Cursor<'_>, rows: &[R], row: Option<R>) -> Read<R>
    ensures { Reads (read (Token (tables.row_end (tables.is_as_long R.input_count rows.now) row) Syntax) cursor.old) result
        cursor.new }
{
    let Some(row) = row else {
        return Err(Stop::Refused(Refusal::Syntax));
    };
    if !cursor.is_next(b")") {
        return Err(Stop::Refused(Refusal::Syntax));
    }
    if !is_as_long(rows, &row) {
        return Err(Stop::Refused(Refusal::Width));
    }
    cursor.skip();
    Ok(row)
}

/// A row of a table, behind these rows.
fn a_row<R: TableRow>(cursor: &mut Cursor<'_>, alloc: Global, rows: &[R]) -> Read<R>
    ensures { ReadsAs (λ row. rows.now ++ row ∷ []) (spec.row R.Entry.reading R.row_of R.input_count rows.now cursor.old) result
        cursor.new }
{
    cursor.expect(b"(")?;
    let entries = entries(cursor, alloc, rows)?;
    row_end(cursor, rows, R::row_of(entries))
}

/// A row of a table, which is kept here.
#[derive(Drop)]
struct NextRow<R> {
    alloc: Global,
    row: PhantomData<R>,
}

impl<R: TableRow> RepeatedPart<Vhdl> for NextRow<R> {
    type Found = Items<R>;

    ghost reading = { λ _ rows s. spec.row R.Entry.reading R.row_of R.input_count rows s };

    fn next(&self, cursor: &mut Cursor<'_>, mut rows: Items<R>) -> Read<Items<R>> {
        let row = a_row(cursor, self.alloc, rows.as_slice())?;
        rows.push(row)?;
        Ok(rows)
    }
}

/// The rows of a table, in brackets.
pub fn rows_of<R: TableRow>(cursor: &mut Cursor<'_>, alloc: Global) -> Read<Items<R>>
    ensures { Reads (spec.rows_of R.Entry.reading R.row_of R.input_count cursor.old) result cursor.new }
{
    cursor.expect(b"(")?;
    let next = NextRow {
        alloc,
        row: PhantomData,
    };
    let rows = elements(cursor, &next, Items::new(alloc))?;
    with_end(cursor, &[b")"], rows)
}

//! Reading the text of a table.
ghost use Rattle.std.specs.Prelude.{◌≡◌, ◌+◌, ◌<◌, ◌^◌, length, map, IfOk, vec_len};
ghost use Rattle.std.specs.Option.{option_map};
ghost use Rattle.statetables.specs.Reading.{symbols_of, row_symbols, row_words as row_words_of, has_widths, rows_of_row};
ghost use Rattle.statetables.specs.Reading.{read_rows as read_rows_of, table_of, Gives};
ghost use Rattle.statetables.specs.Step.{IsRectangular};
ghost use Rattle.statetables.specs.Shown.{shown};

use crate::fault::TableFault;
use crate::table::{StateTable, TableRow};
use crate::text::{parts, without_end_comma, words};
use crate::written::{Symbol, Written, WrittenRow};
use sqlite_items::Items;
use std::alloc::{AllocError, Global};

/// Reads the text of a `table` attribute, over so many inputs and nodes. The rows stand between commas, of which one may
/// end the text; the three parts of a row between colons; the symbols of a part between spaces and tabs. A row with
/// `L/H` or `H/L` becomes two rows in its place. The first written row with a fault decides: `RowWidth` where it has not
/// three parts or a part has not its number of symbols, else `BadSymbol` at its first symbol that may not stand there.
/// (Liberty Reference Manual, `statetable` group.)
pub fn read_table(
    alloc: Global,
    text: &[u8],
    inputs: usize,
    nodes: usize,
) -> Result<StateTable, TableFault>
    ensures table { Gives result (table_of text.now inputs nodes) }

    // So `step` may be called on the table, with values of so many inputs and a node below so many.
    ensures inputs { IfOk result (λ table. table.inputs ≡ inputs) }
    ensures nodes { IfOk result (λ table. table.nodes ≡ nodes) }
    ensures rectangular { IfOk result IsRectangular }
{
    let texts = parts(alloc, without_end_comma(text), b',')?;
    let rows = read_rows(alloc, &texts, inputs, nodes)?;
    Ok(StateTable {
        inputs,
        nodes,
        rows,
    })
}

/// Reads the texts of all rows.
fn read_rows(
    alloc: Global,
    texts: &[&[u8]],
    inputs: usize,
    nodes: usize,
) -> Result<Items<TableRow>, TableFault>
    ensures { Gives result (read_rows_of 1 inputs nodes (map (λ text. text.now) texts.now)) }
{
    let mut rows = Items::new(alloc);
    for (place, text) in texts.iter().enumerate() {
        rows.append(read_row(alloc, text, place + 1, inputs, nodes)?)?;
    }
    Ok(rows)
}

/// Reads the text of the row of this number.
fn read_row(
    alloc: Global,
    text: &[u8],
    row: usize,
    inputs: usize,
    nodes: usize,
) -> Result<Items<TableRow>, TableFault>
    ensures { Gives result (rows_of_row row inputs nodes text.now) }
{
    let parts = parts(alloc, text, b':')?;
    let Some(words) = row_words(alloc, &parts)? else {
        return Err(TableFault::RowWidth(row));
    };
    if !words.has_widths(inputs, nodes) {
        return Err(TableFault::RowWidth(row));
    }
    let symbols = words.symbols(alloc, row)?;
    Ok(symbols.rows(alloc)?)
}

/// The words of the parts of a row: None where it has not three parts.
fn row_words<'a>(alloc: Global, parts: &[&'a [u8]]) -> Result<Option<RowWords<'a>>, AllocError>
    ensures { IfOk result (λ words. option_map shown words ≡ row_words_of (map (λ part. part.now) parts.now)) }
{
    let [first, second, third] = *parts else {
        return Ok(None);
    };
    Ok(Some(RowWords {
        inputs: words(alloc, first)?,
        current: words(alloc, second)?,
        next: words(alloc, third)?,
    }))
}

/// The words of a row.
#[derive(Drop)]
struct RowWords<'a> {
    /// A word for each input.
    inputs: Vec<&'a [u8]>,
    /// A word for the present state of each node.
    current: Vec<&'a [u8]>,
    /// A word for the next state of each node.
    next: Vec<&'a [u8]>,
}

impl RowWords<'_> {
    /// Whether there is a word for each of so many inputs and, in both other parts, for each of so many nodes.
    fn has_widths(&self, inputs: usize, nodes: usize) -> bool
        ensures { result ≡ has_widths (shown self.now) inputs nodes }
    {
        self.inputs.len() == inputs && self.current.len() == nodes && self.next.len() == nodes
    }

    /// The symbols that the words stand for, in the row of this number.
    fn symbols(&self, alloc: Global, row: usize) -> Result<WrittenRow, TableFault>
        requires { 1 + vec_len self.now.inputs + vec_len self.now.current + vec_len self.now.next < 2 ^ 64 }
        ensures { Gives result (row_symbols row (shown self.now)) }
    {
        let current = 1 + self.inputs.len();
        let next = current + self.current.len();
        Ok(WrittenRow {
            inputs: symbols(alloc, &self.inputs, row, 1)?,
            current: symbols(alloc, &self.current, row, current)?,
            next: symbols(alloc, &self.next, row, next)?,
        })
    }
}

/// The symbols that the words of a part stand for, in the row of this number, where the first stands in this column.
fn symbols<S: Symbol>(
    alloc: Global,
    words: &[&[u8]],
    row: usize,
    column: usize,
) -> Result<Items<Written<S>>, TableFault>
    requires { column + length words.now < 2 ^ 64 }
    ensures { Gives result (symbols_of S.of_word row column (map (λ word. word.now) words.now)) }
{
    let mut symbols = Items::new(alloc);
    for (place, word) in words.iter().enumerate() {
        let Some(symbol) = S::of_word(word) else {
            return Err(TableFault::BadSymbol {
                row,
                column: column + place,
            });
        };
        symbols.push(symbol)?;
    }
    Ok(symbols)
}

//! The items of a library, one after another.
ghost use Rattle.std.specs.Prelude.{◌≡◌, List, [], ◌++◌, IsTrue, IfOk, OnOk};
ghost use Rattle.text_io.specs.{declared.slots.Slot.TheVariants.Input, declared.slots.InSlot.TheVariants.Library, Desk.is_bound};
ghost use Rattle.text_io.specs.Desk.{StopsWithCause};
ghost use Rattle.run_outcome.specs.Written.{Writes};
ghost use Rattle.cell_cursor.specs.declared.item.LibraryItem.TheVariants as item;
ghost use Rattle.library_reader.specs.{LibraryCells.CellEntry, Progress.no_progress, Progress.after_item, NextCells.IsNext};
ghost use Rattle.library_reader.specs.{KeptCells.item_kept, WrittenItems.written_for, Endings.library_limit, Folds.AreBound};
ghost use Rattle.library_reader.specs.{Folds.IsNumbered, Folds.FoldsItems};

use crate::ending::{Ending, ending_by};
use crate::fold::CellFold;
use crate::next::{NextCell, count_cell, next_cell};
use crate::progress::{Progress, unit_of};
use crate::writer::ItemWriter;
use cell_attributes::groups::cell_name;
use cell_cursor::{CellCursor, LibraryItem, Next};
use liberty_groups::Group;
use run_outcome::FILE_LIMIT;
use std::alloc::Global;
use text_io::{Desk, Stop};

/// Reads the next cell, writes what becomes of it, and counts it.
fn read_next<D: Desk, W: ItemWriter>(
    alloc: Global,
    desk: &mut D,
    progress: &mut Progress,
    writer: &W,
    group: &Group,
) -> Result<NextCell, Stop>
    requires bound { AreBound (D.state desk.old) W.outputs }
    requires few { IsNumbered progress.old }
    ensures next { IfOk result (λ next. IsNext progress.old group.now next) }
    ensures text { Writes (D.state desk.old) (D.state desk.new) (W.for_cell progress.old group.now) result }
    ensures progress { OnOk result (progress.new ≡ after_item progress.old (item.Cell group.now)) }
    ensures cause { StopsWithCause (D.faults desk.old) (D.faults desk.new) result }
{
    let next = next_cell(alloc, progress, group)?;
    writer.write_cell(alloc, desk, progress, group, &next)?;
    count_cell(alloc, progress, group, &next)?;
    Ok(next)
}

/// Writes what becomes of a cell, and takes it where no cell before it has its name.
fn handle_cell<D: Desk, W: ItemWriter, F: CellFold>(
    alloc: Global,
    desk: &mut D,
    progress: &mut Progress,
    writer: &W,
    fold: &mut F,
    group: &Group,
) -> Result<(), Stop>
    requires bound { AreBound (D.state desk.old) W.outputs }
    requires few { IsNumbered progress.old }
    ensures text { Writes (D.state desk.old) (D.state desk.new) (W.for_cell progress.old group.now) result }
    ensures made { OnOk result ((cells : List CellEntry) → F.made fold.old cells
        → F.made fold.new (cells ++ item_kept progress.old (item.Cell group.now))) }
    ensures progress { OnOk result (progress.new ≡ after_item progress.old (item.Cell group.now)) }
    ensures cause { StopsWithCause (D.faults desk.old) (D.faults desk.new) result }
{
    let is_repeated = progress.names.number(cell_name(group)).is_some();
    let next = read_next(alloc, desk, progress, writer, group)?;
    if is_repeated {
        return Ok(());
    }
    fold.take(alloc, group, next)
}

/// Writes what becomes of an item of a library and counts it, and takes it where it is a cell whose name no cell before it has.
fn handle_item<D: Desk, W: ItemWriter, F: CellFold>(
    alloc: Global,
    desk: &mut D,
    progress: &mut Progress,
    writer: &W,
    fold: &mut F,
    item: LibraryItem,
) -> Result<(), Stop>
    requires bound { AreBound (D.state desk.old) W.outputs }
    requires few { IsNumbered progress.old }
    ensures text { Writes (D.state desk.old) (D.state desk.new) (written_for W.for_cell W.for_left_out progress.old item)
        result }
    ensures made { OnOk result ((cells : List CellEntry) → F.made fold.old cells
        → F.made fold.new (cells ++ item_kept progress.old item)) }
    ensures progress { OnOk result (progress.new ≡ after_item progress.old item) }
    ensures cause { StopsWithCause (D.faults desk.old) (D.faults desk.new) result }
{
    match item {
        LibraryItem::Cell(group) => handle_cell(alloc, desk, progress, writer, fold, &group),
        LibraryItem::Unit(line) => {
            progress.unit = unit_of(line.value.as_slice());
            Ok(())
        }
        LibraryItem::LeftOut(_) => writer.write_left_out(desk),
        LibraryItem::BusType(group) => {
            progress.count_type(alloc, &group)?;
            Ok(())
        }
    }
}

/// Goes over the items of the library that is bound, in the order of the file, up to its end or its limit, and answers how it
/// ends. What becomes of an item is written before anything further is read, and of cells of one name the first is taken. Of the
/// library's text only the statement that has not ended is held, beside the names and the types of buses that it has told so far.
///
/// Faults: `Failed` where a read or a write failed, `Memory`.
pub fn fold_items<D: Desk, W: ItemWriter, F: CellFold>(
    alloc: Global,
    desk: &mut D,
    progress: &mut Progress,
    writer: &W,
    fold: &mut F,
) -> Result<Ending, Stop>
    requires library { IsTrue (is_bound (D.state desk.old) (Input Library)) }
    requires bound { AreBound (D.state desk.old) W.outputs }
    requires fresh { progress.old ≡ no_progress }
    requires start { F.made fold.old [] }
    ensures items { FoldsItems (written_for W.for_cell W.for_left_out) (F.made fold.new) library_limit (D.state desk.old)
        (D.state desk.new) progress.new result }
    ensures cause { StopsWithCause (D.faults desk.old) (D.faults desk.new) result }
{
    let mut cursor = CellCursor::new(alloc, FILE_LIMIT)?;
    for _turn in 0..FILE_LIMIT + 1 {
        match cursor.next_cell(desk) {
            Ok(Next::Item(item)) => handle_item(alloc, desk, progress, writer, fold, item)?,
            Ok(Next::Ended(end)) => return Ok(ending_by(end)),
            Err(stop) => return Err(stop),
        }
    }
    // Each item has a byte of its own.
    unreachable!()
}

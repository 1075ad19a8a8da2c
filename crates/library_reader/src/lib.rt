//! The items of a library in order: what counts for the next one, what is written for each, what is made of the cells, the cells
//! that are kept, how the library ends, and how a line tells a cell.
//! The lines that report what became of a library's cells, and why a library is refused. Each line ends with a line feed, and no
//! call for one takes memory.
//! The library file of a run: what it is read as, or how it ends the run.
#![tactic(auto)]

mod cell_lines;
mod ending;
mod expanded_cell;
mod fault_words;
mod faults;
mod fold;
mod items;
mod keeping;
mod left_out;
mod library_cell;
mod next;
mod progress;
mod reading;
mod report_lines;
mod writer;

pub use cell_lines::{PrintedName, RefusalLine};
pub use ending::{Ending, NotWhole};
pub use faults::{write_library_fault, write_library_too_long};
pub use fold::{CellFold, NothingKept, fold_cells};
pub use items::fold_items;
pub use keeping::read_cells;
pub use left_out::{write_left_out_file, write_left_out_groups};
pub use library_cell::LibraryCell;
pub use next::NextCell;
pub use progress::Progress;
pub use reading::read_library_file;
pub use report_lines::{write_accepted_cell, write_refused_cell, write_totals};
pub use writer::{ItemWriter, NothingWritten};

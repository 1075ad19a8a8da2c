//! Which rows of a table match, in any language of models: for each value that a column can have before a change and after it a
//! mask of the rows that its symbols let match, a bit for each row. (Which rows match: IEEE 1364-2005, clause 8, and IEEE
//! 1076.4-2000, VITAL table symbols. That they are found by masks is this project's choice.)
#![tactic(auto)]

mod column_values;
mod first_rows;
mod given_values;
mod primitives;
mod row_tests;
mod rows;
mod value_masks;
mod vital;

pub use column_values::{ColumnValues, ValueChange, write_news};
pub use primitives::{masked_level, masked_next};
pub use row_tests::{MaskedRow, RowTest};
pub use rows::{RowMasks, masks_at, masks_of};
pub use value_masks::{ChangeMasks, ValueMasks};
pub use vital::{masked_state, masked_truth};

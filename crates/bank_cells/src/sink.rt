//! What takes the statements of a cell as they are made.
use liberty_groups::Item;
use std::alloc::{AllocError, Global};

/// What takes the statements of a cell, one after another.
pub trait ItemSink {
    ghost use Rattle.std.specs.Prelude.{◌≡◌, OnOk};
    ghost use Rattle.liberty_groups.specs.declared.tree.Item.{Item};

    /// What this is behind one more statement.
    ghost after: { Self → Item → Self };

    /// Takes the next statement. An `Err` comes only where memory is wanting.
    fn take(&mut self, alloc: Global, item: Item) -> Result<(), AllocError>
        ensures { OnOk result (self.new ≡ after self.old item) };
}

//! The statements of a cell, as they come and trimmed.
use crate::trimming::{has_apart_in, is_trimmed_item, keeps_order_in, pins_in_item, trimmed_item};
use bank_cells::ItemSink;
use cell_attributes::limits::MOST_PINS;
use liberty_groups::Item;
use sqlite_items::Items;
use std::alloc::{AllocError, Global};

/// The statements of a cell so far.
#[derive(Drop)]
pub(crate) struct AllItems {
    pub(crate) items: Items<Item>,
}

impl AllItems {
    ghost use Rattle.std.specs.Prelude.{◌≡◌};
    ghost use Rattle.three_state_cells.specs.Sinks.{nothing_held};

    /// Before the first statement.
    pub(crate) fn new(alloc: Global) -> AllItems
        ensures { result ≡ nothing_held }
    {
        AllItems {
            items: Items::new(alloc),
        }
    }
}

impl ItemSink for AllItems {
    ghost use Rattle.three_state_cells.specs.Sinks.{after_all};

    ghost after = { after_all };

    fn take(&mut self, _alloc: Global, item: Item) -> Result<(), AllocError> {
        self.items.push(item)?;
        Ok(())
    }
}

/// The statements of a cell so far, trimmed.
#[derive(Drop)]
pub(crate) struct TrimmedItems {
    pub(crate) items: Items<Item>,
    /// How many pins they make, at most the limit.
    pub(crate) pins: usize,
    /// None of them lost anything.
    pub(crate) is_whole: bool,
    /// No statement of a pin group that is trimmed stands before it.
    pub(crate) is_ordered: bool,
    /// Some timing is read apart from the trimmed core.
    pub(crate) has_apart: bool,
}

impl TrimmedItems {
    ghost use Rattle.std.specs.Prelude.{◌≡◌};
    ghost use Rattle.three_state_cells.specs.Sinks.{nothing_trimmed};

    /// Before the first statement.
    pub(crate) fn new(alloc: Global) -> TrimmedItems
        ensures { result ≡ nothing_trimmed }
    {
        TrimmedItems {
            items: Items::new(alloc),
            pins: 0,
            is_whole: true,
            is_ordered: true,
            has_apart: false,
        }
    }
}

impl ItemSink for TrimmedItems {
    ghost use Rattle.three_state_cells.specs.Sinks.{after_trimmed};

    ghost after = { after_trimmed };

    fn take(&mut self, alloc: Global, item: Item) -> Result<(), AllocError> {
        let made = pins_in_item(&item);
        let is_whole = self.is_whole && !is_trimmed_item(self.pins, &item);
        let is_ordered = self.is_ordered && keeps_order_in(self.pins, &item);
        let has_apart = self.has_apart || has_apart_in(self.pins, &item);
        let kept = trimmed_item(alloc, self.pins, item)?;
        self.items.push(kept)?;
        self.pins = self.pins.saturating_add(made).min(MOST_PINS);
        self.is_whole = is_whole;
        self.is_ordered = is_ordered;
        self.has_apart = has_apart;
        Ok(())
    }
}

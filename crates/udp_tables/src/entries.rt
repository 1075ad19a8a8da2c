//! The entries of a row of a primitive's table.
ghost use Rattle.std.specs.Prelude.{◌≡◌, [], ◌∷◌, ◌++◌, length, IfOk, OnOk};

use crate::table::Entry;
use cell_machine::Few;
use sqlite_items::Items;
use std::alloc::{AllocError, Global};
use std::marker::Model;

/// What stands in the place of the entries of a row.
#[derive(Drop)]
enum HeldEntries {
    InPlace(Few<Entry, 10>),
    Listed(Items<Entry>),
}

/// How many entries stand in place: as many as a primitive may have inputs.
const IN_PLACE: usize = 10;

/// The entries of a row, in order. As many as a primitive may have inputs take no memory of their own. Contracts see the list of
/// them.
#[derive(Drop)]
pub struct Entries {
    held: HeldEntries,
}

impl Model for Entries {
    ghost use Rattle.std.specs.Prelude.{List};
    ghost use Rattle.udp_tables.specs.Entries.{held_entries};
    ghost use Rattle.udp_tables.specs.declared.table.Entry.{Entry};

    ghost Value = { List Entry };

    ghost view = { λ e. held_entries e.held };
}

/// A list of these entries, and of this one behind them.
fn listed(alloc: Global, entries: &[Entry], last: Entry) -> Result<Items<Entry>, AllocError>
    ensures { IfOk result (λ all. all ≡ entries.now ++ last ∷ []) }
{
    let mut all = Items::from_slice(alloc, entries)?;
    all.push(last)?;
    Ok(all)
}

impl Entries {
    /// No entries. Takes no memory.
    #[inline(always)]
    pub fn new() -> Entries
        ensures { result ≡ [] }
    {
        Entries {
            held: HeldEntries::InPlace(Few::new(Entry::Star)),
        }
    }

    /// The entries of a list.
    pub fn from_items(entries: Items<Entry>) -> Entries
        ensures { result ≡ entries }
    {
        Entries {
            held: HeldEntries::Listed(entries),
        }
    }

    /// Adds an entry at the end. `AllocError` comes only where memory is wanting.
    #[inline(always)]
    pub fn push(&mut self, alloc: Global, entry: Entry) -> Result<(), AllocError>
        ensures { OnOk result (self.new ≡ self.old ++ entry ∷ []) }
    {
        match &mut self.held {
            HeldEntries::InPlace(few) => {
                if few.as_slice().len() < IN_PLACE {
                    few.push(entry);
                    return Ok(());
                }
                let all = listed(alloc, few.as_slice(), entry)?;
                self.held = HeldEntries::Listed(all);
                Ok(())
            }
            HeldEntries::Listed(entries) => entries.push(entry),
        }
    }

    /// The entries in order.
    #[inline(always)]
    pub fn as_slice(&self) -> &[Entry]
        ensures { result.now ≡ self.now }
    {
        match &self.held {
            HeldEntries::InPlace(few) => few.as_slice(),
            HeldEntries::Listed(entries) => entries.as_slice(),
        }
    }

    /// How many entries there are.
    #[inline(always)]
    pub fn len(&self) -> usize
        ensures { result ≡ length self.now }
    {
        self.as_slice().len()
    }
}

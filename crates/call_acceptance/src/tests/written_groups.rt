//! A cell as it is written.

ghost use Rattle.std.specs.Prelude.{IfOk, IsTrue};
ghost use Rattle.liberty_groups.specs.Writing.{is_writable};

use group_writer::write_group;
use liberty_groups::{Arguments, Group, Item, SmallList, Value, Values, copy_text};
use sqlite_items::Items;
use std::alloc::{AllocError, Global};
use std::test::Fail;

/// A cell with one attribute, and a quote in its name.
fn cell(alloc: Global) -> Result<Group, AllocError>
    ensures { IfOk result (λ group. IsTrue (is_writable 32 group)) }
{
    let value = Values::one(Value::new(copy_text(alloc, b"1.5")?, false));
    let mut items = Items::new(alloc);
    items.push(Item::Simple {
        name: copy_text(alloc, b"area")?,
        value,
        at: 0,
    })?;
    let arguments = Values::one(Value::new(copy_text(alloc, b"A\"B")?, true));
    Ok(Group {
        name: copy_text(alloc, b"cell")?,
        arguments: Arguments::from_values(alloc, arguments)?,
        items: SmallList::from_items(alloc, items)?,
        at: 0,
    })
}

/// Whether the cell is written so.
fn is_written(alloc: Global, wanted: &[u8]) -> Result<bool, Fail> {
    let group = cell(alloc)?;
    let text = write_group(alloc, &group)?;
    Ok(text.as_slice() == wanted)
}

#[test]
fn a_cell(rt: HostRuntime) -> Result<(), Fail> {
    assert!(rt; is_written(rt.alloc(), b"cell (\"A\\\"B\") {\narea : \"1.5\";\n}\n")?);
    Ok(())
}

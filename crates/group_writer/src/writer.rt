//! Groups to Liberty text.

ghost use Rattle.std.specs.Prelude.{◌≡◌, ◌++◌, true, OnOk, IfOk, IsTrue};
ghost use Rattle.liberty_text.specs.TextValue.{quoted};
ghost use Rattle.liberty_groups.specs.Writing.{value_text, values_text, item_text, items_text, group_text, is_writable};

use liberty_groups::{Group, Item, Value};
use std::alloc::{AllocError, Global};

/// The text of a value between quotes, with a backslash before each quote in it.
fn push_value(out: &mut Vec<u8>, value: &Value) -> Result<(), AllocError>
    ensures { OnOk result (out.new.items ≡ out.old.items ++ value_text value.now) }
{
    out.push(b'"')?;
    for byte in value.bytes() {
        if *byte == b'"' {
            out.push(b'\\')?;
        }
        out.push(*byte)?;
    }
    out.push(b'"')?;
    Ok(())
}

/// Appends values with commas between them.
fn push_values(out: &mut Vec<u8>, values: &[Value]) -> Result<(), AllocError>
    ensures { OnOk result (out.new.items ≡ out.old.items ++ values_text true values.now) }
{
    let mut first = true;
    for value in values {
        if !first {
            out.extend_from_slice(b", ")?;
        }
        push_value(out, value)?;
        first = false;
    }
    Ok(())
}

/// Appends a name, and values between these bytes.
fn push_named(
    out: &mut Vec<u8>,
    name: &[u8],
    before: &[u8],
    values: &[Value],
    behind: &[u8],
) -> Result<(), AllocError>
    ensures { OnOk result (out.new.items ≡ out.old.items
        ++ (name.now ++ before.now ++ values_text true values.now ++ behind.now)) }
{
    out.extend_from_slice(name)?;
    out.extend_from_slice(before)?;
    push_values(out, values)?;
    out.extend_from_slice(behind)?;
    Ok(())
}

/// Appends one statement.
#[cycle(writing)]
fn push_item(out: &mut Vec<u8>, item: &Item) -> Result<(), AllocError>
    ensures { OnOk result (out.new.items ≡ out.old.items ++ item_text item.now) }
{
    match item {
        Item::Simple { name, value, .. } => {
            push_named(out, name.as_slice(), b" : ", value.as_slice(), b";\n")
        }
        Item::Complex {
            name,
            arguments,
            ..
        } => push_named(out, name.as_slice(), b" (", arguments.as_slice(), b");\n"),
        Item::Inner(group) => push_group(out, group),
    }
}

/// Appends statements in order.
#[cycle(writing)]
fn push_items(out: &mut Vec<u8>, items: &[Item]) -> Result<(), AllocError>
    ensures { OnOk result (out.new.items ≡ out.old.items ++ items_text items.now) }
{
    for item in items {
        push_item(out, item)?;
    }
    Ok(())
}

/// Appends a group with all that stands in it.
#[cycle(writing)]
fn push_group(out: &mut Vec<u8>, group: &Group) -> Result<(), AllocError>
    ensures { OnOk result (out.new.items ≡ out.old.items ++ group_text group.now) }
{
    push_named(
        out,
        group.name.as_slice(),
        b" (",
        group.arguments.as_slice(),
        b") {\n",
    )?;
    push_items(out, group.items.as_slice())?;
    out.extend_from_slice(b"}\n")?;
    Ok(())
}

/// The text of a group, one statement per line, every value quoted, with a backslash before each quote
/// in it.
///
/// It needs names that are Words, values that hold no line feed and do not end in a backslash, and at
/// most 32 groups open inside one another: then `liberty_groups::writing_reads_back` holds of the text.
pub fn write_group(alloc: Global, group: &Group) -> Result<Vec<u8>, AllocError>
    requires { IsTrue (is_writable 32 group.now) }
    ensures { IfOk result (λ text. text.items ≡ group_text group.now) }
{
    let mut out = Vec::new(alloc);
    push_group(&mut out, group)?;
    Ok(out)
}

//! The statements of a group by their names.
ghost use Rattle.std.specs.Prelude.{◌≡◌};
ghost use Rattle.std.specs.Option.{option_map, option_copied};
ghost use Rattle.liberty_groups.specs.declared.tree.Item.{out-Item};
ghost use Rattle.liberty_groups.specs.Attributes.{text_of, simple_named, group_named, attribute_of, shown};

use crate::tree::{Group, Item, Value};

/// A simple attribute.
#[derive(Clone, Copy)]
pub struct Attribute<'a> {
    /// The text of its one value. It is empty where there is no value or several.
    pub text: &'a [u8],
    /// The offset of the first byte of its statement.
    pub at: usize,
}

/// The text of the one value, and the empty text where there is no value or several.
fn text(values: &[Value]) -> &[u8]
    ensures { result.now ≡ text_of values.now }
{
    match values {
        [value] => value.bytes(),
        _ => &[],
    }
}

/// The simple attribute that a statement is, where it is one of this name.
#[inline(always)]
pub fn simple_attribute<'a>(item: &'a Item, wanted: &[u8]) -> Option<Attribute<'a>>
    ensures { option_map shown result ≡ simple_named wanted.now (out-Item item.now) }
{
    match item {
        Item::Simple { name, value, at } if name.as_slice() == wanted => Some(Attribute {
            text: text(value.as_slice()),
            at: *at,
        }),
        _ => None,
    }
}

/// The group that a statement is, where it is one of this name.
pub fn inner_group<'a>(item: &'a Item, wanted: &[u8]) -> Option<&'a Group>
    ensures { option_copied result ≡ group_named wanted.now (out-Item item.now) }
{
    match item {
        Item::Inner(group) if group.name.as_slice() == wanted => Some(group),
        _ => None,
    }
}

/// The simple attribute of this name in a group: of several the last one.
pub fn last_attribute<'a>(group: &'a Group, name: &[u8]) -> Option<Attribute<'a>>
    ensures { option_map shown result ≡ attribute_of group.now name.now }
{
    let mut found = None;
    for item in group.items.as_slice() {
        if let Some(attribute) = simple_attribute(item, name) {
            found = Some(attribute);
        }
    }
    found
}

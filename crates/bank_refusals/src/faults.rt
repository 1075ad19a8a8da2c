//! The texts that name a bus, a bundle or a variable of a bank where it has no bit.
ghost use Rattle.std.specs.Prelude.{◌≡◌, ◌++◌, ◌∷◌, [], if◌then◌else◌, OnOk, map, option_map};
ghost use Rattle.liberty_groups.specs.Attributes.{shown, attributes_named, last_or};
ghost use Rattle.bank_refusals.specs.Faults as spec;

use bus_texts::{Vectors, text_fails};
use liberty_groups::{Attribute, Item, simple_attribute};
use std::alloc::{AllocError, Global};

/// Where a text stands: the names of several bits in its cell, and its position, if it has one.
#[derive(Clone, Copy)]
pub struct Place<'a> {
    pub vectors: &'a Vectors,
    pub position: Option<usize>,
}

/// The last simple attribute of this name among statements.
fn last_named<'a>(items: &[&'a Item], name: &[u8]) -> Option<Attribute<'a>>
    ensures { option_map shown result ≡ last_or None (attributes_named name.now (map (λ item. item.now) items.now)) }
{
    let mut found = None;
    for item in items {
        if let Some(attribute) = simple_attribute(item, name) {
            found = Some(attribute);
        }
    }
    found
}

/// Adds an offset, if something fails there.
pub(crate) fn add_at_if(found: &mut Vec<usize>, fails: bool, at: usize) -> Result<(), AllocError>
    ensures { OnOk result (found.new.items ≡ found.old.items ++ (if fails then at ∷ [] else [])) }
{
    if fails {
        found.push(at)?;
    }
    Ok(())
}

/// Adds the offset of the text of this name, if it cannot become what it has to.
pub(crate) fn add_named(
    alloc: Global,
    found: &mut Vec<usize>,
    place: Place<'_>,
    items: &[&Item],
    name: &[u8],
) -> Result<(), AllocError>
    ensures { OnOk result
        (found.new.items
        ≡ found.old.items
        ++ spec.fault_named place.entry.vectors.now place.entry.position (map (λ item. item.now) items.now) name.now) }
{
    let Some(text) = last_named(items, name) else {
        return Ok(());
    };
    let fails = text_fails(alloc, place.vectors, place.position, text.text)?;
    add_at_if(found, fails, text.at)
}

/// Adds the offsets of the texts of these names that cannot become what they have to.
pub(crate) fn add_texts(
    alloc: Global,
    found: &mut Vec<usize>,
    place: Place<'_>,
    items: &[&Item],
    names: &[&[u8]],
) -> Result<(), AllocError>
    ensures { OnOk result
        (found.new.items
        ≡ found.old.items
        ++ spec.text_faults place.entry.vectors.now place.entry.position (map (λ name. name.now) names.now)
        (map (λ item. item.now) items.now)) }
{
    for name in names {
        add_named(alloc, found, place, items, name)?;
    }
    Ok(())
}

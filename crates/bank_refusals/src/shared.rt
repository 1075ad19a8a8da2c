//! The statements of a bus or bundle that may be at fault at the position of a member.
ghost use Rattle.std.specs.Prelude.{◌≡◌, ◌++◌, IfOk, map, filter};
ghost use Rattle.bank_refusals.specs.Fixed as spec;

use crate::fixed::may_fail;
use crate::members::is_shared;
use bus_texts::Vectors;
use liberty_groups::Item;
use std::alloc::{AllocError, Global};

/// Whether each member has a statement, and it may be at fault.
fn varies(alloc: Global, vectors: &Vectors, item: &Item) -> Result<bool, AllocError>
    ensures { IfOk result (λ varies. varies ≡ spec.varies vectors.now item.now) }
{
    if is_shared(item) {
        may_fail(alloc, vectors, item)
    } else {
        Ok(false)
    }
}

/// Those of these statements that each member has and that may be at fault.
pub(crate) fn varying_items<'a>(
    alloc: Global,
    vectors: &Vectors,
    items: &'a [Item],
) -> Result<Vec<&'a Item>, AllocError>
    ensures { IfOk result (λ found. map (λ item. item.now) found.items ≡ filter (spec.varies vectors.now) items.now) }
{
    let mut found = Vec::new(alloc);
    for item in items {
        if varies(alloc, vectors, item)? {
            found.push(item)?;
        }
    }
    Ok(found)
}

/// References to statements, and behind them others.
pub(crate) fn joined<'a>(
    alloc: Global,
    first: &[&'a Item],
    second: &[&'a Item],
) -> Result<Vec<&'a Item>, AllocError>
    ensures { IfOk result
        (λ found. map (λ item. item.now) found.items ≡ map (λ item. item.now) first.now ++ map (λ item. item.now) second.now) }
{
    let mut found = Vec::new(alloc);
    found.extend_from_slice(first)?;
    found.extend_from_slice(second)?;
    Ok(found)
}

//! The models that stand whole before a fault.
ghost use Rattle.std.specs.Prelude.{◌≡◌, nat_le, take, IfOk};
ghost use Rattle.std.specs.{List.filter, Option.option_map, Result.result_ok};
ghost use Rattle.sectioned_texts.specs.DrivenModels as spec;

use crate::answers::models_of;
use crate::faults::fault_place;
use crate::language::SectionLanguage;
use std::alloc::{AllocError, Global};
use udp_tables::ModelFault;

/// The models of a front of a text, where it is one itself.
fn front_models<L: SectionLanguage>(
    alloc: Global,
    text: &[u8],
    to: usize,
) -> Result<Option<Vec<L::Model>>, AllocError>
    ensures { IfOk result (λ found. option_map (λ models. models.items) found ≡ result_ok (L.language.text (take to text.now))) }
{
    let front = &text[..to.min(text.len())];
    match models_of::<L>(alloc, front)? {
        Ok(models) => Ok(Some(models)),
        Err(_) => Ok(None),
    }
}

/// Of the fronts of a text that end at these offsets and no later than at the last one, the models of the first that is a text.
fn first_front<L: SectionLanguage>(
    alloc: Global,
    text: &[u8],
    ends: &[usize],
    last: usize,
) -> Result<Vec<L::Model>, AllocError>
    ensures { IfOk result (λ models. models.items ≡ spec.front_models L.language.text text.now
        (filter (λ to. nat_le to last) ends.now)) }
{
    for to in ends {
        if *to <= last {
            if let Some(models) = front_models::<L>(alloc, text, *to)? {
                return Ok(models);
            }
        }
    }
    Ok(Vec::new(alloc))
}

/// The models that stand whole before a fault of a text.
pub(crate) fn whole_models<L: SectionLanguage>(
    alloc: Global,
    text: &[u8],
    fault: &ModelFault,
) -> Result<Vec<L::Model>, AllocError>
    ensures { IfOk result (λ models. models.items ≡ spec.whole_models L.language text.now fault.now) }
{
    let mut ends = L::ends(alloc, text)?;
    ends.reverse();
    first_front::<L>(alloc, text, &ends, fault_place(fault))
}

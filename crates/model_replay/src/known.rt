//! What is known of the models of a file before any change, of those that were run, so that another section of one begins with
//! it.
ghost use Rattle.std.specs.Prelude.{◌≡◌, ◌<◌, List, None, Some, length, slice_get, slice_index_or, OnOk};
ghost use Rattle.model_replay.specs.KnownModels.{AreStarts};

use model_files::ModelLanguage;
use std::alloc::{AllocError, Global};

/// Finds what is known of the model with this number, where it was not found before.
pub(crate) fn learn<L: ModelLanguage>(
    alloc: Global,
    known: &mut Vec<Option<L::Start>>,
    number: usize,
    model: &L::Model,
) -> Result<(), AllocError>
    requires well_formed { L.language.is_well_formed model.now }
    requires inside { number < length known.old.items }
    ensures known { OnOk result ((models : List L.Model) → slice_get models number ≡ Some model.now
        → AreStarts L.is_start models known.old.items → AreStarts L.is_start models known.new.items) }
    ensures found { OnOk result ((start : L.Start) × (slice_index_or known.new.items number None ≡ Some start)) }
    ensures len { OnOk result (length known.new.items ≡ length known.old.items) }
{
    if known[number].is_none() {
        known[number] = Some(L::start(alloc, model)?);
    }
    Ok(())
}

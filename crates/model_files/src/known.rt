//! What is known of things that have numbers, of some of them.
ghost use Rattle.std.specs.Prelude.{◌≡◌, None, replicate, IfOk};

use std::alloc::{AllocError, Global};

/// Of so many things nothing is known. `AllocError` comes only where memory is wanted and not there.
pub fn nothing_known<T: Drop>(alloc: Global, count: usize) -> Result<Vec<Option<T>>, AllocError>
    ensures { IfOk result (λ known. known.items ≡ replicate count None) }
{
    let mut known = Vec::new(alloc);
    for _ in 0..count {
        known.push(None)?;
    }
    Ok(known)
}

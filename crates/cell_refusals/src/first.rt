//! Which of several reasons decides.
ghost use Rattle.std.specs.Prelude.{◌≡◌};
ghost use Rattle.cell_refusals.specs.Reasons.{refused_or as refused_or_of};

use crate::refusal::{Reason, Refusal};

/// This reason where it is met, else what comes later.
pub fn refused_or(reason: Reason, at: Option<usize>, later: Option<Refusal>) -> Option<Refusal>
    ensures { result ≡ refused_or_of reason at later }
{
    match at {
        None => later,
        Some(at) => Some(Refusal { reason, at }),
    }
}

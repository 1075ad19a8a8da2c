//! The least of some offsets.
ghost use Rattle.std.specs.Prelude.{◌≡◌};
ghost use Rattle.cell_machine.specs.Delay.{lesser as lesser_of};

/// The lesser of two offsets, of which none, one or both are there.
pub fn lesser(first: Option<usize>, second: Option<usize>) -> Option<usize>
    ensures { result ≡ lesser_of first second }
{
    match (first, second) {
        (None, second) => second,
        (Some(first), None) => Some(first),
        (Some(first), Some(second)) => Some(first.min(second)),
    }
}

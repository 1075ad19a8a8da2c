//! The first row of a mask.
ghost use Rattle.std.specs.Prelude.{◌≡◌};
ghost use Rattle.row_masks.specs.Masks.{first_row};

/// The number of the first row of a mask, where there is one.
pub fn first_row(mask: u64) -> Option<usize>
    ensures { result ≡ first_row mask }
{
    if mask == 0 {
        None
    } else {
        Some(mask.trailing_zeros() as usize)
    }
}

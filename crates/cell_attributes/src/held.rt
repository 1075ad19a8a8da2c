//! Values that are held while others are made.
ghost use Rattle.std.specs.Prelude.{◌≡◌, Ok, IfOk};
ghost use Rattle.cell_attributes.specs.Held.{IsKept};

use std::alloc::AllocError;

/// Both values, where the second one was made. It is a function of any types, so that what the first one owns is let go at one
/// place where the second one was not made.
pub fn held_with<T: Drop, U>(held: T, made: Result<U, AllocError>) -> Result<(T, U), AllocError>
    ensures held { IfOk result (λ both. both.0 ≡ held) }
    ensures made { IfOk result (λ both. made ≡ Ok both.1) }
{
    Ok((held, made?))
}

/// Both values, where both were made. As `held_with` it is a function of any types.
pub fn both_made<T: Drop, U: Drop>(
    one: Result<T, AllocError>,
    other: Result<U, AllocError>,
) -> Result<(T, U), AllocError>
    ensures one { IfOk result (λ both. one ≡ Ok both.0) }
    ensures other { IfOk result (λ both. other ≡ Ok both.1) }
{
    held_with(one?, other)
}

/// A value, or what stands in its place. As `held_with` it is a function of any types.
pub fn kept_unless<T: Drop, P: Drop>(
    value: T,
    instead: Result<Option<P>, AllocError>,
) -> Result<Result<T, P>, AllocError>
    ensures { IfOk result (λ kept. IsKept value instead kept) }
{
    match instead? {
        Some(instead) => Ok(Err(instead)),
        None => Ok(Ok(value)),
    }
}

//! The arguments of groups that were read, where groups that have the same ones find them again.

ghost use Rattle.std.specs.Prelude.{◌≡◌, IfOk};

use crate::tree::Value;
use crate::values::{Arguments, Values};
use std::alloc::{AllocError, Global};

/// Of a text with more tokens than these the arguments are found by their bytes. A shorter one is held in little memory anyway.
const MANY: usize = 65_536;

/// So many places are there for arguments by their bytes.
const PLACES: usize = 16_384;

/// By this factor arguments that are alike but for two printing ASCII bytes, with at most three ends of a value between these,
/// have unlike places.
const FACTOR: usize = 139;

/// What stands for the end of a value behind its bytes.
const END: usize = 256;

/// A number that takes in one more.
fn mixed(number: usize, more: usize) -> usize {
    number.wrapping_mul(FACTOR).wrapping_add(more)
}

/// A number that takes in a value.
fn with_value(before: usize, value: &Value) -> usize {
    let mut number = before;
    for byte in value.bytes() {
        number = mixed(number, usize::from(*byte));
    }
    mixed(number, if value.is_quoted() { END + 1 } else { END })
}

/// The place of some arguments.
fn place_of(values: &[Value]) -> usize {
    let mut number = 0;
    for value in values {
        number = with_value(number, value);
    }
    number % PLACES
}

/// Places that hold nothing.
fn empty_places<T: Drop>(alloc: Global) -> Result<Vec<Option<T>>, AllocError> {
    let mut places = Vec::with_capacity(alloc, PLACES)?;
    for _place in 0..PLACES {
        places.push(None)?;
    }
    Ok(places)
}

/// The arguments of the groups of a text that were read: those of the last group, or the last ones at each place.
#[derive(Drop)]
pub(crate) struct RecentArguments {
    /// Whether the text has so many tokens that there are places for arguments.
    are_many: bool,
    /// No arguments, once a group has none.
    none: Option<Arguments>,
    /// Those of the last group with some.
    last: Option<Arguments>,
    /// The last ones at each place, once there are some.
    by_place: Option<Vec<Option<Arguments>>>,
}

impl RecentArguments {
    /// None yet, of a text with so many tokens.
    pub(crate) fn new(tokens: usize) -> RecentArguments {
        RecentArguments {
            are_many: tokens > MANY,
            none: None,
            last: None,
            by_place: None,
        }
    }

    /// The arguments of a group with these values, which share the block of those that were found to be the same. An `Err` comes
    /// only where memory is wanting, or no more groups can be counted.
    pub(crate) fn shared(&mut self, alloc: Global, values: Values) -> Result<Arguments, AllocError>
        ensures { IfOk result (λ same. same ≡ values) }
    {
        if values.as_slice().is_empty() {
            return Arguments::shared(alloc, &mut self.none, values);
        }
        if self.are_many && self.by_place.is_none() {
            self.by_place = Some(empty_places(alloc)?);
        }
        match &mut self.by_place {
            Some(places) => shared_at(alloc, places, values),
            None => Arguments::shared(alloc, &mut self.last, values),
        }
    }
}

/// The same, which share the block of those at their place where they are the same.
fn shared_at(
    alloc: Global,
    places: &mut Vec<Option<Arguments>>,
    values: Values,
) -> Result<Arguments, AllocError>
    ensures { IfOk result (λ same. same ≡ values) }
{
    match places.get_mut(place_of(values.as_slice())) {
        Some(last) => Arguments::shared(alloc, last, values),
        None => Arguments::from_values(alloc, values),
    }
}

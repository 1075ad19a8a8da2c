//! The values of a statement, of which one stands in place.

ghost use Rattle.std.specs.Prelude.{◌≡◌, ◌↔◌, ◌++◌, ◌∷◌, [], length, IsTrue, IfOk, OnOk};
ghost use Rattle.liberty_groups.specs.Library.{one_text};
ghost use Rattle.liberty_groups.specs.Values.{held_values};

use crate::tree::Value;
use small_bytes::SmallBytes;
use sqlite_items::Boxed;
use std::alloc::{AllocError, Global};
use std::marker::Model;
use std::mem::replace;
use std::rc::Rc;
use std::slice::from_ref;

/// What stands in the place of some values.
#[derive(Drop)]
enum HeldValues {
    Nothing,
    One(Value),
    Two(Boxed<[Value; 2]>),
    Three(Boxed<[Value; 3]>),
    Several(Box<Vec<Value>>),
}

/// Some values, of which a single one stands in place and two or three in a block. Contracts see the list of them.
#[derive(Drop)]
pub struct Values {
    held: HeldValues,
}

impl Model for Values {
    ghost use Rattle.std.specs.Prelude.{List};
    ghost use Rattle.liberty_groups.specs.declared.tree.Value.{Value as OneValue};

    ghost Value = { List OneValue };

    ghost use Rattle.liberty_groups.specs.Values.{held_values};

    ghost view = { λ values. held_values values.held };
}

/// The two values of a block.
fn two_of(block: Boxed<[Value; 2]>) -> (Value, Value)
    ensures { result.0 ∷ result.1 ∷ [] ≡ block }
{
    let [first, second] = block.into_inner();
    (first, second)
}

/// The three values of a block.
fn three_of(block: Boxed<[Value; 3]>) -> (Value, Value, Value)
    ensures { result.0 ∷ result.1 ∷ result.2 ∷ [] ≡ block }
{
    let [first, second, third] = block.into_inner();
    (first, second, third)
}

/// A block of three values.
fn three(alloc: Global, block: Boxed<[Value; 2]>, value: Value) -> Result<HeldValues, AllocError>
    ensures { IfOk result (λ more. held_values more ≡ block ++ value ∷ []) }
{
    let (first, second) = two_of(block);
    Ok(HeldValues::Three(Boxed::new(alloc, [first, second, value])?))
}

/// A list of four, with room for eight, so that no block of a few values grows. It is of any type, since what is let go where
/// memory is wanting is then let go by one call each.
fn four<T: Drop>(alloc: Global, a: T, b: T, c: T, d: T) -> Result<Box<Vec<T>>, AllocError>
    ensures { IfOk result (λ list. list.value.items ≡ a ∷ b ∷ c ∷ d ∷ []) }
{
    let mut list = Vec::with_capacity(alloc, 8)?;
    list.push(a)?;
    list.push(b)?;
    list.push(c)?;
    list.push(d)?;
    Ok(Box::new(alloc, list)?)
}

/// Four values.
fn several(alloc: Global, block: Boxed<[Value; 3]>, value: Value) -> Result<HeldValues, AllocError>
    ensures { IfOk result (λ more. held_values more ≡ block ++ value ∷ []) }
{
    let (first, second, third) = three_of(block);
    Ok(HeldValues::Several(four(alloc, first, second, third, value)?))
}

/// The same list with one more value.
fn with_more(alloc: Global, held: HeldValues, value: Value) -> Result<HeldValues, AllocError>
    ensures { IfOk result (λ more. held_values more ≡ held_values held ++ value ∷ []) }
{
    match held {
        HeldValues::Nothing => Ok(HeldValues::One(value)),
        HeldValues::One(first) => Ok(HeldValues::Two(Boxed::new(alloc, [first, value])?)),
        HeldValues::Two(block) => three(alloc, block, value),
        HeldValues::Three(block) => several(alloc, block, value),
        HeldValues::Several(mut several) => {
            several.push(value)?;
            Ok(HeldValues::Several(several))
        }
    }
}

/// The bytes of the one value of a list, or none where it has not exactly one.
fn text_of_several(mut several: Box<Vec<Value>>) -> SmallBytes
    ensures { result ≡ one_text several.value.items }
{
    let Some(value) = several.pop() else {
        return SmallBytes::new();
    };
    if several.is_empty() {
        value.into_bytes()
    } else {
        SmallBytes::new()
    }
}

/// The text of a simple attribute with these values.
pub fn one_text(values: Values) -> SmallBytes
    ensures { result ≡ one_text values }
{
    let Values { held } = values;
    match held {
        HeldValues::Nothing => SmallBytes::new(),
        HeldValues::One(value) => value.into_bytes(),
        HeldValues::Two(block) => {
            let _values = two_of(block);
            SmallBytes::new()
        }
        HeldValues::Three(block) => {
            let _values = three_of(block);
            SmallBytes::new()
        }
        HeldValues::Several(several) => text_of_several(several),
    }
}

/// A list of at most so many values is moved to exactly the room that it needs, since it grows by doubling. Of the room of a longer
/// one the system has given no memory yet for most of what is not used.
const FEW: usize = 1024;

/// Moves a list to a block with room for no more. The block that it grew to is let go whole, so that the next list may stand
/// there: what a block is cut down by would often be too little for anything else.
fn move_exactly<T: Drop>(alloc: Global, list: &mut Vec<T>) -> Result<(), AllocError>
    ensures { OnOk result (list.new.items ≡ list.old.items) }
{
    let mut exact = Vec::with_capacity(alloc, list.len())?;
    exact.append(list)?;
    *list = exact;
    Ok(())
}

impl Values {
    /// No values.
    pub fn new() -> Values
        ensures { result ≡ [] }
    {
        Values {
            held: HeldValues::Nothing,
        }
    }

    /// One value.
    pub fn one(value: Value) -> Values
        ensures { result ≡ value ∷ [] }
    {
        Values {
            held: HeldValues::One(value),
        }
    }

    /// No values, with room for so many. An `Err` comes only where memory is wanting.
    pub fn with_capacity(alloc: Global, count: usize) -> Result<Values, AllocError>
        ensures { IfOk result (λ values. values ≡ []) }
    {
        if count <= 3 {
            return Ok(Values::new());
        }
        let several = Vec::with_capacity(alloc, count)?;
        Ok(Values {
            held: HeldValues::Several(Box::new(alloc, several)?),
        })
    }

    /// Adds a value at the end. An `Err` comes only where memory is wanting.
    #[inline(always)]
    pub fn push(&mut self, alloc: Global, value: Value) -> Result<(), AllocError>
        ensures { OnOk result (self.new ≡ self.old ++ value ∷ []) }
    {
        if let HeldValues::Several(several) = &mut self.held {
            several.push(value)?;
            return Ok(());
        }
        if let HeldValues::Nothing = &self.held {
            self.held = HeldValues::One(value);
            return Ok(());
        }
        let held = replace(&mut self.held, HeldValues::Nothing);
        self.held = with_more(alloc, held, value)?;
        Ok(())
    }

    /// The same values in exactly the room that they need, where there are not too many. An `Err` comes only where memory is
    /// wanting.
    #[inline(always)]
    pub(crate) fn exactly(mut self, alloc: Global) -> Result<Values, AllocError>
        ensures { IfOk result (λ same. same ≡ self) }
    {
        if let HeldValues::Several(several) = &mut self.held {
            if several.len() <= FEW && several.len() < several.capacity() {
                move_exactly(alloc, several)?;
            }
        }
        Ok(self)
    }

    /// The values.
    pub fn as_slice(&self) -> &[Value]
        ensures { result.now ≡ self.now }
    {
        match &self.held {
            HeldValues::Nothing => &[],
            HeldValues::One(value) => from_ref(value),
            HeldValues::Two(block) => block.get(),
            HeldValues::Three(block) => block.get(),
            HeldValues::Several(several) => several.as_slice(),
        }
    }
}

/// Whether two values are the same.
fn are_one(one: &Value, other: &Value) -> bool
    ensures { IsTrue result → one.now ≡ other.now }
{
    one.is_quoted() == other.is_quoted() && one.bytes() == other.bytes()
}

/// Whether two lists of at most four values are seen to be the same.
fn are_same(values: &[Value], others: &[Value]) -> bool
    ensures { IsTrue result → values.now ≡ others.now }
{
    match values {
        [] => others.is_empty(),
        [first] => match others {
            [other] => are_one(first, other),
            _ => false,
        },
        [first, second] => match others {
            [other, next] => are_one(first, other) && are_one(second, next),
            _ => false,
        },
        [first, second, third] => match others {
            [other, next, last] => {
                are_one(first, other) && are_one(second, next) && are_one(third, last)
            }
            _ => false,
        },
        [a, b, c, d] => match others {
            [e, f, g, h] => are_one(a, e) && are_one(b, f) && are_one(c, g) && are_one(d, h),
            _ => false,
        },
        _ => false,
    }
}

/// The arguments of a group, which groups may share. Contracts see the list of them.
#[derive(Drop)]
pub struct Arguments {
    values: Rc<Values>,
}

impl Model for Arguments {
    ghost use Rattle.std.specs.Prelude.{List};
    ghost use Rattle.liberty_groups.specs.declared.tree.Value.{Value as OneValue};

    ghost Value = { List OneValue };

    ghost view = { λ arguments. arguments.values.value };
}

impl Arguments {
    /// The same values. An `Err` comes only where memory is wanting.
    pub fn from_values(alloc: Global, values: Values) -> Result<Arguments, AllocError>
        ensures { IfOk result (λ same. same ≡ values) }
    {
        Ok(Arguments {
            values: Rc::new(alloc, values)?,
        })
    }

    /// The same arguments, in the same place. An `Err` comes only where too many groups have them.
    fn again(&self) -> Result<Arguments, AllocError>
        ensures { IfOk result (λ same. same ≡ self.now) }
    {
        Ok(Arguments {
            values: self.values.clone()?,
        })
    }

    /// The same values, which share the place of the arguments that were `last` where they are seen to be the same. An `Err` comes
    /// only where memory is wanting, or too many groups have them.
    pub(crate) fn shared(
        alloc: Global,
        last: &mut Option<Arguments>,
        values: Values,
    ) -> Result<Arguments, AllocError>
        ensures { IfOk result (λ same. same ≡ values) }
    {
        if let Some(last) = last {
            if are_same(last.as_slice(), values.as_slice()) {
                return last.again();
            }
        }
        let arguments = Arguments::from_values(alloc, values)?;
        *last = Some(arguments.again()?);
        Ok(arguments)
    }

    /// The values.
    pub fn as_slice(&self) -> &[Value]
        ensures { result.now ≡ self.now }
    {
        self.values.as_ref().as_slice()
    }

    /// How many values there are.
    pub fn len(&self) -> usize
        ensures { result ≡ length self.now }
    {
        self.as_slice().len()
    }

    /// Whether there are none.
    pub fn is_empty(&self) -> bool
        ensures { IsTrue result ↔ (self.now ≡ []) }
    {
        self.as_slice().is_empty()
    }
}

//! The condition of a timing group.
ghost use Rattle.std.specs.Prelude.{◌≡◌, ◌≤◌, length, IfOk};
ghost use Rattle.std.specs.List.{list_all};
ghost use Rattle.std.specs.Option.{option_copied};
ghost use Rattle.bool_functions.specs.Tree.{name_bound};
ghost use Rattle.cell_machine.specs.CellRules.{is_input_pin};
ghost use Rattle.timing_arcs.specs.Conditions.{plain_condition, condition_by, condition_of_tree, condition_in, tree_of};
ghost use Rattle.timing_arcs.specs.Conditions.{may_hold, is_malformed, has_unknown, named_pins};

use crate::subject::Subject;
use crate::timing_type::is_input_pin;
use bool_functions::{Function, FunctionFault, bound_is_least, read_function};
use cell_machine::Pin;
use sqlite_items::Items;
use std::alloc::{AllocError, Global};

/// What the `when` of a timing group says.
#[derive(Drop)]
pub(crate) enum Condition {
    /// There is none, or it is constant 1.
    Always,
    /// It is constant 0.
    Never,
    /// It holds where this function of input pins is 1.
    Where(Function),
    /// It is no function text, or too long.
    Malformed,
    /// It names what is no input pin.
    Unknown,
}

/// Whether these are all numbers of input pins.
fn are_inputs(pins: &[Pin], numbers: &[usize]) -> bool
    ensures { result ≡ list_all (is_input_pin pins.now) numbers.now }
{
    numbers.iter().all(|number| is_input_pin(pins, *number))
}

/// A condition without a function.
#[derive(Clone, Copy)]
enum Plain {
    Always,
    Never,
    Unknown,
}

impl Plain {
    /// The one that stands in the place of a function, where one does.
    fn of(
        alloc: Global,
        subject: &Subject,
        function: &Function,
    ) -> Result<Option<Plain>, AllocError>
        ensures { IfOk result (λ plain. condition_by plain function.now ≡ condition_of_tree subject.now function.now) }
    {
        let support = function.support(alloc)?;
        if !are_inputs(subject.pins.as_slice(), &support) {
            return Ok(Some(Plain::Unknown));
        }
        if !support.is_empty() {
            return Ok(None);
        }
        bound_is_least();
        Ok(Some(if function.value(&[]) {
            Plain::Always
        } else {
            Plain::Never
        }))
    }

    /// It as a condition.
    fn condition(self) -> Condition
        ensures { result ≡ plain_condition self }
    {
        match self {
            Plain::Always => Condition::Always,
            Plain::Never => Condition::Never,
            Plain::Unknown => Condition::Unknown,
        }
    }
}

impl Condition {
    /// The one with this function, or the plain one in its place.
    fn by(plain: Option<Plain>, function: Function) -> Condition
        ensures { result ≡ condition_by plain function }
    {
        match plain {
            None => Condition::Where(function),
            Some(plain) => plain.condition(),
        }
    }

    /// The condition that a function is.
    fn of_function(
        alloc: Global,
        subject: &Subject,
        function: Function,
    ) -> Result<Condition, AllocError>
        ensures { IfOk result (λ condition. condition ≡ condition_of_tree subject.now function) }
    {
        let plain = Plain::of(alloc, subject, &function)?;
        Ok(Condition::by(plain, function))
    }

    /// The condition that a text stands for.
    #[tactic(auto, unfolding(crate::specs::Conditions::condition_in))]
    pub(crate) fn of_text(
        alloc: Global,
        subject: &Subject,
        text: &[u8],
    ) -> Result<Condition, AllocError>
        ensures { IfOk result (λ condition. condition ≡ condition_in subject.now text.now) }
    {
        match read_function(alloc, text, &subject.names) {
            Ok(function) => Condition::of_function(alloc, subject, function),
            Err(FunctionFault::TooLong | FunctionFault::Malformed(_)) => Ok(Condition::Malformed),
            Err(FunctionFault::UnknownName(_)) => Ok(Condition::Unknown),
            Err(FunctionFault::Memory) => Err(AllocError),
        }
    }

    /// Its function, where it is none that always holds.
    pub(crate) fn function(&self) -> Option<&Function>
        ensures { option_copied result ≡ tree_of self.now }
    {
        match self {
            Condition::Where(function) => Some(function),
            _ => None,
        }
    }

    /// The same in a function of its own.
    pub(crate) fn own_function(&self, alloc: Global) -> Result<Option<Function>, AllocError>
        ensures { IfOk result (λ function. function ≡ tree_of self.now) }
    {
        match self {
            Condition::Where(function) => Ok(Some(function.copied(alloc)?)),
            _ => Ok(None),
        }
    }

    /// Whether what stands under it is made.
    pub(crate) fn may_hold(&self) -> bool
        ensures { result ≡ may_hold self.now }
    {
        match self {
            Condition::Always | Condition::Where(_) => true,
            Condition::Never | Condition::Malformed | Condition::Unknown => false,
        }
    }

    /// Whether the text does not read.
    pub(crate) fn is_malformed(&self) -> bool
        ensures { result ≡ is_malformed self.now }
    {
        match self {
            Condition::Malformed => true,
            _ => false,
        }
    }

    /// Whether it names what is no input pin.
    pub(crate) fn has_unknown(&self) -> bool
        ensures { result ≡ has_unknown self.now }
    {
        match self {
            Condition::Unknown => true,
            _ => false,
        }
    }

    /// The numbers of the pins that it names, ascending.
    pub(crate) fn named_pins(&self, alloc: Global) -> Result<Items<usize>, AllocError>
        ensures { IfOk result (λ pins. pins ≡ named_pins self.now) }
    {
        match self {
            Condition::Where(function) => Ok(Items::from_vec(function.support(alloc)?)),
            _ => Ok(Items::new(alloc)),
        }
    }
}

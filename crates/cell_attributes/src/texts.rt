//! The function texts of a cell: what each may name, and what is wrong with it.
ghost use Rattle.std.specs.Prelude.{◌≡◌, ℕ, IfOk};
ghost use Rattle.std.specs.List.{list_any};
ghost use Rattle.std.specs.Option.{option_map};
ghost use Rattle.cell_machine.specs.Delay.{least};
ghost use Rattle.liberty_groups.specs.Attributes.{shown};
ghost use Rattle.cell_attributes.specs.Texts.{control_use as control_use_of, own_use as own_use_of};
ghost use Rattle.cell_attributes.specs.Texts.{function_use as function_use_of, state_function_use as state_function_use_of};
ghost use Rattle.cell_attributes.specs.Texts.{use_of as use_of_name, use_at as use_at_place, is_unknown as is_unknown_use};
ghost use Rattle.cell_attributes.specs.Texts.{is_coupled as is_coupled_use, class_at as class_at_place};
ghost use Rattle.cell_attributes.specs.Texts.{is_number as is_number_of, text_with, judged_tree, text_as as text_of};
ghost use Rattle.cell_attributes.specs.Texts.{is_node_class as is_node_class_of, node_text as node_text_of};
ghost use Rattle.cell_attributes.specs.Texts.{malformed_at as malformed_at_of, unknown_at as unknown_at_of};
ghost use Rattle.cell_attributes.specs.Texts.{coupled_at as coupled_at_of};
ghost use Rattle.cell_attributes.specs.Shown.{shown_vocabulary};

use crate::held::kept_unless;
use crate::vocabulary::{Class, Vocabulary};
use bool_functions::{Function, FunctionFault, read_function};
use liberty_groups::Attribute;
use std::alloc::{AllocError, Global};

/// What a name is to a text that has it.
#[derive(Clone, Copy)]
pub enum Use {
    /// It may be named.
    Allowed,
    /// It is nothing that the text may name.
    Unknown,
    /// It would make one state hang on another one.
    Coupled,
}

impl Use {
    /// Whether it is nothing that the text may name.
    pub(crate) fn is_unknown(self) -> bool
        ensures { result ≡ is_unknown_use self }
    {
        match self {
            Use::Unknown => true,
            Use::Allowed | Use::Coupled => false,
        }
    }

    /// Whether it would make one state hang on another one.
    pub(crate) fn is_coupled(self) -> bool
        ensures { result ≡ is_coupled_use self }
    {
        match self {
            Use::Coupled => true,
            Use::Allowed | Use::Unknown => false,
        }
    }
}

/// What a text may name.
#[derive(Clone, Copy)]
pub enum Scope {
    /// A text of a state group that names input pins alone.
    Control,
    /// A text of a state group that may name the group's own variables, whose numbers these are.
    Data {
        first: Option<usize>,
        second: Option<usize>,
    },
    /// The text of `function`.
    Function,
    /// The text of `state_function`.
    StateFunction,
}

/// A function text of a cell. The offsets are those of its statement.
#[derive(Drop)]
pub enum Text {
    /// It is not written.
    Absent,
    /// It is this function, over the numbers of the names.
    Reads { function: Function, at: usize },
    /// It is no function text, or too long.
    Malformed(usize),
    /// It names nothing of the kind that it may name.
    Unknown(usize),
    /// It makes one state hang on another one.
    Coupled(usize),
}

/// What a name means in a text that may not name the group's own variables.
pub fn control_use(class: Class) -> Use
    ensures { result ≡ control_use_of class }
{
    match class {
        Class::Input => Use::Allowed,
        Class::Driven | Class::Alias => Use::Unknown,
        Class::Shared | Class::Node | Class::Variable => Use::Coupled,
    }
}

/// What a name means in `next_state` or `data_in`.
fn own_use(own: bool, class: Class) -> Use
    ensures { result ≡ own_use_of own class }
{
    match class {
        Class::Variable => { if own { Use::Allowed } else { Use::Coupled } }
        Class::Input | Class::Driven | Class::Alias | Class::Shared | Class::Node => {
            control_use(class)
        }
    }
}

/// What a name means in a `function`.
fn function_use(class: Class) -> Use
    ensures { result ≡ function_use_of class }
{
    match class {
        Class::Input | Class::Variable => Use::Allowed,
        Class::Driven | Class::Alias | Class::Shared | Class::Node => Use::Unknown,
    }
}

/// What a name means in a `state_function`.
fn state_function_use(class: Class) -> Use
    ensures { result ≡ state_function_use_of class }
{
    match class {
        Class::Input | Class::Alias | Class::Shared => Use::Allowed,
        Class::Driven | Class::Node | Class::Variable => Use::Unknown,
    }
}

/// Whether this is the number, where there is one.
fn is_number(i: usize, number: Option<usize>) -> bool
    ensures { result ≡ is_number_of i number }
{
    match number {
        None => false,
        Some(j) => i == j,
    }
}

/// What the name of this number and class is to a text.
fn use_of(scope: Scope, i: usize, class: Class) -> Use
    ensures { result ≡ use_of_name scope i class }
{
    match scope {
        Scope::Control => control_use(class),
        Scope::Data { first, second } => {
            own_use(is_number(i, first) || is_number(i, second), class)
        }
        Scope::Function => function_use(class),
        Scope::StateFunction => state_function_use(class),
    }
}

/// What the name of a number is. A number that no name has counts as a pin that nothing reads.
pub fn class_at(classes: &[Class], i: usize) -> Class
    ensures { result ≡ class_at_place classes.now i }
{
    match classes.get(i) {
        None => Class::Driven,
        Some(class) => *class,
    }
}

/// What the name with this number means in a text of this scope.
fn use_at(classes: &[Class], scope: Scope, i: usize) -> Use
    ensures { result ≡ use_at_place classes.now scope i }
{
    use_of(scope, i, class_at(classes, i))
}

/// Whether one of these names may not be named.
fn has_unknown(classes: &[Class], scope: Scope, support: &[usize]) -> bool
    ensures { result ≡ list_any (λ i. is_unknown_use (use_at_place classes.now scope i)) support.now }
{
    support
        .iter()
        .any(|i| use_at(classes, scope, *i).is_unknown())
}

/// Whether one of these names makes one state hang on another one.
fn has_coupled(classes: &[Class], scope: Scope, support: &[usize]) -> bool
    ensures { result ≡ list_any (λ i. is_coupled_use (use_at_place classes.now scope i)) support.now }
{
    support
        .iter()
        .any(|i| use_at(classes, scope, *i).is_coupled())
}

/// What is wrong with the names of a function text.
#[derive(Clone, Copy)]
enum WrongNames {
    /// One is nothing that the text may name.
    Unknown,
    /// One would make one state hang on another one.
    Coupled,
}

/// What is wrong with the names of a function in a text of this scope: unknown names are worse than coupled ones.
fn wrong_names(
    alloc: Global,
    classes: &[Class],
    scope: Scope,
    function: &Function,
) -> Result<Option<WrongNames>, AllocError>
    ensures { IfOk result (λ wrong. (at : ℕ) → text_with wrong at function.now ≡ judged_tree classes.now scope at function.now) }
{
    let support = function.support(alloc)?;
    if has_unknown(classes, scope, &support) {
        Ok(Some(WrongNames::Unknown))
    } else if has_coupled(classes, scope, &support) {
        Ok(Some(WrongNames::Coupled))
    } else {
        Ok(None)
    }
}

/// What a text with this tree is.
fn judge(
    alloc: Global,
    classes: &[Class],
    scope: Scope,
    at: usize,
    function: Function,
) -> Result<Text, AllocError>
    ensures { IfOk result (λ text. text ≡ judged_tree classes.now scope at function) }
{
    let wrong = wrong_names(alloc, classes, scope, &function);
    match kept_unless(function, wrong)? {
        Ok(function) => Ok(Text::Reads { function, at }),
        Err(WrongNames::Unknown) => Ok(Text::Unknown(at)),
        Err(WrongNames::Coupled) => Ok(Text::Coupled(at)),
    }
}

/// What the text of an attribute is.
pub fn text_as(
    alloc: Global,
    vocabulary: &Vocabulary<'_>,
    scope: Scope,
    attribute: Option<Attribute<'_>>,
) -> Result<Text, AllocError>
    ensures { IfOk result (λ text. text ≡ text_of (shown_vocabulary vocabulary.now) scope (option_map shown attribute.entry)) }
{
    let Some(attribute) = attribute else {
        return Ok(Text::Absent);
    };
    match read_function(alloc, attribute.text, &vocabulary.names) {
        Ok(function) => judge(alloc, &vocabulary.classes, scope, attribute.at, function),
        Err(FunctionFault::TooLong | FunctionFault::Malformed(_)) => {
            Ok(Text::Malformed(attribute.at))
        }
        Err(FunctionFault::UnknownName(_)) => Ok(Text::Unknown(attribute.at)),
        Err(FunctionFault::Memory) => Err(AllocError),
    }
}

/// Whether the name of a node, or of the internal pin that bears it, has this class.
fn is_node_class(class: Class) -> bool
    ensures { result ≡ is_node_class_of class }
{
    match class {
        Class::Shared | Class::Node => true,
        Class::Input | Class::Driven | Class::Alias | Class::Variable => false,
    }
}

/// What the text of `internal_node` is.
pub fn node_text(vocabulary: &Vocabulary<'_>, attribute: Attribute<'_>) -> Text
    ensures { result ≡ node_text_of (shown_vocabulary vocabulary.now) (shown attribute.entry) }
{
    let at = attribute.at;
    match vocabulary.names.number(attribute.text) {
        Some(i) if is_node_class(class_at(&vocabulary.classes, i)) => Text::Reads {
            function: Function::of_name(i),
            at,
        },
        _ => Text::Unknown(at),
    }
}

impl Text {
    /// Where the text is malformed.
    pub fn malformed(&self) -> Option<usize>
        ensures { result ≡ least (malformed_at_of self.now) }
    {
        match self {
            Text::Malformed(at) => Some(*at),
            Text::Absent | Text::Reads { .. } | Text::Unknown(_) | Text::Coupled(_) => None,
        }
    }

    /// Where the text names nothing of the allowed kind.
    pub fn unknown(&self) -> Option<usize>
        ensures { result ≡ least (unknown_at_of self.now) }
    {
        match self {
            Text::Unknown(at) => Some(*at),
            Text::Absent | Text::Reads { .. } | Text::Malformed(_) | Text::Coupled(_) => None,
        }
    }

    /// Where the text makes one state hang on another one.
    pub fn coupled(&self) -> Option<usize>
        ensures { result ≡ least (coupled_at_of self.now) }
    {
        match self {
            Text::Coupled(at) => Some(*at),
            Text::Absent | Text::Reads { .. } | Text::Malformed(_) | Text::Unknown(_) => None,
        }
    }
}

//! What the `when` of a timing group says.
ghost use Rattle.std.specs.Prelude.{◌≡◌, IfOk};
ghost use Rattle.timing_arcs.specs.GroupTexts.{when_text};

use crate::condition::Condition;
use crate::subject::Subject;
use liberty_groups::{Group, last_attribute};
use sqlite_items::Items;
use std::alloc::{AllocError, Global};

/// What the `when` of a timing group says.
#[derive(Drop)]
pub(crate) struct WhenText {
    /// The offset of the statement.
    pub(crate) at: Option<usize>,
    /// The condition that it stands for.
    pub(crate) condition: Condition,
    /// The numbers of the pins that the condition names, ascending.
    pub(crate) named: Items<usize>,
}

impl WhenText {
    /// What that of a timing group says.
    pub(crate) fn of(alloc: Global, subject: &Subject, group: &Group) -> Result<Self, AllocError>
        ensures { IfOk result (λ text. text ≡ when_text subject.now group.now) }
    {
        let Some(attribute) = last_attribute(group, b"when") else {
            return Ok(WhenText {
                at: None,
                condition: Condition::Always,
                named: Items::new(alloc),
            });
        };
        let condition = Condition::of_text(alloc, subject, attribute.text)?;
        let named = condition.named_pins(alloc)?;
        Ok(WhenText {
            at: Some(attribute.at),
            condition,
            named,
        })
    }
}

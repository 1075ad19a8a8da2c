//! What the texts of a timing group say, whichever of the cell's pins the group stands under.
ghost use Rattle.std.specs.Prelude.{◌≡◌, IfOk};
ghost use Rattle.std.specs.List.{list_any};
ghost use Rattle.cell_machine.specs.Names.{has};
ghost use Rattle.timing_arcs.specs.GroupTexts.{group_text};

use crate::offsets::lesser;
use crate::related::RelatedText;
use crate::subject::Subject;
use crate::tables::Limit;
use crate::timing_type::{TimingType, has_table, timing_type};
use crate::when_text::WhenText;
use liberty_groups::Group;
use std::alloc::{AllocError, Global};

/// What the texts of a timing group say.
#[derive(Drop)]
pub(crate) struct GroupText {
    /// Its place among the statements of its pin group.
    pub(crate) place: usize,
    /// Its offset.
    pub(crate) at: usize,
    /// The least offset of what is wrong in the tables.
    pub(crate) number_at: Option<usize>,
    pub(crate) timing_type: TimingType,
    /// Whether it has a table that its type uses.
    pub(crate) has_table: bool,
    pub(crate) related: RelatedText,
    pub(crate) when: WhenText,
    /// Whether the condition names an input pin that `related_pin` names.
    pub(crate) names_related: bool,
    /// The limit or delay for a rise of the pin, in picoseconds.
    pub(crate) rise: u64,
    /// The limit or delay for a fall of the pin, in picoseconds.
    pub(crate) fall: u64,
}

/// Whether the pin is among these.
fn has(pins: &[usize], wanted: usize) -> bool
    ensures { result ≡ has pins.now wanted }
{
    pins.iter().any(|pin| wanted == *pin)
}

/// Whether one of the named pins is among the related ones.
fn names_one(named: &[usize], related: &[usize]) -> bool
    ensures { result ≡ list_any (has related.now) named.now }
{
    named.iter().any(|pin| has(related, *pin))
}

impl GroupText {
    /// What the texts of a group at this place say.
    pub(crate) fn of_group(
        alloc: Global,
        subject: &Subject,
        place: usize,
        group: &Group,
    ) -> Result<GroupText, AllocError>
        ensures { IfOk result (λ text. text ≡ group_text subject.now place group.now) }
    {
        let timing_type = timing_type(group);
        let related = RelatedText::of_group(alloc, subject, group)?;
        let when = WhenText::of(alloc, subject, group)?;
        let names_related = names_one(when.named.as_slice(), related.inputs.as_slice());
        let rise = Limit::of_tables(subject.unit, group, timing_type.rise_table());
        let fall = Limit::of_tables(subject.unit, group, timing_type.fall_table());
        Ok(GroupText {
            place,
            at: group.at,
            timing_type,
            has_table: has_table(group, timing_type),
            related,
            when,
            names_related,
            rise: rise.time,
            fall: fall.time,
            number_at: lesser(rise.bad_at, fall.bad_at),
        })
    }
}

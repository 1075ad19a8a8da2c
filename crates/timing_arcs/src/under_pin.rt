//! What a timing group gives under one of the cell's pins.
ghost use Rattle.std.specs.Prelude.{◌≡◌, OnOk};
ghost use Rattle.timing_arcs.specs.Adding.{with_left_out};
ghost use Rattle.timing_arcs.specs.GroupTexts.{names_pin, used_under, read_under, left_out_under, made_under, unknown_under};
ghost use Rattle.timing_arcs.specs.GroupTexts.{own_under, read_offsets, offsets_under, with_text_noted, with_text};

use crate::found::Found;
use crate::group_text::GroupText;
use crate::making::Making;
use crate::offsets::{Offsets, where_so};
use crate::subject::Subject;
use crate::timing_type::stands_at;
use std::alloc::{AllocError, Global};

/// The most pins in the support of a condition.
const MOST_CONDITION_PINS: usize = 10;

/// Whether one of the named pins is this one.
fn names_pin(named: &[usize], pin: usize) -> bool
    ensures { result ≡ names_pin named.now pin }
{
    named.iter().any(|named| pin == *named)
}

impl GroupText {
    /// Whether the group can make something under the pin: it stands under pins of this direction and has a table that
    /// its type uses.
    fn is_used(&self, subject: &Subject) -> bool
        ensures { result ≡ used_under subject.now self.now }
    {
        stands_at(self.timing_type, subject.pins.as_slice(), subject.place) && self.has_table
    }

    /// Whether its condition and its tables are read under the pin.
    fn is_read(&self, subject: &Subject) -> bool
        ensures { result ≡ read_under subject.now self.now }
    {
        self.is_used(subject) && (self.timing_type.is_of_one_pin() || self.related.has_undriven)
    }

    /// Whether it is listed as left out under the pin.
    fn is_left_out(&self, subject: &Subject) -> bool
        ensures { result ≡ left_out_under subject.now self.now }
    {
        !self.is_used(subject)
            || (!self.timing_type.is_of_one_pin()
                && (self.related.is_empty || self.related.has_driven))
    }

    /// Whether checks or arcs are made of it under the pin.
    fn is_made(&self, subject: &Subject) -> bool
        ensures { result ≡ made_under subject.now self.now }
    {
        self.is_read(subject) && self.when.condition.may_hold()
    }

    /// Whether its `related_pin` names what is no pin, where that is read.
    fn has_unknown(&self, subject: &Subject) -> bool
        ensures { result ≡ unknown_under subject.now self.now }
    {
        self.is_used(subject) && (!self.timing_type.is_of_one_pin() && self.related.has_unknown)
    }

    /// Whether the condition names the pin, or one that the group relates it to.
    fn names_own(&self, subject: &Subject) -> bool
        ensures { result ≡ own_under subject.now self.now }
    {
        names_pin(self.when.named.as_slice(), subject.place)
            || (!self.timing_type.is_of_one_pin() && self.names_related)
    }

    /// What is noted in the condition and the tables, where they are read.
    fn read_offsets(&self, subject: &Subject) -> Offsets
        ensures { result ≡ read_offsets subject.now self.now }
    {
        let at = self.when.at;
        Offsets {
            malformed: where_so(self.when.condition.is_malformed(), at),
            unknown_name: where_so(self.when.condition.has_unknown(), at),
            own_condition: where_so(self.names_own(subject), at),
            number: self.number_at,
            wide: where_so(MOST_CONDITION_PINS < self.when.named.len(), at),
        }
    }

    /// What is noted in the group under the pin.
    fn offsets(&self, subject: &Subject) -> Offsets
        ensures { result ≡ offsets_under subject.now self.now }
    {
        let mut unknown = Offsets::none();
        unknown.unknown_name = where_so(self.has_unknown(subject), self.related.at);
        if self.is_read(subject) {
            unknown.joined(self.read_offsets(subject))
        } else {
            unknown.joined(Offsets::none())
        }
    }

    /// Notes what is noted in the group under the pin, and whether it is left out.
    fn note(&self, subject: &Subject, found: &mut Found) -> Result<(), AllocError>
        ensures { OnOk result (found.new ≡ with_text_noted subject.now found.old self.now) }
    {
        found.offsets = found.offsets.joined(self.offsets(subject));
        if self.is_left_out(subject) {
            found.leave_out(self.place)?;
        }
        Ok(())
    }

    /// Adds what the group gives under the pin.
    pub(crate) fn add(
        &self,
        alloc: Global,
        subject: &Subject,
        found: &mut Found,
    ) -> Result<(), AllocError>
        ensures { OnOk result (found.new ≡ with_text subject.now found.old self.now) }
    {
        self.note(subject, found)?;
        if !self.is_made(subject) {
            return Ok(());
        }
        if found.is_full(self.timing_type) {
            return Ok(());
        }
        let making = Making {
            alloc,
            subject,
            text: self,
        };
        if self.timing_type.is_of_one_pin() {
            making.add_all(&[subject.place], found)
        } else {
            making.add_all(self.related.inputs.as_slice(), found)
        }
    }
}

//! Making the checks and arcs of one timing group.
ghost use Rattle.std.specs.Prelude.{◌≡◌, [], ◌∷◌, max, OnOk, IfOk};
ghost use Rattle.timing_arcs.specs.Conditions.{tree_of};
ghost use Rattle.timing_arcs.specs.Making.{check, event, checks_with, arcs_with};
ghost use Rattle.timing_arcs.specs.Adding.{with_check, with_checks, with_arcs};
ghost use Rattle.timing_arcs.specs.GroupTexts.{with_made, with_all_made};

use crate::arc_list::Path;
use crate::found::Found;
use crate::group_text::GroupText;
use crate::subject::Subject;
use crate::timing_type::TimingType;
use bool_functions::Function;
use cell_machine::{Check, CheckKind, Edge, Event};
use std::alloc::{AllocError, Global};

/// What a check of a kind stands between: an event, and one behind it.
#[derive(Clone, Copy)]
struct Span {
    kind: CheckKind,
    first: Event,
    second: Event,
}

impl Span {
    /// That of a check of this kind, from one event to another.
    fn new(kind: CheckKind, first: Event, second: Event) -> Span
        ensures { result ≡ record { kind = kind; first = first; second = second } }
    {
        Span {
            kind,
            first,
            second,
        }
    }
}

/// What a timing group says, under one of the cell's pins.
#[derive(Drop)]
pub(crate) struct Making<'a> {
    pub(crate) alloc: Global,
    pub(crate) subject: &'a Subject,
    pub(crate) text: &'a GroupText,
}

/// A change of this kind of a pin.
fn event(pin: usize, edge: Edge) -> Event
    ensures { result ≡ event pin edge }
{
    Event { pin, edge }
}

impl Making<'_> {
    /// The condition of what the group makes. Each check and arc that is held has one of its own.
    fn condition(&self) -> Result<Option<Function>, AllocError>
        ensures { IfOk result (λ function. function ≡ tree_of self.now.text.now.when.condition) }
    {
        self.text.when.condition.own_function(self.alloc)
    }

    /// Adds the check with this limit.
    fn add_check(&self, span: Span, limit: u64, found: &mut Found) -> Result<(), AllocError>
        ensures { OnOk result (found.new ≡ with_check self.now.text.now.at found.old
            (check span.kind span.first span.second limit (tree_of self.now.text.now.when.condition))) }
    {
        if !found.has_check_room() {
            return Ok(());
        }
        let check = Check {
            kind: span.kind,
            first: span.first,
            second: span.second,
            limit,
            condition: self.condition()?,
        };
        found.add_check(self.text.at, check)
    }

    /// Adds the check with the greater of both limits.
    fn add_one(&self, span: Span, found: &mut Found) -> Result<(), AllocError>
        ensures { OnOk result (found.new ≡ with_checks self.now.text.now.at found.old
            (check span.kind span.first span.second (max self.now.text.now.rise self.now.text.now.fall)
            (tree_of self.now.text.now.when.condition) ∷ [])) }
    {
        let both = self.text.rise.max(self.text.fall);
        self.add_check(span, both, found)
    }

    /// Adds the checks for a rise and for a fall of the pin, each with its own limit.
    fn add_two(&self, rise: Span, fall: Span, found: &mut Found) -> Result<(), AllocError>
        ensures { OnOk result (found.new ≡ with_checks self.now.text.now.at found.old
            (check rise.kind rise.first rise.second self.now.text.now.rise (tree_of self.now.text.now.when.condition)
            ∷ check fall.kind fall.first fall.second self.now.text.now.fall (tree_of self.now.text.now.when.condition) ∷ [])) }
    {
        self.add_check(rise, self.text.rise, found)?;
        self.add_check(fall, self.text.fall, found)
    }

    /// Adds the checks with a pin that the group is related to.
    fn add_checks(&self, related: usize, found: &mut Found) -> Result<(), AllocError>
        ensures { OnOk result (found.new ≡ with_checks self.now.text.now.at found.old
            (checks_with self.now.text.now.timing_type self.now.subject.now.place related self.now.text.now.rise
            self.now.text.now.fall (tree_of self.now.text.now.when.condition))) }
    {
        let own = self.subject.place;
        let each = event(own, Edge::Any);
        let rise = event(own, Edge::Rise);
        let fall = event(own, Edge::Fall);
        match self.text.timing_type {
            TimingType::Delay | TimingType::Other => Ok(()),
            TimingType::Setup(edge) => {
                let span = Span::new(CheckKind::Setup, each, event(related, edge));
                self.add_one(span, found)
            }
            TimingType::Hold(edge) => {
                let span = Span::new(CheckKind::Hold, event(related, edge), each);
                self.add_one(span, found)
            }
            TimingType::Recovery(edge) => {
                let other = event(related, edge);
                let for_rise = Span::new(CheckKind::Recovery, rise, other);
                let for_fall = Span::new(CheckKind::Recovery, fall, other);
                self.add_two(for_rise, for_fall, found)
            }
            TimingType::Removal(edge) => {
                let other = event(related, edge);
                let for_rise = Span::new(CheckKind::Removal, other, rise);
                let for_fall = Span::new(CheckKind::Removal, other, fall);
                self.add_two(for_rise, for_fall, found)
            }
            TimingType::Width => {
                let high = Span::new(CheckKind::Width, rise, fall);
                let low = Span::new(CheckKind::Width, fall, rise);
                self.add_two(high, low, found)
            }
            TimingType::Period => { self.add_one(Span::new(CheckKind::Period, each, each), found) }
        }
    }

    /// Adds the arc from a pin that the group is related to, if the group is one of a delay.
    fn add_arcs(&self, related: usize, found: &mut Found) -> Result<(), AllocError>
        ensures { OnOk result (found.new ≡ with_arcs self.now.text.now.at found.old
            (arcs_with self.now.text.now.timing_type self.now.subject.now.place related self.now.text.now.rise
            self.now.text.now.fall (tree_of self.now.text.now.when.condition))) }
    {
        let TimingType::Delay = self.text.timing_type else {
            return Ok(());
        };
        let path = Path {
            from: related,
            to: self.subject.place,
            rise: self.text.rise,
            fall: self.text.fall,
            condition: self.text.when.condition.function(),
        };
        if found.arcs.join(&path) {
            return Ok(());
        }
        if !found.has_arc_room() {
            return Ok(());
        }
        let arc = path.arc(self.condition()?);
        found.push_arc(self.text.at, arc)
    }

    /// Adds what the group makes with these pins that it is related to, in order.
    pub(crate) fn add_all(&self, inputs: &[usize], found: &mut Found) -> Result<(), AllocError>
        ensures { OnOk result (found.new ≡ with_all_made self.now.subject.now self.now.text.now found.old inputs.now) }
    {
        for related in inputs {
            self.add_checks(*related, found)?;
            self.add_arcs(*related, found)?;
        }
        Ok(())
    }
}

//! The lines of checks in a specify block.
ghost use Rattle.std.specs.Prelude.{◌≡◌, ◌++◌, codes};
ghost use Rattle.verilog_writer.specs.Nets.{port_at};
ghost use Rattle.verilog_writer.specs.Timing.{edge_text, joint_text, condition_text, limit_text, ordered_text, turned_text};
ghost use Rattle.verilog_writer.specs.Timing.{period_text, check_text};

use crate::nets::{InModule, notifier_in, port_at, wire_at};
use cell_machine::{CheckKind, Edge, Event};
use specify_blocks::VModule;
use text_io::{Bytes, Decimal, Desk, ItemText, Line, OutSlot, Part, Put, parts};
use udp_tables::TimingCheck;

/// The word before the port of an event.
fn edge_text<'a>(edge: Edge) -> &'a [u8]
    ensures { result.now ≡ edge_text edge }
{
    match edge {
        Edge::Any => b"",
        Edge::Rise => b"posedge ",
        Edge::Fall => b"negedge ",
    }
}

/// What joins a condition to its event, where there is one.
fn joint_text<'a>(condition: Option<usize>) -> &'a [u8]
    ensures { result.now ≡ joint_text condition }
{
    match condition {
        Some(_) => b" &&& ",
        None => b"",
    }
}

/// The wire of a condition, where there is one.
fn condition_text(model: &VModule, condition: Option<usize>) -> &[u8]
    ensures { result.now ≡ condition_text model.now condition }
{
    match condition {
        Some(wire) => wire_at(model, wire),
        None => b"",
    }
}

/// A check of a module.
type Call<'a> = (&'a VModule, &'a TimingCheck);

/// A condition of a check, where there is one, the check's limit and the end of its line, with these bytes behind the limit.
#[derive(Drop)]
struct Limit<'a>(Call<'a>, Option<usize>, &'a [u8]);

impl Part for Limit<'_> {
    ghost text = { λ m. joint_text m.1 ++ (condition_text m.0.0.now m.1
        ++ (codes ", " ++ limit_text m.2.now m.0.0.now m.0.1.now)) };

    fn put<D: Desk>(&self, line: &mut Line, desk: &mut D, slot: OutSlot) -> Put {
        let (model, check) = self.0;
        let condition = Bytes(condition_text(model, self.1));
        let limit = Decimal(check.limit as u128);
        let notifier = Bytes(notifier_in(model));
        let end = parts!(limit, Bytes(self.2), notifier, Bytes(b");\n"));
        parts!(Bytes(joint_text(self.1)), condition, Bytes(b", "), end).put(line, desk, slot)
    }
}

/// An event, and what stands behind it.
#[derive(Drop)]
struct Behind<'a, P>(&'a VModule, Event, P);

impl<P: Part> Part for Behind<'_, P> {
    ghost text = { λ m. edge_text m.1.edge ++ (port_at m.0.now m.1.pin ++ P.text m.2) };

    fn put<D: Desk>(&self, line: &mut Line, desk: &mut D, slot: OutSlot) -> Put {
        let port = port_at(self.0, self.1.pin);
        parts!(Bytes(edge_text(self.1.edge)), Bytes(port), &self.2).put(line, desk, slot)
    }
}

/// A check that begins with this word, with its first event before the second one.
#[derive(Drop)]
struct Ordered<'a>(&'a [u8], Call<'a>);

impl Part for Ordered<'_> {
    ghost text = { λ m. ordered_text m.0.now m.1.0.now m.1.1.now };

    #[tactic(auto, unfolding(crate::specs::Timing::ordered_text))]
    fn put<D: Desk>(&self, line: &mut Line, desk: &mut D, slot: OutSlot) -> Put {
        let (model, check) = self.1;
        let second = Behind(model, check.second, Limit(self.1, check.condition, b", "));
        let first = Behind(model, check.first, parts!(Bytes(b", "), second));
        parts!(Bytes(self.0), first).put(line, desk, slot)
    }
}

/// A check with its second event before the first one.
#[derive(Drop)]
struct Turned<'a>(Call<'a>);

impl Part for Turned<'_> {
    ghost text = { λ m. turned_text (codes "    $removal(") m.0.0.now m.0.1.now };

    #[tactic(auto, unfolding(crate::specs::Timing::turned_text))]
    fn put<D: Desk>(&self, line: &mut Line, desk: &mut D, slot: OutSlot) -> Put {
        let (model, check) = self.0;
        let joint = Bytes(joint_text(check.condition));
        let condition = Bytes(condition_text(model, check.condition));
        let first = Behind(model, check.first, Limit(self.0, None, b", "));
        let rest = parts!(joint, condition, Bytes(b", "), first);
        parts!(Bytes(b"    $removal("), Behind(model, check.second, rest)).put(line, desk, slot)
    }
}

/// A period: a line of its rises, and one of its falls.
#[derive(Drop)]
struct Period<'a>(Call<'a>);

impl Part for Period<'_> {
    ghost text = { λ m. period_text m.0.0.now m.0.1.now };

    fn put<D: Desk>(&self, line: &mut Line, desk: &mut D, slot: OutSlot) -> Put {
        let (model, check) = self.0;
        let port = port_at(model, check.first.pin);
        let rises = parts!(
            Bytes(b"    $period(posedge "),
            Bytes(port),
            Limit(self.0, check.condition, b", ")
        );
        let falls = parts!(
            Bytes(b"    $period(negedge "),
            Bytes(port),
            Limit(self.0, check.condition, b", ")
        );
        parts!(rises, falls).put(line, desk, slot)
    }
}

impl ItemText<TimingCheck> for InModule<'_> {
    ghost text = { λ m check. check_text m.0.now check };

    #[tactic(auto, unfolding(crate::specs::Timing::check_text))]
    fn put<D: Desk>(&self, one: &TimingCheck, line: &mut Line, desk: &mut D, slot: OutSlot) -> Put {
        let call = (self.0, one);
        match one.kind {
            CheckKind::Setup => Ordered(b"    $setup(", call).put(line, desk, slot),
            CheckKind::Hold => Ordered(b"    $hold(", call).put(line, desk, slot),
            CheckKind::Recovery => Ordered(b"    $recovery(", call).put(line, desk, slot),
            CheckKind::Removal => Turned(call).put(line, desk, slot),
            CheckKind::Width => {
                let event = Behind(self.0, one.first, Limit(call, one.condition, b", 0, "));
                parts!(Bytes(b"    $width("), event).put(line, desk, slot)
            }
            CheckKind::Period => Period(call).put(line, desk, slot),
        }
    }
}

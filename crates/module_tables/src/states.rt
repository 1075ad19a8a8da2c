//! The comparison of the tables of states.
ghost use Rattle.std.specs.Prelude.{◌≡◌, ◌<◌, ◌≤◌, [], ◌∷◌, true, None, map, length, IsTrue};
ghost use Rattle.cell_machine.specs.{CellData.data_of, CellTrace.support_at};
ghost use Rattle.udp_tables.specs.Sequential.{noted};
ghost use Rattle.specify_blocks.specs.declared.model.VNet.TheVariants as net;
ghost use Rattle.specify_blocks.specs.Sound.{IsSound};
ghost use Rattle.module_terminals.specs.{Terminals.group_nets, Feeding.feeds_group};
ghost use Rattle.module_tables.specs.Tables.{place_net, cell_step, model_step, cell_forced, note_after, notes, step_compared};
ghost use Rattle.module_tables.specs.Tables.{steps_by_note, steps_by_state, steps_where_changed, steps_by_list, steps_by_old};
ghost use Rattle.module_tables.specs.Tables.{steps_compared, note_compared, notes_by_list, notes_by_old, notes_compared};
ghost use Rattle.module_tables.specs.Tables.{first_difference};
ghost use Rattle.module_tables.specs.LookUps.{AreSteps, AreForces, IsPinChange, LooksUp, IgnoresNote};
ghost use Rattle.module_tables.specs.Lists.{trit_before};

use crate::cell_values::{PinChange, edge_values, forced_by, forces, step_value, step_values};
use crate::differences::{AuditPart, Difference};
use crate::lists::{cube_of, list_count, list_numbered, trit_numbered};
use crate::net_rows::NetRows;
use cell_machine::{Cell, Few};
use cell_tables::has_notifier;
use module_terminals::terminals::{group_nets, sequential_instance};
use row_selection::NextStates;
use specify_blocks::{VModule, VNet, pin_net};
use trit_cubes::Trit;

/// The values with that of the register behind them, where there is one.
fn noted(checks: bool, note: Trit, values: &[Trit]) -> Few<Trit, 10>
    requires { length values.now < 10 }
    ensures { result ≡ noted checks note values.now }
{
    let mut all = Few::new(Trit::Unknown);
    all.append(values);
    if checks {
        all.push(note);
    }
    all
}

/// The value to which the register changes from this one.
fn note_after(note: Trit) -> Trit
    ensures { result ≡ note_after note }
{
    match note {
        Trit::Unknown => Trit::Zero,
        Trit::Zero => Trit::One,
        Trit::One => Trit::Zero,
    }
}

/// The value from which the register changes first, second and third.
fn note_before(number: usize) -> Trit
    ensures { result ≡ trit_before number }
{
    match number {
        0 => Trit::Unknown,
        1 => Trit::Zero,
        _ => Trit::One,
    }
}

/// Whether these are the same next states.
fn are_same(one: NextStates, other: NextStates) -> bool
    ensures { result ≡ true → one ≡ other }
{
    one.zero == other.zero && one.one == other.one && one.unknown == other.unknown
}

/// A change of the register of the checks.
#[derive(Clone, Copy)]
struct NoteChange<'a> {
    /// The value before.
    old: Trit,
    /// The rows of the instance that may match.
    rows: &'a NetRows<'a>,
    /// The values to which points force the state of the group, by their numbers.
    forces: &'a [Trit],
}

/// A state group of a cell, and the instance of a module that stands for it.
#[derive(Drop)]
pub(crate) struct GroupTables<'a> {
    cell: &'a Cell,
    model: &'a VModule,
    group: usize,
    nets: Few<VNet, 10>,
    ghost inside: { group < length cell.now.groups },
    ghost fed: { IsTrue (feeds_group (data_of cell.now) model.now group) },
    ghost are_nets: { nets ≡ group_nets (data_of cell.now) group },
    ghost few: { length nets ≤ 9 },
}

impl<'a> GroupTables<'a> {
    /// The group with this number.
    pub(crate) fn of(cell: &'a Cell, model: &'a VModule, group: usize) -> GroupTables<'a>
        requires inside { group < length cell.now.groups }
        requires fed { IsTrue (feeds_group (data_of cell.now) model.now group) }
        ensures cell { result.cell.now ≡ cell.now }
        ensures model { result.model.now ≡ model.now }
        ensures group { result.group ≡ group }
    {
        let nets = group_nets(cell, group);
        GroupTables {
            cell,
            model,
            group,
            nets,
        }
    }

    /// The first difference at changes of the pins.
    #[tactic(auto, using(crate::proofs::Firsts::turn, crate::proofs::Firsts::done))]
    pub(crate) fn steps(&self) -> Option<Difference>
        requires sound { IsSound self.now.model.now }
        ensures { result ≡ first_difference (steps_compared (data_of self.now.cell.now) self.now.model.now self.now.group) }
    {
        let pins = self.pins();
        for place in 0..pins {
            if let Some(found) = self.over_olds(place) {
                return Some(found);
            }
        }
        None
    }

    /// The first difference at changes of the register.
    #[tactic(auto, using(crate::proofs::Firsts::turn, crate::proofs::Firsts::done))]
    pub(crate) fn notes(&self) -> Option<Difference>
        requires sound { IsSound self.now.model.now }
        ensures { result ≡ first_difference (notes_compared (data_of self.now.cell.now) self.now.model.now self.now.group) }
    {
        let table = forces(self.cell, self.group);
        let forces = table.as_slice();
        for k in 0..3 {
            if let Some(found) = self.notes_by_old(note_before(k), forces) {
                return Some(found);
            }
        }
        None
    }

    /// How many pins the support has.
    fn pins(&self) -> usize
        ensures value { result ≡ length (support_at (data_of self.now.cell.now) self.now.group) }
        ensures few { result ≤ 8 }
    {
        self.cell.group(self.group).support.len()
    }

    /// The instance at changes of one net from one value.
    fn rows_at(&self, changed: VNet, old: Trit) -> NetRows<'a>
        requires sound { IsSound self.now.model.now }
        ensures { LooksUp (data_of self.now.cell.now) self.now.model.now self.now.group changed old result }
    {
        let model = self.model;
        let Some(instance) = sequential_instance(model, self.group) else {
            return NetRows::none();
        };
        NetRows::of(model, instance, self.nets.as_slice(), changed, old)
    }

    /// The port of the pin at a place of the support.
    fn place_net(&self, place: usize) -> VNet
        requires { place < length (support_at (data_of self.now.cell.now) self.now.group) }
        ensures { result ≡ place_net (data_of self.now.cell.now) self.now.group place }
    {
        let support = self.cell.group(self.group).support.as_slice();
        pin_net(self.cell.pins.as_slice(), support[place])
    }

    /// The next state by the module at a change of a pin.
    #[tactic(auto, using(crate::proofs::NetOrder::noted_few))]
    fn model_step(&self, change: PinChange<'_>, note: Trit, state: Trit) -> Trit
        requires change { IsPinChange (data_of self.now.cell.now) self.now.model.now self.now.group change.place change.old
            change.values.now change.rows.now }
        ensures { result ≡ model_step (data_of self.now.cell.now) self.now.model.now self.now.group change.entry.place
            change.entry.old change.entry.values.now note state }
    {
        let _few = self.pins();
        let values = noted(has_notifier(self.cell), note, change.values);
        change.rows.next(values.as_slice(), state)
    }

    /// The difference at a change of a pin, where there is one; the cell gives `of_cell`.
    fn step_difference(
        &self,
        change: PinChange<'_>,
        state: Trit,
        note: Option<Trit>,
        of_cell: Trit,
    ) -> Option<Difference>
        requires change { IsPinChange (data_of self.now.cell.now) self.now.model.now self.now.group change.place change.old
            change.values.now change.rows.now }
        requires of_cell { of_cell ≡ cell_step (data_of self.now.cell.now) self.now.group change.place change.old
            change.values.now state }
        ensures { result ≡ first_difference
            (step_compared (data_of self.now.cell.now) self.now.model.now self.now.group change.entry.place change.entry.old
            change.entry.values.now state note ∷ []) }
    {
        let _few = self.pins();
        let of_model = self.model_step(change, note.unwrap_or(Trit::Unknown), state);
        if of_cell == of_model {
            return None;
        }
        Some(Difference {
            part: AuditPart::State,
            number: self.group + 1,
            places: cube_of(change.values),
            changed: Some(change.place),
            old: Some(change.old),
            state: Some(state),
            notifier: note,
            of_cell,
            of_model,
        })
    }

    /// The first difference at a change of a pin from one state, over the values of the register.
    fn over_notes(&self, change: PinChange<'_>, state: Trit) -> Option<Difference>
        requires change { IsPinChange (data_of self.now.cell.now) self.now.model.now self.now.group change.place change.old
            change.values.now change.rows.now }
        requires steps { AreSteps (data_of self.now.cell.now) self.now.group change.place change.steps.now }
        ensures { result ≡ first_difference
            (steps_by_note (data_of self.now.cell.now) self.now.model.now self.now.group change.entry.place change.entry.old
            change.entry.values.now state) }
    {
        let _few = self.pins();
        let of_cell = step_value(self.cell, self.group, change, state);
        if !has_notifier(self.cell) {
            return self.step_difference(change, state, None, of_cell);
        }
        self.over_known_notes(change, state, of_cell)
    }

    /// The same, where there is a register; the cell gives `of_cell`.
    #[tactic(auto, using(crate::proofs::Firsts::turn, crate::proofs::Firsts::done))]
    fn over_known_notes(
        &self,
        change: PinChange<'_>,
        state: Trit,
        of_cell: Trit,
    ) -> Option<Difference>
        requires of_cell { of_cell ≡ cell_step (data_of self.now.cell.now) self.now.group change.place change.old
            change.values.now state }
        requires change { IsPinChange (data_of self.now.cell.now) self.now.model.now self.now.group change.place change.old
            change.values.now change.rows.now }
        ensures { result ≡ first_difference
            (map (step_compared (data_of self.now.cell.now) self.now.model.now self.now.group change.entry.place change.entry.old
            change.entry.values.now state) (notes true)) }
    {
        for k in 0..3 {
            let note = Some(trit_numbered(k));
            if let Some(found) = self.step_difference(change, state, note, of_cell) {
                return Some(found);
            }
        }
        None
    }

    /// The first difference at a change of a pin, over the states.
    #[tactic(auto, using(crate::proofs::Firsts::turn, crate::proofs::Firsts::done))]
    fn over_states(&self, change: PinChange<'_>) -> Option<Difference>
        requires change { IsPinChange (data_of self.now.cell.now) self.now.model.now self.now.group change.place change.old
            change.values.now change.rows.now }
        requires steps { AreSteps (data_of self.now.cell.now) self.now.group change.place change.steps.now }
        ensures { result ≡ first_difference
            (steps_by_state (data_of self.now.cell.now) self.now.model.now self.now.group change.entry.place change.entry.old
            change.entry.values.now) }
    {
        for k in 0..3 {
            if let Some(found) = self.over_notes(change, trit_numbered(k)) {
                return Some(found);
            }
        }
        None
    }

    /// Whether rows ask nothing of the register of the checks, or there is none.
    fn ignores_note(&self, rows: &NetRows<'_>) -> bool
        ensures { result ≡ true → IgnoresNote (data_of self.now.cell.now) self.now.group rows.now }
    {
        !has_notifier(self.cell) || rows.ignores(self.pins())
    }

    /// Whether it is known, without a look at the values of the register one by one, that the module gives what the cell gives at
    /// a change of a pin.
    fn agrees(&self, change: PinChange<'_>) -> bool
        requires change { IsPinChange (data_of self.now.cell.now) self.now.model.now self.now.group change.place change.old
            change.values.now change.rows.now }
        requires steps { AreSteps (data_of self.now.cell.now) self.now.group change.place change.steps.now }
        requires note { change.ignores_note ≡ true → IgnoresNote (data_of self.now.cell.now) self.now.group change.rows.now }
        ensures { result ≡ true → first_difference
            (steps_by_state (data_of self.now.cell.now) self.now.model.now self.now.group change.entry.place change.entry.old
            change.entry.values.now) ≡ None }
    {
        let _few = self.pins();
        if !change.ignores_note {
            return false;
        }
        let values = noted(has_notifier(self.cell), Trit::Unknown, change.values);
        let of_model = change.rows.next_states(values.as_slice());
        are_same(step_values(self.cell, self.group, change), of_model)
    }

    /// The first difference at a change of a pin, none where the pin has the value that it had.
    fn where_changed(&self, change: PinChange<'_>) -> Option<Difference>
        requires change { IsPinChange (data_of self.now.cell.now) self.now.model.now self.now.group change.place change.old
            change.values.now change.rows.now }
        requires steps { AreSteps (data_of self.now.cell.now) self.now.group change.place change.steps.now }
        requires note { change.ignores_note ≡ true → IgnoresNote (data_of self.now.cell.now) self.now.group change.rows.now }
        ensures { result ≡ first_difference
            (steps_where_changed (data_of self.now.cell.now) self.now.model.now self.now.group change.entry.place change.entry.old
            change.entry.values.now) }
    {
        let place = change.place;
        let value = change.values[place];
        if change.old == value || self.agrees(change) {
            return None;
        }
        self.over_states(change)
    }

    /// The first difference at a change of the pin at a place from one value, over the values after it.
    #[tactic(auto, using(crate::proofs::Firsts::turn, crate::proofs::Firsts::done))]
    fn over_lists(&self, place: usize, old: Trit, steps: &[Trit]) -> Option<Difference>
        requires sound { IsSound self.now.model.now }
        requires steps { AreSteps (data_of self.now.cell.now) self.now.group place steps.now }
        requires place { place < length (support_at (data_of self.now.cell.now) self.now.group) }
        ensures { result ≡ first_difference
            (steps_by_list (data_of self.now.cell.now) self.now.model.now self.now.group place old) }
    {
        let pins = self.pins();
        let rows = self.rows_at(self.place_net(place), old);
        let ignores_note = self.ignores_note(&rows);
        let count = list_count(pins);
        for k in 0..count {
            let list = list_numbered(pins, k, count);
            let values = list.as_slice();
            let change = PinChange {
                place,
                old,
                values,
                steps,
                rows: &rows,
                ignores_note,
            };
            if let Some(found) = self.where_changed(change) {
                return Some(found);
            }
        }
        None
    }

    /// The first difference at a change of the pin at a place, over the values before it.
    #[tactic(auto, using(crate::proofs::Firsts::turn, crate::proofs::Firsts::done))]
    fn over_olds(&self, place: usize) -> Option<Difference>
        requires sound { IsSound self.now.model.now }
        requires place { place < length (support_at (data_of self.now.cell.now) self.now.group) }
        ensures { result ≡ first_difference (steps_by_old (data_of self.now.cell.now) self.now.model.now self.now.group place) }
    {
        let table = edge_values(self.cell, self.group, place);
        let steps = table.as_slice();
        for k in 0..3 {
            if let Some(found) = self.over_lists(place, trit_numbered(k), steps) {
                return Some(found);
            }
        }
        None
    }

    /// The difference at a change of the register, where there is one; the cell gives `of_cell`.
    #[tactic(auto, using(crate::proofs::NetOrder::noted_few))]
    fn note_difference(
        &self,
        change: NoteChange<'_>,
        values: &[Trit],
        state: Trit,
        of_cell: Trit,
    ) -> Option<Difference>
        requires rows { LooksUp (data_of self.now.cell.now) self.now.model.now self.now.group net.Notifier change.old
            change.rows.now }
        requires values { length values.now ≡ length (support_at (data_of self.now.cell.now) self.now.group) }
        requires of_cell { of_cell ≡ cell_forced (data_of self.now.cell.now) self.now.group values.now }
        ensures { result ≡ first_difference
            (note_compared (data_of self.now.cell.now) self.now.model.now self.now.group change.entry.old values.now state ∷ []) }
    {
        let _few = self.pins();
        let note = note_after(change.old);
        let nets = noted(true, note, values);
        let of_model = change.rows.next(nets.as_slice(), state);
        if of_cell == of_model {
            return None;
        }
        Some(Difference {
            part: AuditPart::Notifier,
            number: self.group + 1,
            places: cube_of(values),
            changed: None,
            old: Some(change.old),
            state: Some(state),
            notifier: Some(note),
            of_cell,
            of_model,
        })
    }

    /// The first difference at a change of the register, over the states.
    #[tactic(auto, using(crate::proofs::Firsts::turn, crate::proofs::Firsts::done))]
    fn notes_by_list(&self, change: NoteChange<'_>, values: &[Trit]) -> Option<Difference>
        requires rows { LooksUp (data_of self.now.cell.now) self.now.model.now self.now.group net.Notifier change.old
            change.rows.now }
        requires forces { AreForces (data_of self.now.cell.now) self.now.group change.forces.now }
        requires values { length values.now ≡ length (support_at (data_of self.now.cell.now) self.now.group) }
        ensures { result ≡ first_difference
            (notes_by_list (data_of self.now.cell.now) self.now.model.now self.now.group change.entry.old values.now) }
    {
        let of_cell = forced_by(self.cell, self.group, change.forces, values);
        for k in 0..3 {
            if let Some(found) = self.note_difference(change, values, trit_numbered(k), of_cell) {
                return Some(found);
            }
        }
        None
    }

    /// The first difference at a change of the register from one value, over the values of the pins.
    #[tactic(auto, using(crate::proofs::Firsts::turn, crate::proofs::Firsts::done))]
    fn notes_by_old(&self, old: Trit, forces: &[Trit]) -> Option<Difference>
        requires sound { IsSound self.now.model.now }
        requires forces { AreForces (data_of self.now.cell.now) self.now.group forces.now }
        ensures { result ≡ first_difference (notes_by_old (data_of self.now.cell.now) self.now.model.now self.now.group old) }
    {
        let pins = self.pins();
        let rows = self.rows_at(VNet::Notifier, old);
        let change = NoteChange {
            old,
            rows: &rows,
            forces,
        };
        let count = list_count(pins);
        for k in 0..count {
            let list = list_numbered(pins, k, count);
            if let Some(found) = self.notes_by_list(change, list.as_slice()) {
                return Some(found);
            }
        }
        None
    }
}
